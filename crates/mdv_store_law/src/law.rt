ghost use Rattle.mdv_store_law.specs.Laws.{CoursesAreLogs};

/// A log that goes on by events that may happen stays one.
pub fn courses_are_logs()
    ensures { CoursesAreLogs }
{}
