//! Laws of notes.
ghost use Rattle.std.specs.Prelude.{◌≡◌};
ghost use Rattle.mdv_notes.specs.Kept.{KeepsText};
ghost use Rattle.mdv_notes.specs.Named.{IsSaid, LeavesOthers};
ghost use Rattle.mdv_notes.specs.Noted.{noted_of};
ghost use Rattle.mdv_notes.specs.Planned.{TellsOfPlan};
ghost use Rattle.mdv_notes.specs.declared.note.Note.{Note};
ghost use Rattle.mdv_plan.specs.declared.table.Table.{Table};
ghost use Rattle.mdv_whole.specs.Noted.{IsNoted};

/// No note changes the plan.
pub fn notes_keep_the_plan()
    ensures { (t : Table) (n : Note) → (noted_of t n).plan ≡ t.plan }
{}

/// Components, regions, submirrors, RAID-5 volumes and spares that a note doesn't name are as they were.
pub fn notes_leave_others()
    ensures { (t : Table) (n : Note) → LeavesOthers t n }
{}

/// What a note names is as it says, where the table has it.
pub fn notes_say_what_they_name()
    ensures { (t : Table) (n : Note) → IsSaid t n }
{}

/// A table of which all is noted stays one.
pub fn noted_tables_stay_noted()
    ensures { (t : Table) (n : Note) → IsNoted t → IsNoted (noted_of t n) }
{}

/// A table of which all is noted tells of what its plan has, so that a note of it isn't passed over.
pub fn noted_tables_tell_of_their_plans()
    ensures { (t : Table) → IsNoted t → TellsOfPlan t }
{}

/// A note leaves the text of a table as long as it was, and its record one.
pub fn notes_keep_the_text()
    ensures { (t : Table) (n : Note) → KeepsText t n }
{}
