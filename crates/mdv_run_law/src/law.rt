ghost use Rattle.mdv_run_law.specs.Run.{OneCourse};
ghost use Rattle.mdv_run_law.specs.Lives.{LivesStand, HostsSee, DatabaseIsFound, BlocksHold, FairLinesMeetNone};

/// Where nothing failed and memory was never wanting, and no line boots behind one that changed the places of an open database, a run has one course: what the drives'
/// blocks held and the script settle what is told, the status, and, unless the run is over for want of places, numbers or memory, or for two databases, what is in memory at
/// the end and in each block that no replica may have.
pub fn one_course()
    ensures { OneCourse }
{}

/// Over every life, any number of runs of any hosts of a table with any scripts and failures, each up to any of its moments, stopped there by a
/// crash that may leave whatever a crash may leave, or not stopped, the drives stand with a history of each host, which acknowledges exactly what
/// the host's own runs told, whatever the others did. So, as long as no end of it may have begun, of a database whose creation was told a replica
/// shows a table, which a boot that reads all drives finds; no boot finds two databases; what a boot adopts has every change that was told, and
/// behind a deletion that was told it adopts none, till a creation begins; and each block of a volume reads as its last acknowledged write, or one
/// that was issued later. No two runs of one host may have one word, and no boot may meet a stale vote: none does as long as no line adds places
/// on a slice from which an earlier one dropped some.
pub fn lives_stand()
    ensures stand { LivesStand }
    ensures see { HostsSee }
    ensures found { DatabaseIsFound }
    ensures blocks { BlocksHold }
    ensures fair { FairLinesMeetNone }
{}
