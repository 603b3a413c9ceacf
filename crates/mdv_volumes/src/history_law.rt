ghost use Rattle.mdv_volumes.specs.HistoryLaws.{BeginningsGo, BootsGo, CreationsGo, DatabasesGo, DatabasesLive, ListsStay, ReadsGo, RestartsGo, TellsGo, ToldWritesLast, VolumesLive, WritesGo};
ghost use Rattle.mdv_volumes.specs.Striking.{StrikesGo};
ghost use Rattle.mdv_volumes.specs.Vacant.{VacantStay};

/// What a history says of a volume is what happened to that volume, each where it may.
pub fn volumes_live()
    ensures { VolumesLive }
{}

/// At each moment of a write of blocks of a volume a history goes on by their issue; in the end the write can be told.
pub fn writes_go()
    ensures { WritesGo }
{}

/// What was read of blocks that have a copy can be told.
pub fn reads_go()
    ensures { ReadsGo }
{}

/// Drives that begin anew stand with the history behind a crash, those that go on with the same one; new drives stand with the one in which nothing happened.
pub fn restarts_go()
    ensures { RestartsGo }
{}

/// What goes on in one key's database goes on in the history; volumes, and the databases of other keys, stay.
pub fn databases_go()
    ensures { DatabasesGo }
{}

/// A creation begins, where no table of its key was written, or its database was deleted.
pub fn creations_go()
    ensures { CreationsGo }
{}

/// A deed that is done is told by one event, and nothing else changes.
pub fn tells_go()
    ensures { TellsGo }
{}

/// A boot that finds one value of each block of some volumes leaves each of them that one.
pub fn boots_go()
    ensures { BootsGo }
{}

/// A volume's log begins before a table has it, or blocks more of it.
pub fn beginnings_go()
    ensures { BeginningsGo }
{}

/// A write whose `ok` was told was answered and put on the disk before: every later read gives it and every crash leaves it, or what was issued since, as
/// long as no end of its database begins, nor a change that takes its volume away.
pub fn told_writes_last()
    ensures { ToldWritesLast }
{}

/// What a history says of a key's log is what happened to that log, each where it may; and of what it tells and begins that key's part.
pub fn databases_live()
    ensures { DatabasesLive }
{}

/// As long as no end of a key's database begins: once a write of a table of it was answered, each table that a boot may find lists places that were listed, or that the changes
/// which began make of those.
pub fn lists_stay()
    ensures { ListsStay }
{}

/// Where each of a key's databases shows no table, as a creation leaves it that failed, or was deleted, the current one may count as over: the drives stand with
/// that history too, in which the key has no database, until one is created.
pub fn strikes_go()
    ensures { StrikesGo }
{}

/// A history without a current database of a key, with which the drives stand, is one of drives on which no replica of the key shows a table; so it stays until a
/// database of the key is created, and behind creations that failed, once their database is struck.
pub fn vacant_stay()
    ensures { VacantStay }
{}
