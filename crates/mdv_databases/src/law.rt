ghost use Rattle.mdv_databases.specs.Blank.{BlankBootsGo};
ghost use Rattle.mdv_databases.specs.Booting.{BootsGo};
ghost use Rattle.mdv_databases.specs.Committing.{CommitsGo};
ghost use Rattle.mdv_databases.specs.Creating.{CreationsGo};
ghost use Rattle.mdv_databases.specs.Ending.{EndsGo};
ghost use Rattle.mdv_databases.specs.Lasting.{DatabasesLast};
ghost use Rattle.mdv_databases.specs.Meeting.{DatabasesMeet};
ghost use Rattle.mdv_databases.specs.Moving.{MovesGo};
ghost use Rattle.mdv_databases.specs.Striking.{StrikesGo};
ghost use Rattle.mdv_databases.specs.Telling.{TellsGo};

/// What a crash leaves of drives that stand with all databases does; drives without a replica stand with none; and what is done outside the slices on
/// which a boot looks leaves them standing, an open one open, and those without a table without one. Of a key without a table nothing was answered or told.
pub fn databases_last()
    ensures { DatabasesLast }
{}

/// While a table is committed to an open database, that one's log goes on by the change alone, and all others stand.
pub fn commits_go()
    ensures { CommitsGo }
{}

/// While a database boots, the key's current one goes on with nothing asked, and all others stand. A replica that shows a table is the current one's.
pub fn boots_go()
    ensures { BootsGo }
{}

/// While a database is created, it goes on by its first table, and all others stand; one that failed leaves no table of its key.
pub fn creations_go()
    ensures { CreationsGo }
{}

/// While the places of an open database change, that one's log goes on by the change alone, and by the formats of the added places, and all others stand.
pub fn moves_go()
    ensures { MovesGo }
{}

/// While an open database with one place ends, all others stand; then its log is over, and another one of its key may be created.
pub fn ends_go()
    ensures { EndsGo }
{}

/// Where changes of a key's current database may be told, or its creation, its log goes on by that, all stand, and an open one stays open. What is open has
/// every change that was told.
pub fn tells_go()
    ensures { TellsGo }
{}

/// Once a write of the key's current database was answered, as long as it isn't about to be deleted, a replica that shows a table is found on any drives with
/// more than half of each list of places that a boot may find, and a boot that reads these isn't short of places.
pub fn databases_meet()
    ensures { DatabasesMeet }
{}

/// Where each of a key's databases shows no table, as a creation leaves it that failed, or was deleted, the current one may count as over, though no other one
/// was begun: all stand then.
pub fn strikes_go()
    ensures { StrikesGo }
{}

/// A boot of a key of which no replica shows a table writes nothing, adopts none, and meets no stale vote.
pub fn blank_boots_go()
    ensures { BlankBootsGo }
{}
