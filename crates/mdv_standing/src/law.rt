ghost use Rattle.mdv_standing.specs.Forming.{CreationsTurn};
ghost use Rattle.mdv_standing.specs.Rest.{DatabasesTurn};
ghost use Rattle.mdv_standing.specs.Placing.{AddingGo, EndingGo, NamesGo, NotesGo, UnlistedGo};
ghost use Rattle.mdv_standing.specs.PlacesTracing.{AddingTrace, EndingTrace, NotesTrace, UnlistedTrace};
ghost use Rattle.mdv_standing.specs.Blanking.{BlanksStay, ClearsTurn};
ghost use Rattle.mdv_standing.specs.Formed.{FormedStay};
ghost use Rattle.mdv_standing.specs.Tracing.{BootsTrace, CreationsTrace, WritesTrace};
ghost use Rattle.mdv_standing.specs.Turning.{BootsTurn, WritesTurn};
ghost use Rattle.mdv_standing.specs.Others.{OthersGo};
ghost use Rattle.mdv_standing.specs.Holding.{DatabasesStand, KnownStay};
ghost use Rattle.mdv_standing.specs.Creating.{CreationsGo};
ghost use Rattle.mdv_standing.specs.Committing.{CommitsGo};
ghost use Rattle.mdv_standing.specs.Adopting.{AdoptionsGo};
ghost use Rattle.mdv_standing.specs.Laws.{CrashesStand, NewDrivesStand, Frames, FindsHold, NothingHolds};

/// What a crash leaves of drives that stand with a log stands with that log.
pub fn crashes_stand()
    ensures { CrashesStand }
{}

/// Drives on which no replica of the database is found stand with the empty log.
pub fn new_drives_stand()
    ensures { NewDrivesStand }
{}

/// What is done outside the slices on which a boot looks leaves the standing.
pub fn frames()
    ensures { Frames }
{}

/// What a boot chooses of a quorum that it read has every change that was told.
pub fn finds_hold()
    ensures { FindsHold }
{}

/// Where no replica shows a table, nothing was told.
pub fn nothing_holds()
    ensures { NothingHolds }
{}

/// While a boot adopts a database, each image goes on showing a world of its log: by reads, claims, and the adopted version that is
/// written anew.
pub fn adoptions_go()
    ensures { AdoptionsGo }
{}

/// What a change makes of the newest table may be written under the next count, and each image goes on showing a world of the log meanwhile.
pub fn commits_go()
    ensures { CommitsGo }
{}

/// While a database is created, each image goes on showing a world of its log: by places that are formatted, and the first table that is written.
pub fn creations_go()
    ensures { CreationsGo }
{}

/// What a crash leaves of drives that stand with all databases does; drives without a replica stand with none; and a creation of an identity
/// that none has may begin.
pub fn databases_stand()
    ensures { DatabasesStand }
{}

/// What is claimed or written for one database leaves the world of each other one. What is formatted for it leaves it, or takes what lay there
/// and behind it of one that shows no table.
pub fn others_go()
    ensures { OthersGo }
{}

/// Whatever is written, each replica that is found stays one of a database that was begun.
pub fn known_stay()
    ensures { KnownStay }
{}

/// The same of all images at once, call by call: a log and the worlds of its images go on together while a boot claims and writes, while
/// places are formatted for a creation, and while any table is written.
pub fn stores_turn()
    ensures boots { BootsTurn }
    ensures writes { WritesTurn }
    ensures creations { CreationsTurn }
{}

/// The same in each world, with the events of each call: so a call's trace is appended to from its start.
pub fn calls_trace()
    ensures boots { BootsTrace }
    ensures writes { WritesTrace }
    ensures creations { CreationsTrace }
{}

/// While one database is written, all others stand; and with that one, whose log may have gone on, all do.
pub fn databases_turn()
    ensures { DatabasesTurn }
{}

/// While a creation blanks the places of slices, all databases stand, and no replica of its own is found: on each slice the first place
/// is blanked first, and then each other one may be, whatever lay there. What was blanked is blank when the places are formatted.
pub fn slices_clear()
    ensures clears { ClearsTurn }
    ensures blanks { BlanksStay }
{}

/// A place that was formatted has a replica, which stays while the places behind it are formatted or blanked, and those of other slices.
pub fn formed_stay()
    ensures { FormedStay }
{}

/// Where nothing is in work, places that the newest table doesn't list are blanked and formatted again, which its log notes; and the master
/// of its only place is blanked, and then no boot goes past reading: each image goes on showing a world of the log.
pub fn places_go()
    ensures names { NamesGo }
    ensures notes { NotesGo }
    ensures unlisted { UnlistedGo }
    ensures adding { AddingGo }
    ensures ending { EndingGo }
{}

/// The same in each world, with the events of each call.
pub fn places_trace()
    ensures notes { NotesTrace }
    ensures unlisted { UnlistedTrace }
    ensures adding { AddingTrace }
    ensures ending { EndingTrace }
{}
