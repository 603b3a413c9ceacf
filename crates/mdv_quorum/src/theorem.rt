//! What holds of every list of events, as contracts of functions that do nothing.

ghost use Rattle.std.specs.Prelude.{Bool, List};
ghost use Rattle.mdv_quorum.specs.declared.event.Event.{Event};
ghost use Rattle.mdv_quorum.specs.declared.machine.Core.{Core};
ghost use Rattle.mdv_quorum.specs.May.{Joins, HasOneMore};
ghost use Rattle.mdv_quorum.specs.Standing.{StandsAlways, NumbersRise};

/// Whatever happens to the replicas and mediators of a database, in any order, with crashes and lost
/// drives at any point: as long as each event may happen where it happens, the database stands. So a
/// boot that has claimed a quorum adopts the plan after a front of the issued changes that has each
/// one that was told, of a table that isn't below the firm one, under a number that no earlier table has.
pub fn stands_always()
    ensures { (set : Bool) (events : List Event) → StandsAlways set events }
{}

/// A list of events may happen behind another where it may happen from what that one leaves, and so may
/// one event more at a list's end.
pub fn events_join()
    ensures lists { (w : Core) (events later : List Event) → Joins w events later }
    ensures one { (w : Core) (events : List Event) (e : Event) → HasOneMore w events e }
{}

/// Completed boots draw different numbers, and the later one the greater.
pub fn numbers_rise()
    ensures { (set : Bool) (events later : List Event) → NumbersRise set events later }
{}
