//! What holds of every set of places, as contracts of functions that do nothing.

ghost use Rattle.mdv_votes.specs.Laws.{HalvesMeet, ListsAreShared, WritesMeetReads, ClaimsMeetReads, ReadsHaveOne, WritesGrow, ClaimsGrow, ReadsGrow, NewestIsGreatest, NoneIsShown, GreatestIsNewest};

/// At least half of a list and more than half of it have a place in common, whoever took the one and read the other.
pub fn halves_meet()
    ensures { HalvesMeet }
{}

/// Who reads a table meets those that wrote or claimed a table with a list in common: at a place, or at a mediator that knew no greater
/// mark. What suffices to read a table is never nobody.
pub fn quorums_meet()
    ensures shared { ListsAreShared }
    ensures written { WritesMeetReads }
    ensures claimed { ClaimsMeetReads }
    ensures some { ReadsHaveOne }
{}

/// What suffices to write, claim or read a table suffices with more places. More mediators may forbid a read.
pub fn quorums_grow()
    ensures written { WritesGrow }
    ensures claimed { ClaimsGrow }
    ensures read { ReadsGrow }
{}

/// The table that is chosen of those that were read is one with the greatest mark, and nothing is chosen only where none is shown.
pub fn newest_is_greatest()
    ensures greatest { NewestIsGreatest }
    ensures none { NoneIsShown }
    ensures chosen { GreatestIsNewest }
{}
