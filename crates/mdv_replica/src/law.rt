ghost use Rattle.mdv_replica.specs.Laws.{OneHead, FormatsShow, WipesShow, ClaimsShow, SlotsShow, NewestStays};

/// Four blocks spell one head at most.
pub fn one_head()
    ensures { OneHead }
{}

/// What a crash leaves while a place is formatted: as it was, no readable replica, or the new one.
pub fn formats_show()
    ensures { FormatsShow }
{}

/// What a crash leaves while a place is wiped: as it was, or no readable replica.
pub fn wipes_show()
    ensures { WipesShow }
{}

/// What a crash leaves while a claim is written: each readable replica, with the old claim or the new one.
pub fn claims_show()
    ensures { ClaimsShow }
{}

/// What a crash leaves while a slot is written: each readable replica, with the other slot as it was, and
/// this one as it was, closed, or with the new table.
pub fn slots_show()
    ensures { SlotsShow }
{}

/// Which slot holds the newest table, and that it stays so while the other one is written.
pub fn newest_stays()
    ensures { NewestStays }
{}
