ghost use Rattle.mdv_soft.specs.Laws.{CausesExclude, ExtentsMatch, PiecesEnd, SoftsStand};

/// A block of a soft partition is one block of its extents, each block of an extent is exactly one of its blocks, and no header is one.
pub fn extents_match()
    ensures { ExtentsMatch }
{}

/// A soft partition is on the drives that its base is on, no two of its blocks share a block of a drive where no two of the base's do, and
/// it shares none with a block of the base that isn't in its extents, nor with a soft partition there that lies apart from it.
pub fn softs_stand()
    ensures { SoftsStand }
{}

/// The next block behind an extent's last one isn't the base's next. So on a run of a drive a piece is of one extent; on other bases it may go on.
pub fn pieces_end()
    ensures { PiecesEnd }
{}

/// Extents that make no soft partition have one cause for it, and those that make one have none.
pub fn causes_exclude()
    ensures { CausesExclude }
{}
