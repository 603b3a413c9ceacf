ghost use Rattle.mdv_extent.specs.Laws.{FreeRunsAreFree, OneListIsFree, AllotmentsLieFree, UsedRunsStay, GivenExtentsStay, ReleasesGiveBack};

/// What `free_runs` gives has exactly the free blocks, in the longest runs, in order.
pub fn free_runs_are_free()
    ensures { FreeRunsAreFree }
{}

/// No other list of runs does.
pub fn one_list_is_free()
    ensures { OneListIsFree }
{}

/// What `allocate` gives lies in the free runs, with its headers, and has the blocks that were needed.
pub fn allotments_lie_free()
    ensures { AllotmentsLieFree }
{}

/// Extents given out of a base's free runs take no block that was used, and leave all others free.
pub fn used_runs_stay()
    ensures { UsedRunsStay }
{}

/// Extents that are asked for by offset and length, and lie apart, take no block that was used either.
pub fn given_extents_stay()
    ensures { GivenExtentsStay }
{}

/// Extents given back free exactly their blocks and headers.
pub fn releases_give_back()
    ensures { ReleasesGiveBack }
{}
