ghost use Rattle.mdv_shown.specs.Kept.{FoundsLast, FoundsStay, FormatsStay};
ghost use Rattle.mdv_shown.specs.Choice.{BootsChoose};
ghost use Rattle.mdv_shown.specs.Sites.{SitesAre};
ghost use Rattle.mdv_shown.specs.Laws.{ShowsOne, NewestIsOne, ShowsKept, ShowsFilled, ShowsSome};
ghost use Rattle.mdv_shown.specs.Worlds.{ClaimsGo, TablesBegin, SlotsGo, Frames};
ghost use Rattle.mdv_shown.specs.Wipes.{WipesGo, BlankSlicesRest};
ghost use Rattle.mdv_shown.specs.Others.{OthersGo};
ghost use Rattle.mdv_shown.specs.Formats.{FirstFormatsGo, LaterFormatsGo, OthersFormatsGo};

/// The slices of a site share no block, and each has the block of its first replica's master.
pub fn sites_are()
    ensures { SitesAre }
{}

/// What a slot shows of tables of any type: one under one mark, by its gate and its body alone, the one that it was filled with; and where it is
/// open and the replica is readable, one at least. So a replica has one newest table at most.
pub fn slots_show<T>()
    ensures one { ShowsOne T }
    ensures newest { NewestIsOne T }
    ensures kept { ShowsKept T }
    ensures filled { ShowsFilled T }
    ensures some { ShowsSome T }
{}

/// While a claim is written to a replica that an image has, it goes on showing the world, or that with the place claimed.
pub fn claims_go<T>()
    ensures { ClaimsGo T }
{}

/// A table that begins to be written is in the family of the world that an image shows, and at no place.
pub fn tables_begin<T>()
    ensures { TablesBegin T }
{}

/// While the last table is written to a spare slot of a replica that an image has, it goes on showing the world, or that with
/// the table at the place. No other replica is found or lost meanwhile, or shows anything else.
pub fn slots_go<T>()
    ensures { SlotsGo T }
{}

/// While a master is blanked on one of the slices, whosever replica lies there, an image goes on showing the world, or that without this
/// place and those behind it. On a slice without a first master nothing is found, whatever is written there.
pub fn wipes_go<T>()
    ensures wiped { WipesGo T }
    ensures blank { BlankSlicesRest T }
{}

/// While a place is formatted for the database, an image goes on showing the world; or that without what lay there and behind it; or that
/// with the place formatted.
pub fn formats_go<T>()
    ensures first { FirstFormatsGo T }
    ensures later { LaterFormatsGo T }
{}

/// While another database's replica is claimed or written, an image goes on showing this one's world. While a place is formatted for it, an
/// image goes on showing this one's world, or that without what lay there and behind it.
pub fn others_go<T>()
    ensures written { OthersGo T }
    ensures formatted { OthersFormatsGo T }
{}

/// What is written outside the slices of the site leaves what an image shows.
pub fn frames<T>()
    ensures { Frames T }
{}

/// Of the replicas that a boot read, one with the greatest mark shows the table that the votes choose, and the greatest claim or boot
/// number is theirs. So where more than half of each of its lists was read, the boot may claim under one more.
pub fn boots_choose<T>()
    ensures { BootsChoose T }
{}

/// While a replica is claimed, written or blanked, nothing is found that wasn't before, under the same master, whosever it is. While a place is
/// formatted, nothing but a replica of that database. What is claimed or written leaves each other replica as it was.
pub fn founds_stay<T>()
    ensures written { FoundsStay T }
    ensures kept { FoundsLast T }
    ensures formatted { FormatsStay T }
{}
