//! The family of tables, and what is read of it.

ghost use Rattle.std.specs.Prelude.{◌≡◌, None, IfOk};
ghost use Rattle.mdv_votes.specs.Spots.{last_list as spec_last_list};
ghost use Rattle.mdv_votes.specs.Family.{mark_below as spec_mark_below, table_at as spec_table_at, no_table as spec_no_table, boot_of as spec_boot_of, newer as spec_newer, newest_of as spec_newest_of, greatest_of as spec_greatest_of, shown as spec_shown};

use crate::places::place_at;
use crate::{Row, Spot, SpotList, SpotLists, SpotState, Version};
use mdv_base::Mark;
use std::alloc::{AllocError, Global};

/// A table that stands where there is none. It takes no memory.
pub fn no_table(alloc: Global) -> Version
    ensures { result ≡ spec_no_table }
{
    Version {
        mark: Mark { boot: 0, count: 0 },
        parent: None,
        change: None,
        lists: SpotLists {
            first: Row::new(alloc),
            second: None,
            mediators: Row::new(alloc),
        },
        by_majority: false,
        plan: Row::new(alloc),
    }
}

/// The table of this number. It is lent and not copied, so the caller keeps one that stands where
/// there is none.
pub fn table_at<'a>(family: &'a [Version], number: usize, none: &'a Version) -> &'a Version
    requires { none.now ≡ spec_no_table }
    ensures { result.now ≡ spec_table_at family.now number }
{
    match family.get(number) {
        Some(table) => table,
        None => none,
    }
}

/// The mark of the table of this number, which needs no table to stand where there is none.
pub fn mark_at(family: &[Version], number: usize) -> Mark
    ensures { result ≡ (spec_table_at family.now number).mark }
{
    match family.get(number) {
        Some(table) => table.mark,
        None => Mark { boot: 0, count: 0 },
    }
}

/// The boot number of a table that is shown, 0 of none.
pub(crate) fn boot_of(family: &[Version], shown: Option<usize>) -> u64
    ensures { result ≡ spec_boot_of family.now shown }
{
    match shown {
        Some(number) => mark_at(family, number).boot,
        None => 0,
    }
}

pub(crate) fn mark_below(a: Mark, b: Mark) -> bool
    ensures { result ≡ spec_mark_below a b }
{
    a.boot < b.boot || (a.boot == b.boot && a.count < b.count)
}

/// Of two tables the one with the greater mark.
fn newer(family: &[Version], a: Option<usize>, b: Option<usize>) -> Option<usize>
    ensures { result ≡ spec_newer family.now a b }
{
    match (a, b) {
        (None, other) => other,
        (Some(one), None) => Some(one),
        (Some(one), Some(other)) => {
            if mark_below(mark_at(family, one), mark_at(family, other)) {
                Some(other)
            } else {
                Some(one)
            }
        }
    }
}

fn shown(place: SpotState) -> Option<usize>
    ensures { result ≡ spec_shown place }
{
    if place.spot.mediator {
        None
    } else {
        place.newest
    }
}

/// Of the tables that these places show the one with the greatest mark. A boot that read them adopts
/// it.
pub fn newest_of(family: &[Version], places: &[SpotState], read: &[Spot]) -> Option<usize>
    ensures { result ≡ spec_newest_of family.now places.now None read.now }
{
    let mut best = None;
    for p in read {
        best = newer(family, best, shown(place_at(places, *p)));
    }
    best
}

/// The greatest claim or boot number of these places. A boot that read them draws a greater one.
pub fn greatest_of(family: &[Version], places: &[SpotState], read: &[Spot]) -> u64
    ensures { result ≡ spec_greatest_of family.now places.now 0 read.now }
{
    let mut best = 0;
    for p in read {
        let place = place_at(places, *p);
        best = best.max(place.claim.max(boot_of(family, place.newest)));
    }
    best
}

/// The list that stands once the change of places is over.
pub fn last_list(lists: &SpotLists) -> &SpotList
    ensures { result.now ≡ spec_last_list lists.now }
{
    match &lists.second {
        Some(second) => second,
        None => &lists.first,
    }
}

impl SpotLists {
    /// The same lists once more.
    pub fn copied(&self, alloc: Global) -> Result<SpotLists, AllocError>
        ensures { IfOk result (λ lists. lists ≡ self.now) }
    {
        let first = self.first.copied(alloc)?;
        let mediators = self.mediators.copied(alloc)?;
        let second = match &self.second {
            Some(second) => Some(second.copied(alloc)?),
            None => None,
        };
        Ok(SpotLists {
            first,
            second,
            mediators,
        })
    }
}

impl Version {
    /// The same table once more.
    pub fn copied(&self, alloc: Global) -> Result<Version, AllocError>
        ensures { IfOk result (λ table. table ≡ self.now) }
    {
        let lists = self.lists.copied(alloc)?;
        let plan = self.plan.copied(alloc)?;
        Ok(Version {
            mark: self.mark,
            parent: self.parent,
            change: self.change,
            lists,
            by_majority: self.by_majority,
            plan,
        })
    }
}
