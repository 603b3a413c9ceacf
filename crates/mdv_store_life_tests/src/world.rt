//! A plain world beside the store: which table each place was written last, and what a boot or a commit comes to by counting. It knows of no block.
ghost use Rattle.std.specs.Prelude.{◌≤◌};

use mdv_store_tests::{Committed, Drives, End, Found, bit, has};
use std::alloc::{AllocError, Global};

/// A table, by its number, and the mark under which it was written.
#[derive(Clone, Copy)]
struct Written {
    boot: u64,
    count: u64,
    table: u16,
}

impl Written {
    fn is_newer(self, other: Written) -> bool {
        other.boot < self.boot || other.boot == self.boot && other.count < self.count
    }
}

#[derive(Clone, Copy)]
struct Place {
    drive: u32,
    claim: u64,
    shown: Written,
    // The table that a crash may leave in place of it.
    unsynced: Option<Written>,
}

/// The places of a database that was just created, and which drives are lost.
#[derive(Drop)]
pub(crate) struct World {
    places: Vec<Place>,
    lost: Drives,
    // The drives of the active places.
    active: Drives,
    newest: Option<Written>,
}

const CREATED: Written = Written {
    boot: 1,
    count: 0,
    table: 0,
};

// The calls of a table's write at one place. The last but one opens the gate, and the last one syncs that.
const CALLS: u64 = 6;

impl World {
    /// So many places on each of these lines, of which each drive has two.
    pub(crate) fn new(alloc: Global, on: &[usize], count: u8) -> Result<World, AllocError> {
        let mut places = Vec::new(alloc);
        for line in on {
            let place = Place {
                drive: (*line / 2).min(31) as u32,
                claim: 1,
                shown: CREATED,
                unsynced: None,
            };
            places.extend_from_slice(vec![in alloc; place; usize::from(count)]?.as_slice())?;
        }
        Ok(World {
            places,
            lost: 0,
            active: Drives::MAX,
            newest: Some(CREATED),
        })
    }

    pub(crate) fn is_open(&self) -> bool {
        self.newest.is_some()
    }

    pub(crate) fn lost(&self) -> Drives {
        self.lost
    }

    pub(crate) fn lose(&mut self, drives: Drives) {
        self.lost |= drives;
    }

    /// A crash, behind which these drives are back. What wasn't synced is there, or not.
    pub(crate) fn crash(&mut self, keeps: bool, back: Drives) {
        for place in &mut self.places {
            if let Some(written) = place.unsynced {
                if keeps {
                    place.shown = written;
                }
            }
            place.unsynced = None;
        }
        self.lost &= !back;
        self.newest = None;
    }

    fn listed(&self) -> u32
        ensures { result ≤ 50 }
    {
        self.places.len().min(50) as u32
    }

    // How many places are on these drives.
    fn count_on(&self, drives: Drives) -> u32
        ensures { result ≤ 50 }
    {
        let places = self.places.iter();
        places
            .filter(|place| has(drives, place.drive))
            .count()
            .min(50) as u32
    }

    fn newest_on(&self, drives: Drives) -> Option<Written> {
        let mut newest: Option<Written> = None;
        for place in &self.places {
            let is_newer = newest.map_or(true, |written| place.shown.is_newer(written));
            if has(drives, place.drive) && is_newer {
                newest = Some(place.shown);
            }
        }
        newest
    }

    fn greatest_on(&self, drives: Drives) -> u64 {
        let mut greatest = 0;
        for place in &self.places {
            if has(drives, place.drive) {
                greatest = place.claim.max(place.shown.boot).max(greatest);
            }
        }
        greatest
    }

    fn rewrite(&mut self, written: Written) {
        for place in &mut self.places {
            if has(self.active, place.drive) {
                place.claim = written.boot;
                place.shown = written;
            }
        }
    }

    /// A boot with the drives that aren't lost.
    pub(crate) fn boot(&mut self) -> End {
        let up = !self.lost;
        let Some(found) = self.newest_on(up) else {
            return End::Empty;
        };
        let listed = self.listed();
        let readable = self.count_on(up);
        if 2 * readable <= listed {
            return End::NoQuorum(readable, listed / 2 + 1);
        }
        let written = Written {
            boot: self.greatest_on(up).saturating_add(1),
            count: 0,
            table: found.table,
        };
        self.active = up;
        self.newest = Some(written);
        self.rewrite(written);
        End::Adopted(Found {
            fresh: 7,
            boot: written.boot,
            table: found.table,
            places: self.places.len(),
        })
    }

    /// A commit of this table, of which so many calls pass.
    pub(crate) fn commit(&mut self, table: u16, passing: u64) -> Option<Committed> {
        let last = self.newest?;
        let listed = self.listed();
        if 2 * self.count_on(self.active) < listed {
            return Some(Committed::Lost(self.count_on(self.active), listed));
        }
        let next = Written {
            boot: last.boot,
            count: last.count.saturating_add(1),
            table,
        };
        self.write(next, passing);
        let active = self.count_on(self.active);
        if 2 * active < listed {
            return Some(Committed::Lost(active, listed));
        }
        self.newest = Some(next);
        Some(Committed::Done)
    }

    // At each active place. Behind a failed call no place of its drive is active.
    fn write(&mut self, next: Written, passing: u64) {
        let mut left = passing;
        for place in &mut self.places {
            if !has(self.active, place.drive) {
                continue;
            }
            let passed = if has(self.lost, place.drive) {
                0
            } else {
                left.min(CALLS)
            };
            if passed == CALLS {
                place.shown = next;
                left = left.saturating_sub(CALLS);
                continue;
            }
            if passed.saturating_add(1) == CALLS {
                place.unsynced = Some(next);
            }
            self.active &= !bit(place.drive);
            left = left.saturating_sub(passed.saturating_add(1));
        }
    }
}
