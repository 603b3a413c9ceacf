//! A plain world beside the core: what lies at each place, and what a boot finds there by counting.

mod step;

use crate::act::{Lists, PLACES, Spots, has};
use mdv_base::Mark;
use std::alloc::{AllocError, Global};

#[derive(Drop)]
struct Version {
    mark: Mark,
    lists: Lists,
    // Whether half of the places never suffices.
    by_majority: bool,
    plan: Vec<u64>,
}

#[derive(Clone, Copy)]
struct Disk {
    claim: u64,
    // Its newest table, by its number in the order of writing.
    shows: Option<usize>,
    // The firm table that had dropped it when it was formatted last; 0 where none had.
    anew: usize,
}

#[derive(Clone, Copy, PartialEq, Eq)]
enum Stage {
    Reading,
    Claiming,
    Writing,
    Ready,
}

#[derive(Drop)]
pub(crate) struct World {
    set: bool,
    disks: Vec<Disk>,
    formatted: Spots,
    lost: Spots,
    tables: Vec<Version>,
    // Those that were written at enough places, the oldest first.
    firm: Vec<usize>,
    stage: Stage,
    // What the boot in work has read and claimed, and what took the table in hand.
    read: Spots,
    claimed: Spots,
    took: Spots,
    // In hand, and nowhere yet.
    next: Option<Version>,
    number: u64,
    // The table that the boot in work chose, and that of the boot which was completed last.
    chosen: Option<usize>,
    adopted: Option<usize>,
    boots: u32,
    changes: u64,
    issued: Vec<u64>,
    told: Vec<u64>,
}

fn is_majority(set: Spots, list: Spots) -> bool {
    2 * u64::from((set & list).count_ones()) > u64::from(list.count_ones())
}

fn is_half(set: Spots, list: Spots) -> bool {
    2 * u64::from((set & list).count_ones()) >= u64::from(list.count_ones())
}

// Whether more than half of each list of places is in the set, or half where that suffices.
fn suffices(set: Spots, lists: Lists, half: bool) -> bool {
    let last = lists.second.unwrap_or(lists.first);
    (is_majority(set, lists.first) && is_majority(set, last))
        || (half && is_half(set, lists.first) && is_half(set, last))
}

fn named(lists: Lists) -> Spots {
    lists.first | lists.second.unwrap_or(0) | lists.mediators
}

// The plan of a table that was written, and one more change.
fn plan_after(alloc: Global, last: Option<&Version>, change: u64) -> Result<Vec<u64>, AllocError> {
    let mut plan = match last {
        Some(table) => table.plan.clone()?,
        None => Vec::new(alloc),
    };
    plan.push(change)?;
    Ok(plan)
}

impl World {
    pub(crate) fn new(alloc: Global, set: bool) -> Result<World, AllocError> {
        let disk = Disk {
            claim: 0,
            shows: None,
            anew: 0,
        };
        Ok(World {
            set,
            disks: vec![in alloc; disk; 32]?,
            formatted: 0,
            lost: 0,
            tables: Vec::new(alloc),
            firm: Vec::new(alloc),
            stage: Stage::Reading,
            read: 0,
            claimed: 0,
            took: 0,
            next: None,
            number: 0,
            chosen: None,
            adopted: None,
            boots: 0,
            changes: 0,
            issued: Vec::new(alloc),
            told: Vec::new(alloc),
        })
    }

    // What each place shows.

    fn mark_of(&self, table: Option<usize>) -> Mark {
        match table.and_then(|number| self.tables.get(number)) {
            Some(table) => table.mark,
            None => Mark { boot: 0, count: 0 },
        }
    }

    fn shows(&self, index: u32) -> Option<usize> {
        match self.disks.get(index as usize) {
            Some(disk) => disk.shows,
            None => None,
        }
    }

    fn set_disk(&mut self, index: u32, claim: u64, shows: Option<usize>) {
        let anew = self.dropped_by(index);
        if let Some(disk) = self.disks.get_mut(index as usize) {
            let anew = disk.anew.max(anew);
            *disk = Disk { claim, shows, anew };
        }
    }

    fn is_listed(&self, number: usize, index: u32) -> bool {
        match self.tables.get(number) {
            Some(table) => has(table.lists.second.unwrap_or(table.lists.first), index),
            None => false,
        }
    }

    // The first firm table that no longer lists the place; 0 where none ever did.
    fn dropped_by(&self, index: u32) -> usize {
        let mut first = 0;
        for number in self.firm.iter().rev() {
            if self.is_listed(*number, index) {
                return first;
            }
            first = *number;
        }
        0
    }

    // What a boot finds.

    // Of the tables that the places show which were read, that with the greatest mark.
    fn newest(&self) -> Option<usize> {
        let mut best = None;
        for index in 0..32 {
            let shows = self.shows(index);
            if has(self.read & PLACES, index) && self.mark_of(best).is_below(self.mark_of(shows)) {
                best = shows;
            }
        }
        best
    }

    // The greatest boot number or claim among what was read.
    fn greatest_number(&self) -> u64 {
        let mut greatest = 0;
        for (disk, index) in self.disks.iter().zip(0..32) {
            if has(self.read, index) {
                greatest = disk.claim.max(self.mark_of(disk.shows).boot).max(greatest);
            }
        }
        greatest
    }

    fn knows_greater(&self, seats: Spots, mark: Mark) -> bool {
        (0..32).any(|index| has(seats, index) && mark.is_below(self.mark_of(self.shows(index))))
    }

    // Whether what was read suffices for this table.
    fn is_read(&self, table: &Version) -> bool {
        let seats = table.lists.mediators;
        let agree = !self.knows_greater(self.read & seats, table.mark);
        let half = agree && is_majority(self.read, seats);
        suffices(self.read, table.lists, half)
    }

    // Whether one of the places that were read and that this table names shows nothing, and a table
    // behind this one had dropped it when it was formatted again.
    fn has_stale_vote(&self, number: usize, table: &Version) -> bool {
        let votes = self.read & PLACES & named(table.lists);
        for (disk, index) in self.disks.iter().zip(0..32) {
            if has(votes, index) && disk.shows.is_none() && number < disk.anew {
                return true;
            }
        }
        false
    }

    // Whether a boot read enough places for its newest table, but a stale vote is among them.
    pub(crate) fn meets_stale_vote(&self) -> bool {
        let Some(number) = self.newest() else {
            return false;
        };
        match self.tables.get(number) {
            Some(table) => self.is_read(table) && self.has_stale_vote(number, table),
            None => false,
        }
    }

    // Whether the boot finds a replica there; a mediator it asks.
    pub(crate) fn may_read(&self, index: u32) -> bool {
        has((self.formatted | !PLACES) & !self.lost, index)
    }

    pub(crate) fn is_reading(&self) -> bool {
        self.stage == Stage::Reading
    }

    // Whether a boot that has read so much may claim this place.
    pub(crate) fn may_claim(&self, index: u32) -> bool {
        let Some(number) = self.newest() else {
            return false;
        };
        match self.tables.get(number) {
            Some(table) => {
                self.is_read(table)
                    && !self.has_stale_vote(number, table)
                    && has(self.formatted & named(table.lists), index)
            }
            None => false,
        }
    }

    // Whether the last table was written at so many places that it may be told.
    pub(crate) fn may_tell(&self) -> bool {
        let Some(table) = self.tables.last() else {
            return false;
        };
        self.stage == Stage::Writing && self.is_written(table)
    }

    // Whether what took this table suffices.
    fn is_written(&self, table: &Version) -> bool {
        let seats = table.lists.mediators;
        let agree = seats == 0 || is_majority(self.took, seats);
        let half = agree && !table.by_majority;
        suffices(self.took, table.lists, half)
    }

    pub(crate) fn is_claiming(&self) -> bool {
        self.stage == Stage::Claiming
    }

    // Whether a boot that has claimed so much may write this place.
    pub(crate) fn may_write(&self, index: u32) -> bool {
        let Some(table) = &self.next else {
            return false;
        };
        let seats = table.lists.mediators;
        let half = if seats == 0 {
            !self.set
        } else {
            is_majority(self.claimed, seats)
        };
        suffices(self.claimed, table.lists, half) && has(self.formatted & named(table.lists), index)
    }

    pub(crate) fn adopted_mark(&self) -> Option<Mark> {
        self.adopted.map(|number| self.mark_of(Some(number)))
    }

    // What a boot chose has each change that was told, and no other order of those issued.
    pub(crate) fn keeps_what_was_told(&self) -> bool {
        match self.chosen.and_then(|number| self.tables.get(number)) {
            Some(table) => {
                self.told.iter().all(|change| table.plan.contains(change))
                    && self.issued.starts_with(table.plan.as_slice())
            }
            None => true,
        }
    }

    // How many boots were completed.
    pub(crate) fn boots(&self) -> u32 {
        self.boots
    }

    pub(crate) fn lists(&self) -> Option<Lists> {
        self.tables.last().map(|table| table.lists)
    }
}
