// What a survey has: the replicas that were found, and the newest of their tables.
ghost use Rattle.std.specs.Prelude.{◌≡◌, ◌++◌, ◌+◌, ◌*◌, ◌≤◌, ◌<◌, ◌^◌, [], ◌∷◌, None, OnOk, OnErr};
ghost use Rattle.mdv_survey.specs.Newest.{IsMarked, IsNewerThan, IsShown, TableGoesOn};
ghost use Rattle.mdv_survey.specs.Replica.{at_of, other_of};

use mdv_base::{DriveSet, Flags, Mark, Place};
use mdv_name::SliceLine;
use mdv_plan::Table;
use mdv_replica::{Head, Master, PlaceAt, Slot};
use mdv_votes::Row;
use std::alloc::{AllocError, Global};

/// A readable replica that was found: the line of its slice, its number there, the slice's first master, which
/// tells the length of each replica and how many there are, and its own head.
#[derive(Clone, Copy)]
pub struct Replica {
    pub line: SliceLine,
    pub number: u8,
    pub first: Master,
    pub head: Head,
}

/// A place that was looked at and has no readable replica of the site's key: the line of its slice, its number there, the block of the slice
/// where it begins, and what was seen: `located`, `form_fault`, `master_fault` and `body_fault`. A readable replica of another key is
/// `located` alone.
#[derive(Clone, Copy)]
pub struct Other {
    pub line: SliceLine,
    pub number: u8,
    pub start: u32,
    pub flags: Flags,
}

/// The newest table that the replicas show: which of them shows it, by its place in their list, in which slot,
/// and under which mark.
#[derive(Drop)]
pub struct Newest {
    pub replica: usize,
    pub slot: Slot,
    pub mark: Mark,
    pub table: Table,
}

/// What a look at all slices of a site found.
#[derive(Drop)]
pub struct Survey {
    /// The replicas of the site's key, in the order of its slices, those of a slice by their numbers.
    pub replicas: Row<Replica>,
    /// The newest of all tables that they show, whichever identities they have.
    pub newest: Option<Newest>,
    /// The places that were looked at and have no readable replica of the key: where the look at a slice ended, and those with one of another key.
    pub others: Row<Other>,
    /// The drives on which a call failed.
    pub failed: DriveSet,
}

/// What a readable replica shows: its newest table, and the slot that has it.
#[derive(Drop)]
pub(crate) struct Shown {
    pub(crate) slot: Slot,
    pub(crate) mark: Mark,
    pub(crate) table: Table,
}

/// What was found so far.
#[derive(Drop)]
pub(crate) struct Finds {
    pub(crate) replicas: Row<Replica>,
    pub(crate) newest: Option<Newest>,
    pub(crate) others: Row<Other>,
}

impl Replica {
    /// Where it lies.
    pub fn at(&self) -> PlaceAt
        requires start { 16 + self.now.number * self.now.first.blocks < 2 ^ 32 }
        requires first { self.now.line.at.start + (16 + self.now.number * self.now.first.blocks) < 2 ^ 64 }
        ensures { result ≡ at_of self.now }
    {
        let blocks = self.first.blocks;
        let start = 16 + u32::from(self.number) * blocks;
        PlaceAt {
            place: Place {
                slice: self.line.name,
                start,
                blocks,
            },
            drive: self.line.at.drive,
            first: self.line.at.start + u64::from(start),
            index: self.number,
            count: self.first.count,
        }
    }

    /// Its place as one that has no replica of the key, with what was seen there.
    pub(crate) fn as_other(&self, flags: Flags) -> Other
        requires { 16 + self.now.number * self.now.first.blocks < 2 ^ 32 }
        ensures { result ≡ other_of self.now flags }
    {
        Other {
            line: self.line,
            number: self.number,
            start: 16 + u32::from(self.number) * self.first.blocks,
            flags,
        }
    }
}

impl Finds {
    /// Nothing was looked at.
    pub(crate) fn new(alloc: Global) -> Finds
        ensures replicas { result.replicas ≡ [] }
        ensures newest { result.newest ≡ None }
        ensures others { result.others ≡ [] }
    {
        Finds {
            replicas: Row::new(alloc),
            newest: None,
            others: Row::new(alloc),
        }
    }

    /// Adds a replica, with what it shows.
    pub(crate) fn add(&mut self, replica: Replica, shown: Option<Shown>) -> Result<(), AllocError>
        requires { IsShown replica.head shown }
        ensures replicas { OnOk result (self.new.replicas ≡ self.old.replicas ++ replica ∷ []) }
        ensures marked { OnOk result (IsMarked self.old.replicas self.old.newest → IsMarked self.new.replicas self.new.newest) }
        ensures table { OnOk result (TableGoesOn replica shown self.old self.new) }
        ensures others { self.new.others ≡ self.old.others }
        ensures err { OnErr result (self.new ≡ self.old) }
    {
        let place = self.replicas.as_slice().len();
        self.replicas.push(replica)?;
        let Some(shown) = shown else {
            return Ok(());
        };
        if !is_newer(&self.newest, shown.mark) {
            return Ok(());
        }
        self.newest = Some(Newest {
            replica: place,
            slot: shown.slot,
            mark: shown.mark,
            table: shown.table,
        });
        Ok(())
    }

    /// Adds a place that has none.
    pub(crate) fn add_other(&mut self, other: Other) -> Result<(), AllocError>
        ensures ok { OnOk result (self.new ≡ record self.old { others = self.old.others ++ other ∷ [] }) }
        ensures err { OnErr result (self.new ≡ self.old) }
    {
        self.others.push(other)
    }
}

// Whether no table so far has this mark or a greater one.
fn is_newer(newest: &Option<Newest>, mark: Mark) -> bool
    ensures { IsNewerThan newest.now mark result }
{
    match newest {
        Some(newest) => newest.mark.is_below(mark),
        None => true,
    }
}
