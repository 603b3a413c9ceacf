use mdv_base::{DriveNo, Mark};
use mdv_votes::{Row, Spot, SpotState, Version, mark_at};
use std::alloc::Global;

/// How far the boot or the change in work has come.
#[derive(Drop)]
pub(crate) enum Stage {
    /// A boot reads; or nothing happened yet.
    Reading {
        read: Row<Spot>,
    },
    /// A creation is in hand of which nothing was written.
    Creating {
        next: Version,
    },
    /// A boot has drawn its number.
    Claiming {
        adopted: usize,
        next: Version,
        claimed: Row<Spot>,
    },
    /// The last table of the family is in hand and was written somewhere.
    Writing {
        /// The table that the boot in work adopted; None for a change or a creation.
        boot: Option<usize>,
        took: Row<Spot>,
    },
    /// The last table of the family is told.
    Ready {
        next: Option<Version>,
    },
}

/// What is known of the replicas and mediators of one database.
#[derive(Drop)]
pub struct Core {
    pub(crate) set: bool,
    pub(crate) places: Row<SpotState>,
    pub(crate) lost: Row<DriveNo>,
    pub(crate) family: Row<Version>,
    pub(crate) firm: Option<usize>,
    /// The place whose blanking ended the database.
    pub(crate) deleted: Option<Spot>,
    pub(crate) stage: Stage,
    pub(crate) adopted: Option<usize>,
    pub(crate) changes: u64,
    pub(crate) log: Row<u64>,
    pub(crate) told: Row<u64>,
}

impl Core {
    ghost use Rattle.std.specs.Prelude.{◌≡◌};
    ghost use Rattle.mdv_quorum.specs.World.{start, adopted_mark};

    pub fn new(alloc: Global, set: bool) -> Core
        ensures { result ≡ start set }
    {
        Core {
            set,
            places: Row::new(alloc),
            lost: Row::new(alloc),
            family: Row::new(alloc),
            firm: None,
            deleted: None,
            stage: Stage::Reading {
                read: Row::new(alloc),
            },
            adopted: None,
            changes: 0,
            log: Row::new(alloc),
            told: Row::new(alloc),
        }
    }

    /// The mark under which the last completed boot read the table that it adopted; None where no
    /// boot was completed since the last crash.
    pub fn adopted(&self) -> Option<Mark>
        ensures { result ≡ adopted_mark self.now }
    {
        match self.adopted {
            Some(number) => Some(mark_at(self.family.as_slice(), number)),
            None => None,
        }
    }
}
