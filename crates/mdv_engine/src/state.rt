ghost use Rattle.std.specs.Prelude.{◌≡◌};
ghost use Rattle.mdv_engine_law.specs.Line.{booted_with, unbooted};

use mdv_base::DriveSet;
use mdv_store::Store;
use mdv_tab::Entry;
use std::alloc::Global;
use std::marker::Model;

/// What an engine keeps from line to line.
#[derive(Drop)]
pub struct State {
    /// The database that was adopted, or was made.
    pub database: Option<Store>,
    /// The drives that the last boot brought up.
    pub up: DriveSet,
    /// Drives on which a write of blocks failed since.
    pub unsteady: DriveSet,
    /// No call failed in the last boot, nor in the blanking of a last replica since.
    pub clean: bool,
    /// How many creations the run has begun.
    pub begun: u32,
    /// The entries of the last `tab` block that was kept since that boot.
    pub entries: Vec<Entry>,
}

impl Model for State {
    ghost use Rattle.mdv_engine_law.specs.Line.{Memory};

    ghost Value = { Memory };

    ghost view = { λ s. record { opened = s.database; up = s.up; unsteady = s.unsteady; clean = s.clean; begun = s.begun; entries = s.entries.items } };
}

impl State {
    /// What a boot leaves that was answered, with the database that it adopted, if there was one.
    pub(crate) fn booted(
        alloc: Global,
        database: Option<Store>,
        up: DriveSet,
        clean: bool,
        begun: u32,
    ) -> State
        ensures { result ≡ booted_with database up clean begun }
    {
        State {
            database,
            up,
            unsteady: DriveSet::new(),
            clean,
            begun,
            entries: Vec::new(alloc),
        }
    }

    /// What is kept before a boot, or behind one that isn't answered.
    pub(crate) fn unbooted(alloc: Global, begun: u32) -> State
        ensures { result ≡ unbooted begun }
    {
        State::booted(alloc, None, DriveSet::new(), false, begun)
    }
}
