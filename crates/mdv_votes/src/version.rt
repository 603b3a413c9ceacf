use crate::{Row, Spot, SpotLists};
use mdv_base::Mark;

/// A table that was written, or is in hand.
#[derive(Drop)]
pub struct Version {
    pub mark: Mark,
    /// The place in the family of the table from which it was made.
    pub parent: Option<usize>,
    /// The change that it adds to the plan of that table; a boot adds none.
    pub change: Option<u64>,
    pub lists: SpotLists,
    /// Whether exactly half of a list never suffices to write it.
    pub by_majority: bool,
    /// The changes that lead to its plan, in order. Changes are numbered as they are issued.
    pub plan: Row<u64>,
}

/// Whether the firm table's last list names a place: never so far, now, or no longer since that
/// table of the family.
#[derive(Clone, Copy)]
pub enum Since {
    Never,
    Listed,
    Dropped(usize),
}

/// What is known of a place or seat.
#[derive(Clone, Copy)]
pub struct SpotState {
    pub spot: Spot,
    /// Whether it holds a replica, or the mediator's block.
    pub holds: bool,
    pub claim: u64,
    /// Its newest table, by its place in the family.
    pub newest: Option<usize>,
    pub since: Since,
    /// It was formatted again since this table of the family dropped it; 0 where it never was.
    pub floor: usize,
}
