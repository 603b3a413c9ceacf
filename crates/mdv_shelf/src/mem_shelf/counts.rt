// The counts as a call was made: of failures, of calls and of blocks written.
ghost use Rattle.std.specs.Prelude.{◌≡◌, ◌<◌, IfOk, OnOk, vec_len, vec_capacity};
ghost use Rattle.mdv_shelf.specs.MemShelf.{counts_of, tally_in};

use crate::mem_shelf::Health;
use std::alloc::{AllocError, Global};

/// What is counted beside each drive's failures.
#[derive(Clone, Copy)]
pub struct Totals {
    pub reply_faults: u64,
    pub calls: u64,
    /// In blocks.
    pub written: u64,
}

/// How often each drive had failed, and the totals.
#[derive(Drop)]
pub struct Counts {
    drives: Vec<Health>,
    totals: Totals,
}

impl Counts {
    /// The counts as they are, with room for them behind the earlier ones.
    pub fn with_room(
        alloc: Global,
        drives: &[Health],
        totals: Totals,
        earlier: &mut Vec<Counts>,
    ) -> Result<Counts, AllocError>
        ensures counts { IfOk result (λ counts. counts_of counts ≡ tally_in drives.now totals) }
        ensures room { OnOk result (vec_len earlier.new < vec_capacity earlier.new) }
        ensures same { earlier.new.items ≡ earlier.old.items }
    {
        let drives = Vec::from_slice(alloc, drives)?;
        earlier.reserve(1)?;
        Ok(Counts { drives, totals })
    }
}
