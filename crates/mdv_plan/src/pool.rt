use crate::listed::{Copied, Listed};
use crate::sorted::Keyed;
use mdv_base::{PoolId, SliceName};
use std::alloc::{AllocError, Global};

/// The numbers of pools are below this one, so a database has at most so many.
pub const MAX_POOLS: usize = 1000;

/// The most spares of a pool.
pub const MAX_SPARES: usize = 100;

/// A slice that stands ready for a component that fails. Its state is in the status, since it is one
/// and the same in all pools that have it.
#[derive(Clone, Copy, Debug, PartialEq, Eq)]
pub struct Spare {
    pub slice: SliceName,
    /// The first block of the slice that a component gets.
    pub start: u64,
    pub blocks: u64,
}

/// A pool of hot spares, which are taken in this order.
#[derive(Drop)]
pub struct Pool {
    pub number: PoolId,
    pub spares: Listed<Spare, MAX_SPARES>,
}

impl Keyed for Pool {
    ghost key = { λ p. p.number.0 };

    fn key(&self) -> u32 {
        u32::from(self.number.0)
    }
}

impl Copied for Pool {
    fn copied(&self, alloc: Global) -> Result<Pool, AllocError> {
        Ok(Pool {
            number: self.number,
            spares: self.spares.copy(alloc)?,
        })
    }
}
