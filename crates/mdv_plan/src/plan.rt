use crate::listed::{Copied, Listed};
use crate::lists::Lists;
use crate::pool::{MAX_POOLS, Pool};
use crate::set::{MAX_PENDING, Pending, SetData};
use crate::sorted::Sorted;
use crate::volume::{MAX_VOLUMES, Volume};
use std::alloc::{AllocError, Global};

/// What commands change of a table.
#[derive(Drop)]
pub struct Plan {
    /// Where the replicas lie.
    pub lists: Lists,
    /// What a set's table says of the set.
    pub set: SetData,
    /// The sets without drives, ascending by name; of a local table alone.
    pub pending: Listed<Pending, MAX_PENDING>,
    pub pools: Sorted<Pool, MAX_POOLS>,
    pub volumes: Sorted<Volume, MAX_VOLUMES>,
}

impl Copied for Plan {
    fn copied(&self, alloc: Global) -> Result<Plan, AllocError> {
        Ok(Plan {
            lists: self.lists.copy(),
            set: self.set.copied(alloc)?,
            pending: self.pending.copied(alloc)?,
            pools: self.pools.copied(alloc)?,
            volumes: self.volumes.copied(alloc)?,
        })
    }
}
