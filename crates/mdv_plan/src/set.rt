use crate::listed::{Copied, Listed};
use mdv_base::{DriveName, Name};
use std::alloc::{AllocError, Global};

/// The most sets that a local database has pending.
pub const MAX_PENDING: usize = 31;

/// The most hosts of a set.
pub const MAX_HOSTS: usize = 8;

/// The most drives of a set.
pub const MAX_SET_DRIVES: usize = 48;

/// The most mediators of a set.
pub const MAX_MEDIATORS: usize = 3;

/// A host whose mediator votes for a set, and the block of its store that is the set's.
#[derive(Clone, Copy, Debug, PartialEq, Eq)]
pub struct Mediator {
    pub host: Name,
    pub block: u32,
}

/// What a set's table says of the set. In a local table the lists are empty and nobody owns it.
#[derive(Drop)]
pub struct SetData {
    /// The host that has taken the set.
    pub owner: Option<Name>,
    /// In the order in which they were added.
    pub hosts: Listed<Name, MAX_HOSTS>,
    /// Ascending by controller, target and disk.
    pub drives: Listed<DriveName, MAX_SET_DRIVES>,
    /// In the order in which they were added.
    pub mediators: Listed<Mediator, MAX_MEDIATORS>,
}

/// A set without drives, which has no table of its own yet.
#[derive(Drop)]
pub struct Pending {
    pub set: Name,
    /// In the order in which they were added.
    pub hosts: Listed<Name, MAX_HOSTS>,
}

impl Copied for SetData {
    fn copied(&self, alloc: Global) -> Result<SetData, AllocError> {
        Ok(SetData {
            owner: self.owner,
            hosts: self.hosts.copy(alloc)?,
            drives: self.drives.copy(alloc)?,
            mediators: self.mediators.copy(alloc)?,
        })
    }
}

impl Copied for Pending {
    fn copied(&self, alloc: Global) -> Result<Pending, AllocError> {
        Ok(Pending {
            set: self.set,
            hosts: self.hosts.copy(alloc)?,
        })
    }
}
