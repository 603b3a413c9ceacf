use mdv_base::PoolId;
use mdv_plan::{Base, Listed};

/// The most names that a change has: as many as a text of md.tab has bytes.
pub const MAX_NAMES: usize = 65536;

/// A stripe that is asked for. Its width is the number of its components.
#[derive(Drop)]
pub struct RowAsked {
    pub components: Listed<Base, MAX_NAMES>,
    /// In blocks; 32 where none is asked for.
    pub interlace: Option<u64>,
}

/// A RAID-5 volume that is asked for.
#[derive(Drop)]
pub struct RaidAsked {
    pub columns: Listed<Base, MAX_NAMES>,
    /// In blocks; 32 where none is asked for.
    pub interlace: Option<u64>,
    pub spares: Option<PoolId>,
    /// `-k`: the data that the columns have stay.
    pub keep: bool,
}
