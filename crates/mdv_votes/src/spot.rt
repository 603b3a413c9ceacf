use crate::Row;
use mdv_base::DriveNo;

/// Where a replica lies, by its drive and first block, or a mediator's seat, by its drive and block.
#[derive(Clone, Copy)]
pub struct Spot {
    pub drive: DriveNo,
    pub first: u64,
    pub mediator: bool,
}

/// A list of spots.
pub type SpotList = Row<Spot>;

/// The places and mediators that a table names: one list of places, or two while places change, the
/// old list first.
#[derive(Drop)]
pub struct SpotLists {
    pub first: SpotList,
    pub second: Option<SpotList>,
    pub mediators: SpotList,
}
