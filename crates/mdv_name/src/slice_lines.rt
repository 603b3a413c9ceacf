use mdv_base::{DriveNo, SliceName};

/// Where a slice lies on its drive, in blocks, and whether it is set aside for replicas.
#[derive(Clone, Copy, Debug, PartialEq, Eq)]
pub struct SliceAt {
    pub drive: DriveNo,
    pub start: u64,
    pub blocks: u64,
    pub db: bool,
}

/// A slice of the table of drives.
#[derive(Clone, Copy, Debug, PartialEq, Eq)]
pub struct SliceLine {
    pub name: SliceName,
    pub at: SliceAt,
}
