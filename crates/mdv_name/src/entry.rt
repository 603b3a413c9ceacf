use crate::drive_line::DriveLine;
use mdv_base::{Name, SliceName};

/// What a line of the table of drives says.
#[derive(Drop)]
pub enum Entry {
    Host(Name),
    /// A drive or a mediator's store.
    Drive(DriveLine),
    Slice(SliceEntry),
}

/// A line of a slice, in blocks.
#[derive(Clone, Copy, Debug, PartialEq, Eq)]
pub struct SliceEntry {
    pub name: SliceName,
    pub start: u64,
    pub blocks: u64,
    pub db: bool,
}
