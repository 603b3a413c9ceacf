use crate::drive_list::DriveList;
use crate::name_list::NameList;
use crate::slice_list::SliceList;
use thiserror::Error;

/// The table of drives: hosts, drives and slices in the order of their lines. A drive's place in
/// the list is its number.
#[derive(Drop)]
pub struct Geometry {
    pub hosts: NameList,
    pub drives: DriveList,
    pub slices: SliceList,
}

/// Why a table of drives isn't read.
#[derive(Debug, Drop, Error, PartialEq, Eq)]
pub enum GeometryFault {
    /// The number of the first line that is wrong, from 1.
    #[error("line {0} is wrong")]
    BadLine(u32),
    #[error("out of memory")]
    Memory,
}
