/// A drive of a shelf, numbered from 0 in the order of the table of drives.
#[derive(Clone, Copy, Debug, PartialEq, Eq, Default)]
pub struct DriveNo(pub u32);

/// A call on a drive, or a giving of reply bytes, that failed. It says nothing of the cause: the
/// object that answered it counts its faults.
#[derive(Clone, Copy, Debug, PartialEq, Eq)]
pub struct Failed;

/// A drive by its controller, target and disk, printed as `cXtYdZ`.
#[derive(Clone, Copy, Debug, PartialEq, Eq)]
pub struct DriveName {
    pub controller: u8,
    pub target: u8,
    pub disk: u8,
}

/// A slice of a drive, printed as `cXtYdZsN`. Drives have the slices 0 to 7.
#[derive(Clone, Copy, Debug, PartialEq, Eq)]
pub struct SliceName {
    pub drive: DriveName,
    pub slice: u8,
}
