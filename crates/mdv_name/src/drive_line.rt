use crate::file_name::FileName;
use mdv_base::{DriveName, Name};

/// What a line of the table of drives says of whose the drive is.
#[derive(Clone, Copy, Debug, PartialEq, Eq)]
pub enum DriveKind {
    /// A drive of one host.
    Own { drive: DriveName, host: Name },
    /// A drive that all hosts reach.
    Shared { drive: DriveName },
    /// The store of a mediator host.
    Mediator { host: Name },
}

impl DriveKind {
    ghost use Rattle.std.specs.Prelude.{◌≡◌};
    ghost use Rattle.mdv_name.specs.DriveIndex.{drive_of, mediator_of};

    /// The name of a host's or a shared drive.
    pub fn drive(self) -> Option<DriveName>
        ensures { result ≡ drive_of self }
    {
        match self {
            DriveKind::Own { drive, host: _ } => Some(drive),
            DriveKind::Shared { drive } => Some(drive),
            DriveKind::Mediator { host: _ } => None,
        }
    }

    /// The host whose mediator's store it is.
    pub fn mediator(self) -> Option<Name>
        ensures { result ≡ mediator_of self }
    {
        match self {
            DriveKind::Mediator { host } => Some(host),
            _ => None,
        }
    }
}

/// A drive, or a mediator's store, with its image.
#[derive(Drop)]
pub struct DriveLine {
    pub kind: DriveKind,
    pub blocks: u64,
    pub file: FileName,
}
