ghost use Rattle.std.specs.Prelude.{◌≡◌, ◌↔◌};
ghost use Rattle.std.specs.IoError.{error_kind};
ghost use Rattle.mdv_files.specs.Reason.{drive_name, call_text, reason_text, lost_text, IsOpeningReason};

use mdv_name::DriveKind;
use std::fmt;
use std::io::{self, ErrorKind};

/// Why a drive is lost from the start of a run.
#[derive(Drop)]
pub enum Reason {
    Missing,
    NoPermission,
    /// Its file system is read-only.
    ReadOnly,
    /// It is neither a regular file nor a block device.
    NotADisk,
    /// Its length isn't that of the table of drives, both in bytes.
    OtherLength { bytes: u64, wanted: u64 },
    /// It is the file of a drive before it in the table.
    SameFile(DriveKind),
    /// Another run has it open.
    InUse,
    /// `drives.failed` names it.
    FailedBefore,
    /// Its canonical path has a newline, so that `drives.failed` couldn't name it.
    BadPath,
    /// The system failed to open it, to look at it, to lock it or to sync it, or to tell what is remembered.
    System { call: Call, error: io::Error },
}

/// What the system failed to do for a drive.
#[derive(Clone, Copy, Debug, PartialEq, Eq)]
pub enum Call {
    Open,
    Look,
    Remember,
    Lock,
    Sync,
}

impl Reason {
    /// Why a file that couldn't be opened isn't a drive.
    pub fn of_opening(error: io::Error) -> Reason
        ensures missing { (result ≡ Reason.Missing) ↔ (error_kind error ≡ ErrorKind.NotFound) }
        ensures permission { (result ≡ Reason.NoPermission) ↔ (error_kind error ≡ ErrorKind.PermissionDenied) }
        ensures read_only { (result ≡ Reason.ReadOnly) ↔ (error_kind error ≡ ErrorKind.ReadOnlyFilesystem) }
        ensures other { IsOpeningReason result }
    {
        match error.kind() {
            ErrorKind::NotFound => Reason::Missing,
            ErrorKind::PermissionDenied => Reason::NoPermission,
            ErrorKind::ReadOnlyFilesystem => Reason::ReadOnly,
            _ => Reason::System {
                call: Call::Open,
                error,
            },
        }
    }
}

/// The name of a drive of the table.
#[derive(Clone, Copy)]
pub struct Label(pub DriveKind);

impl fmt::Display for Label {
    ghost output = { λ l. Some (drive_name l.0) };

    ghost use Rattle.std.specs.Prelude.{Some};

    fn fmt<W: fmt::Write>(&self, f: &mut fmt::Formatter<W>) -> fmt::Result {
        match self.0 {
            DriveKind::Own { drive, host: _ } | DriveKind::Shared { drive } => write!(
                f,
                "c{}t{}d{}",
                drive.controller, drive.target, drive.disk
            ),
            DriveKind::Mediator { host } => write!(f, "mediator {}", host.as_str()),
        }
    }
}

impl fmt::Display for Call {
    ghost output = { λ call. Some (call_text call) };

    ghost use Rattle.std.specs.Prelude.{Some};

    fn fmt<W: fmt::Write>(&self, f: &mut fmt::Formatter<W>) -> fmt::Result {
        match self {
            Call::Open => write!(f, "can't be opened"),
            Call::Look => write!(f, "can't be looked at"),
            Call::Remember => write!(f, "drives.failed or the boot id can't be read"),
            Call::Lock => write!(f, "can't be locked"),
            Call::Sync => write!(f, "can't be synced"),
        }
    }
}

impl fmt::Display for Reason {
    ghost output = { reason_text };

    fn fmt<W: fmt::Write>(&self, f: &mut fmt::Formatter<W>) -> fmt::Result {
        match self {
            Reason::Missing => write!(f, "missing"),
            Reason::NoPermission => write!(f, "no permission"),
            Reason::ReadOnly => write!(f, "read-only"),
            Reason::NotADisk => write!(f, "not a file or device"),
            Reason::OtherLength { bytes, wanted } => {
                write!(f, "has {bytes} bytes and the table says {wanted}")
            }
            Reason::SameFile(drive) => write!(f, "the same file as drive {}", Label(*drive)),
            Reason::InUse => write!(f, "in use by another run"),
            Reason::FailedBefore => write!(
                f,
                "a write or sync on it failed since the system started; start the program through bin/metad"
            ),
            Reason::BadPath => write!(f, "its path has a newline"),
            Reason::System { call, error } => write!(f, "{call}: {error}"),
        }
    }
}

/// A lost drive as standard error tells it: its name, its file and why.
#[derive(Drop)]
pub struct LostDrive<'a> {
    pub kind: DriveKind,
    pub file: &'a str,
    pub reason: &'a Reason,
}

impl fmt::Display for LostDrive<'_> {
    ghost output = { λ l. lost_text l.kind l.file.now l.reason.now };

    fn fmt<W: fmt::Write>(&self, f: &mut fmt::Formatter<W>) -> fmt::Result {
        write!(f, "{} {}: {}", Label(self.kind), self.file, self.reason)
    }
}
