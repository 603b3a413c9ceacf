ghost use Rattle.std.specs.Prelude.{◌≡◌, ◌≢◌, ◌<◌, true, false};
ghost use Rattle.mdv_base.specs.declared.drive.DriveNo.{DriveNo};
ghost use Rattle.mdv_base.specs.DriveSet.{has_drive, no_drives};

use crate::DriveNo;
use std::marker::Model;

/// The most drives that a table of drives has, mediators included.
pub const MAX_DRIVES: usize = 256;

/// Some of the drives of a table: those that a boot brought up, say.
#[derive(Drop)]
pub struct DriveSet {
    members: [bool; 256],
}

impl Model for DriveSet {
    ghost use Rattle.std.specs.Prelude.{Bool, List};

    ghost Value = { List Bool };

    ghost view = { λ s. s.members };
}

impl DriveSet {
    /// No drive.
    pub fn new() -> Self
        ensures is { result ≡ no_drives }
        ensures none { (drive : DriveNo) → has_drive result drive ≡ false }
    {
        DriveSet {
            members: [false; 256],
        }
    }

    /// Whether the drive is one of them. One from `MAX_DRIVES` on never is.
    pub fn contains(&self, drive: DriveNo) -> bool
        ensures { result ≡ has_drive self.now drive }
    {
        match self.members.get(drive.0 as usize) {
            Some(member) => *member,
            None => false,
        }
    }

    /// Adds the drive.
    pub fn insert(&mut self, drive: DriveNo)
        requires { drive.0 < 256 }
        ensures added { has_drive self.new drive ≡ true }
        ensures others { (other : DriveNo) → other ≢ drive → has_drive self.new other ≡ has_drive self.old other }
    {
        self.members[drive.0 as usize] = true;
    }
}
