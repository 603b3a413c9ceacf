ghost use Rattle.std.specs.Prelude.{◌≡◌, ◌↔◌, IfOk, IsTrue};
ghost use Rattle.mdv_home.specs.Drives.{own_drives, sizes_of, is_own as spec_is_own};
ghost use Rattle.mdv_home.specs.View.{view_on};

use arrayvec::ArrayVec;
use mdv_base::DriveNo;
use mdv_name::{DriveKind, Geometry};
use mdv_shelf::Shelf;
use std::alloc::{AllocError, Global};
use std::marker::Model;

/// The drives that are a host's own, in the order of their lines.
#[derive(Drop)]
pub struct OwnDrives {
    numbers: ArrayVec<DriveNo, 256>,
}

impl Model for OwnDrives {
    ghost use Rattle.std.specs.Prelude.{List};
    ghost use Rattle.mdv_base.specs.declared.drive.DriveNo.{DriveNo};

    ghost Value = { List DriveNo };

    ghost view = { λ o. o.numbers.items };
}

impl OwnDrives {
    /// Those of this host.
    pub fn of(table: &Geometry, host: &[u8]) -> Self
        ensures { result ≡ own_drives table.now host.now }
    {
        let lines = table.drives.as_slice();
        let mut numbers = ArrayVec::new();
        for number in 0..lines.len() {
            if is_own(lines[number].kind, host) {
                numbers.push(DriveNo(number as u32));
            }
        }
        OwnDrives { numbers }
    }

    pub fn as_slice(&self) -> &[DriveNo]
        ensures { result.now ≡ self.now }
    {
        self.numbers.as_slice()
    }

    /// What the host sees of the table: of its slices those on these drives.
    pub fn view_of(&self, alloc: Global, table: Geometry) -> Result<Geometry, AllocError>
        ensures { IfOk result (λ view. view ≡ view_on self.now table) }
    {
        let slices = table.slices.on_drives(alloc, self.as_slice())?;
        Ok(Geometry {
            hosts: table.hosts,
            drives: table.drives,
            slices,
        })
    }
}

/// Whether the drive is that host's own.
pub fn is_own(kind: DriveKind, host: &[u8]) -> bool
    ensures { result ≡ spec_is_own host.now kind }
{
    match kind {
        DriveKind::Own {
            drive: _,
            host: owner,
        } => owner.as_bytes() == host,
        DriveKind::Shared { .. } | DriveKind::Mediator { .. } => false,
    }
}

/// Whether the shelf has just the drives of the table, each with as many blocks as its line says.
pub fn has_drives<S: Shelf>(shelf: &S, table: &Geometry) -> bool
    ensures { IsTrue result ↔ (S.sizes shelf.now ≡ sizes_of table.now) }
{
    let lines = table.drives.as_slice();
    if shelf.drives() as usize != lines.len() {
        return false;
    }
    for number in 0..lines.len() {
        if shelf.blocks(DriveNo(number as u32)) != lines[number].blocks {
            return false;
        }
    }
    true
}
