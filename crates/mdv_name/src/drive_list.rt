ghost use Rattle.std.specs.Prelude.{◌≡◌, ◌<◌, ◌≤◌, ◌↔◌, ℕ, [], ◌∷◌, ◌++◌, Contains, IsTrue, Some};
ghost use Rattle.std.specs.Prelude.{IfSome, IfNone, OnOk, OnErr, length};
ghost use Rattle.mdv_base.specs.declared.drive.DriveName.{DriveName};
ghost use Rattle.mdv_name.specs.DriveIndex.{IsNamed, IsOnlyDriveAt, HasNoDrive, drive_of};
ghost use Rattle.mdv_name.specs.DriveIndex.{mediator_hosts};

use crate::code::drive_code;
use crate::drive_line::DriveLine;
use crate::name_list::NameList;
use mdv_base::{DriveName, DriveNo, Name};
use std::alloc::{AllocError, Global};
use std::collections::BTreeMap;
use std::marker::Model;

/// The drives in the order of their lines, at most 256: their places are their numbers. An ordered
/// map beside the list finds a drive by its name in logarithmic time, and a list of names the hosts
/// of mediators.
#[derive(Drop)]
pub struct DriveList {
    lines: Vec<DriveLine>,
    places: BTreeMap<u32, usize>,
    mediators: NameList,
}

impl Model for DriveList {
    ghost use Rattle.std.specs.Prelude.{List};
    ghost use Rattle.mdv_name.specs.declared.drive_line.DriveLine.{DriveLine};
    ghost use Rattle.mdv_name.specs.DriveIndex.{IsDriveIndex};

    ghost Value = { List DriveLine };

    ghost view = { λ l. l.lines.items };

    ghost invariant = { λ l. IsDriveIndex l.places l.mediators l.lines.items };
}

impl DriveList {
    pub fn new(alloc: Global) -> Self
        ensures { result ≡ [] }
    {
        DriveList {
            lines: Vec::new(alloc),
            places: BTreeMap::new(alloc),
            mediators: NameList::new(alloc),
        }
    }

    pub fn as_slice(&self) -> &[DriveLine]
        ensures value { result.now ≡ self.now }
        ensures few { length self.now ≤ 256 }
    {
        self.lines.as_slice()
    }

    pub fn find(&self, name: DriveName) -> Option<DriveNo>
        ensures value { IfSome result (λ n. IsOnlyDriveAt self.now n.0 name) }
        ensures none { IfNone result (HasNoDrive self.now name) }
    {
        let place = *self.places.get(&drive_code(name))?;
        Some(DriveNo(place as u32))
    }

    /// Whether the host is a mediator's.
    pub fn has_mediator(&self, host: &Name) -> bool
        ensures { IsTrue result ↔ Contains (mediator_hosts self.now) host.now }
    {
        self.mediators.contains(host)
    }

    pub fn push(&mut self, line: DriveLine) -> Result<(), AllocError>
        requires room { length self.old < 256 }
        requires form { IsNamed line.kind }
        requires fresh { (d : DriveName) → drive_of line.kind ≡ Some d → HasNoDrive self.old d }
        ensures ok { OnOk result (self.new ≡ self.old ++ line ∷ []) }
        ensures err { OnErr result (self.new ≡ self.old) }
    {
        self.lines.reserve(1)?;
        match line.kind.drive() {
            Some(drive) => {
                self.places.insert(drive_code(drive), self.lines.len())?;
            }
            None => {
                if let Some(host) = line.kind.mediator() {
                    self.mediators.push(host)?;
                }
            }
        }
        self.lines.push(line)?;
        Ok(())
    }
}
