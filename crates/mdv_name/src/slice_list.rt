ghost use Rattle.std.specs.Prelude.{◌≡◌, [], ◌∷◌, ◌++◌, IfOk, IfSome, IfNone, OnOk, OnErr};
ghost use Rattle.mdv_name.specs.Drive.{IsSliceName};
ghost use Rattle.mdv_name.specs.SliceIndex.{HasSlice, HasNoSlice, is_among as spec_is_among, slices_on};

use crate::code::slice_code;
use crate::slice_lines::{SliceAt, SliceLine};
use mdv_base::{DriveNo, SliceName};
use std::alloc::{AllocError, Global};
use std::collections::BTreeMap;
use std::marker::Model;

/// The slices in the order of their lines. An ordered map beside the list finds a slice by its name
/// in logarithmic time.
#[derive(Drop)]
pub struct SliceList {
    lines: Vec<SliceLine>,
    places: BTreeMap<u32, usize>,
}

impl Model for SliceList {
    ghost use Rattle.std.specs.Prelude.{List};
    ghost use Rattle.mdv_name.specs.declared.slice_lines.SliceLine.{SliceLine};
    ghost use Rattle.mdv_name.specs.SliceIndex.{IsSliceIndex};

    ghost Value = { List SliceLine };

    ghost view = { λ l. l.lines.items };

    ghost invariant = { λ l. IsSliceIndex l.places l.lines.items };
}

impl SliceList {
    pub fn new(alloc: Global) -> Self
        ensures { result ≡ [] }
    {
        SliceList {
            lines: Vec::new(alloc),
            places: BTreeMap::new(alloc),
        }
    }

    pub fn as_slice(&self) -> &[SliceLine]
        ensures { result.now ≡ self.now }
    {
        self.lines.as_slice()
    }

    pub fn find(&self, name: SliceName) -> Option<SliceAt>
        ensures value { IfSome result (HasSlice self.now name) }
        ensures none { IfNone result (HasNoSlice self.now name) }
    {
        let place = *self.places.get(&slice_code(name))?;
        Some(self.lines[place].at)
    }

    pub fn push(&mut self, line: SliceLine) -> Result<(), AllocError>
        requires form { IsSliceName line.name }
        requires fresh { HasNoSlice self.old line.name }
        ensures ok { OnOk result (self.new ≡ self.old ++ line ∷ []) }
        ensures err { OnErr result (self.new ≡ self.old) }
    {
        self.lines.reserve(1)?;
        self.places.insert(slice_code(line.name), self.lines.len())?;
        self.lines.push(line)?;
        Ok(())
    }

    /// A list of those that lie on these drives, in their order.
    pub fn on_drives(&self, alloc: Global, drives: &[DriveNo]) -> Result<SliceList, AllocError>
        ensures { IfOk result (λ list. list ≡ slices_on drives.now self.now) }
    {
        let mut found = SliceList::new(alloc);
        for place in 0..self.lines.len() {
            if is_among(drives, self.lines[place].at.drive) {
                found.push(self.lines[place])?;
            }
        }
        Ok(found)
    }
}

fn is_among(drives: &[DriveNo], drive: DriveNo) -> bool
    ensures { result ≡ spec_is_among drives.now drive }
{
    drives.iter().any(|one| one.0 == drive.0)
}
