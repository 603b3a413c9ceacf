//! Where the slices of a table of drives lie, by their numbers.
ghost use Rattle.std.specs.Prelude.{◌≡◌, ◌≤◌, ◌+◌, ◌^◌, IfOk, IfSome, OnOk};
ghost use Rattle.mdv_fitting.specs.Below.{IsSound, IsSoundSlice, share_a_block as spec_share_a_block, slice_at, slice_code};
ghost use Rattle.mdv_fitting.specs.Held.{HasValue};
ghost use Rattle.mdv_fitting.specs.Slices.{AreSlices, AreAt};

use crate::held::Held;
use mdv_base::SliceName;
use mdv_name::{Geometry, SliceAt, SliceLine};
use mdv_shape::slice_key;
use std::alloc::{AllocError, Global};

/// Where each slice lies, by its number.
pub(crate) type Slices = Held<SliceAt>;

fn add_line(slices: &mut Slices, line: &SliceLine) -> Result<(), AllocError>
    ensures { OnOk result (HasValue slices.old (slice_code line.now.name) line.now.at slices.new) }
{
    slices.add(u64::from(slice_key(line.name)), line.at)
}

fn slices_from(alloc: Global, lines: &[SliceLine]) -> Result<Slices, AllocError>
    ensures { IfOk result (AreAt lines.now) }
{
    let mut slices = Held::new(alloc)?;
    for line in lines {
        add_line(&mut slices, line)?;
    }
    Ok(slices)
}

/// The slices of the table of drives.
pub(crate) fn slices_of(alloc: Global, geometry: &Geometry) -> Result<Slices, AllocError>
    ensures { IfOk result (AreSlices geometry.now) }
{
    slices_from(alloc, geometry.slices.as_slice())
}

/// Where the slice lies.
pub(crate) fn slice_in(_geometry: &Geometry, slices: &Slices, name: SliceName) -> Option<SliceAt>
    requires sound { IsSound _geometry.now }
    requires slices { AreSlices _geometry.now slices.now }
    ensures value { result ≡ slice_at _geometry.now.slices name }
    ensures sound { IfSome result (IsSoundSlice name) }
{
    slices.get(u64::from(slice_key(name)))
}

/// Whether they share a block.
pub(crate) fn share_a_block(a: SliceAt, b: SliceAt) -> bool
    requires first { a.start + a.blocks ≤ 2 ^ 40 }
    requires second { b.start + b.blocks ≤ 2 ^ 40 }
    ensures { result ≡ spec_share_a_block a b }
{
    a.drive.0 == b.drive.0 && a.start < b.start + b.blocks && b.start < a.start + a.blocks
}
