//! Which uses of slices may stand beside each other.
ghost use Rattle.std.specs.Prelude.{◌≡◌, ◌↔◌, ◌||◌, is_some, All, IsTrue, IfOk, IfSome};
ghost use Rattle.mdv_fitting.specs.Below.{IsSound, IsSoundSlice, beside as spec_beside, slice_at, slice_code};
ghost use Rattle.mdv_fitting.specs.Held.{held};
ghost use Rattle.mdv_fitting.specs.Beside.{IsPart, IsNamed, StandTogether};
ghost use Rattle.mdv_fitting.specs.Firsts.{can_share_slice as spec_can_share_slice, is_hindered_by as spec_is_hindered_by};
ghost use Rattle.mdv_fitting.specs.Slices.{AreSlices};
ghost use Rattle.mdv_fitting.specs.Firsts.{IsHindered, FitsBeside, HasFirst};

use crate::held::Held;
use crate::slices::{Slices, share_a_block, slice_in};
use mdv_base::SliceName;
use mdv_name::{Geometry, SliceAt};
use mdv_plan::{SliceUse, User};
use mdv_shape::slice_key;
use std::alloc::{AllocError, Global};

// By what each slice is used first, by the slice's number.
type Firsts = Held<User>;

fn can_share_slice(a: User, b: User) -> bool
    ensures { result ≡ spec_can_share_slice a b }
{
    matches!(
        (a, b),
        (User::Extent(_), User::Extent(_)) | (User::Spare(_), User::Spare(_))
    )
}

// The slice of this number on the same drive.
fn beside(slice: SliceName, number: u8) -> SliceName
    ensures { result ≡ spec_beside slice number }
{
    let drive = slice.drive;
    SliceName {
        drive,
        slice: number,
    }
}

// Whether the slice, which lies there, is in use or set aside for replicas.
fn is_taken(firsts: &Firsts, slice: SliceName, at: SliceAt) -> bool
    ensures { result ≡ (is_some (held firsts.now (slice_code slice)) || at.db) }
{
    firsts.get(u64::from(slice_key(slice))).is_some() || at.db
}

// The slice lies there. Whether the one of that number on its drive overlaps it, and is in use or set aside.
fn is_hindered_by(
    geometry: &Geometry,
    slices: &Slices,
    firsts: &Firsts,
    slice: SliceName,
    at: Option<SliceAt>,
    number: u8,
) -> bool
    requires sound { IsSound geometry.now }
    requires slices { AreSlices geometry.now slices.now }
    requires at { at ≡ slice_at geometry.now.slices slice }
    requires lies { IfSome at (IsSoundSlice slice) }
    ensures { result ≡ spec_is_hindered_by geometry.now firsts.now slice number }
{
    if number == slice.slice {
        return false;
    }
    let other = beside(slice, number);
    match (slice_in(geometry, slices, other), at) {
        (Some(a), Some(b)) => share_a_block(a, b) && is_taken(firsts, other, a),
        _ => false,
    }
}

// Whether another slice overlaps it that is in use or set aside for replicas. Only those of its drive are looked at.
fn is_hindered(geometry: &Geometry, slices: &Slices, firsts: &Firsts, slice: SliceName) -> bool
    requires sound { IsSound geometry.now }
    requires slices { AreSlices geometry.now slices.now }
    ensures { IsTrue result ↔ IsHindered geometry.now firsts.now slice }
{
    let at = slice_in(geometry, slices, slice);
    for number in 0..8u8 {
        if is_hindered_by(geometry, slices, firsts, slice, at, number) {
            return true;
        }
    }
    false
}

// Whether the use fits beside those before it. Where it does, and is the first one of its slice, it is added.
fn comes_beside(
    geometry: &Geometry,
    slices: &Slices,
    firsts: &mut Firsts,
    one: &SliceUse,
) -> Result<bool, AllocError>
    requires sound { IsSound geometry.now }
    requires slices { AreSlices geometry.now slices.now }
    ensures fits { IfOk result (FitsBeside geometry.now firsts.old one.now) }
    ensures first { IfOk result (λ yes. IsTrue yes → HasFirst firsts.old one.now firsts.new) }
{
    let key = u64::from(slice_key(one.slice));
    if let Some(first) = firsts.get(key) {
        return Ok(can_share_slice(first, one.by));
    }
    if is_hindered(geometry, slices, firsts, one.slice) {
        return Ok(false);
    }
    firsts.put(key, one.by)?;
    Ok(true)
}

/// Whether no use stands in the way of one behind it, nor of replicas. Each is held against the first one of its slice,
/// and the first ones against those of the other slices of their drive.
pub(crate) fn stand_together(
    alloc: Global,
    geometry: &Geometry,
    slices: &Slices,
    uses: &[SliceUse],
) -> Result<bool, AllocError>
    requires sound { IsSound geometry.now }
    requires slices { AreSlices geometry.now slices.now }
    requires named { All IsNamed uses.now }
    requires parts { All IsPart uses.now }
    ensures { IfOk result (λ yes. IsTrue yes ↔ StandTogether geometry.now uses.now) }
{
    let mut firsts = Held::new(alloc)?;
    for one in uses {
        if !comes_beside(geometry, slices, &mut firsts, one)? {
            return Ok(false);
        }
    }
    Ok(true)
}
