//! What stands against bases that are asked for as components.
ghost use Rattle.std.specs.Prelude.{◌≡◌, List, Option};
ghost use Rattle.std.specs.Option.{option_copied};
ghost use Rattle.std.specs.List.{list_any};
ghost use Rattle.mdv_plan.specs.Slices.{IsSound};
ghost use Rattle.mdv_components.specs.Bases.{volume_of as spec_volume_of, is_missing as spec_is_missing};
ghost use Rattle.mdv_components.specs.Bases.{is_foreign as spec_is_foreign, is_on as spec_is_on, has_drive as spec_has_drive};
ghost use Rattle.mdv_components.specs.Bases.{is_no_leaf as spec_is_no_leaf, is_leaf_kind as spec_is_leaf_kind, is_slice as spec_is_slice};
ghost use Rattle.mdv_components.specs.Bases.{is_slice_in_use as spec_is_slice_in_use, is_volume_in_use as spec_is_volume_in_use};
ghost use Rattle.mdv_components.specs.Bases.{slices_meet as spec_slices_meet, same_volume as spec_same_volume};
ghost use Rattle.mdv_components.specs.Bases.{has_meeting as spec_has_meeting, has_twice as spec_has_twice};
ghost use Rattle.mdv_base.specs.declared.drive.DriveNo.{DriveNo};
ghost use Rattle.mdv_base.specs.declared.name.PoolId.{PoolId};
ghost use Rattle.mdv_base.specs.declared.name.VolId.{VolId};
ghost use Rattle.mdv_plan.specs.Uses.{uses_of};
ghost use Rattle.mdv_components.specs.Bases.{no_pool as spec_no_pool, pool_of as spec_pool_of, base_condition};
ghost use Rattle.mdv_components.specs.Causes.{name_causes, use_causes, first_of};

use crate::cause::Cause;
use mdv_base::{DriveNo, PoolId, VolId};
use mdv_name::{Geometry, SliceAt};
use mdv_plan::{Asked, Base, Plan, Pool, Uses, Volume, VolumeKind, meets_db, overlap, slice_at};

/// The first cause that the names give which a volume of components on these bases has.
pub(crate) fn name_cause(
    geometry: &Geometry,
    drives: &[DriveNo],
    plan: &Plan,
    volume: VolId,
    bases: &[Base],
    spares: Option<PoolId>,
) -> Option<Cause>
    requires { IsSound geometry.now }
    ensures { result ≡ first_of (base_condition geometry.now drives.now plan.now volume bases.now spares) name_causes }
{
    if has_missing(plan, bases) {
        return Some(Cause::NoSuchVolume);
    }
    if no_pool(plan, spares) {
        return Some(Cause::NoSuchPool);
    }
    if has_foreign(geometry, drives, bases) {
        return Some(Cause::NoSuchSlice);
    }
    if volume_of(plan, volume).is_some() {
        return Some(Cause::NameTaken);
    }
    if has_no_leaf(plan, bases) {
        return Some(Cause::WrongKind);
    }
    None
}

/// The first cause that the uses of the plan give.
pub(crate) fn use_cause(
    geometry: &Geometry,
    plan: &Plan,
    bases: &[Base],
    uses: &Uses,
) -> Option<Cause>
    requires sound { IsSound geometry.now }
    requires uses { uses.now ≡ uses_of plan.now }
    ensures { (drives : List DriveNo) (volume : VolId) (spares : Option PoolId) → result ≡ first_of (base_condition geometry.now drives plan.now volume bases.now spares) use_causes }
{
    if has_slice_in_use(geometry, uses, bases) || has_meeting(geometry, bases) {
        return Some(Cause::SliceInUse);
    }
    if has_volume_in_use(plan, bases) || has_twice(bases) {
        return Some(Cause::HasParent);
    }
    None
}

/// Whether a pool is named that the plan doesn't have.
pub fn no_pool(plan: &Plan, pool: Option<PoolId>) -> bool
    ensures { result ≡ spec_no_pool plan.now pool }
{
    match pool {
        Some(pool) => pool_of(plan, pool).is_none(),
        None => false,
    }
}

/// The pool of this number, found in logarithmic time.
pub fn pool_of(plan: &Plan, pool: PoolId) -> Option<&Pool>
    ensures { option_copied result ≡ spec_pool_of plan.now pool }
{
    plan.pools.find(u32::from(pool.0))
}

/// The volume of this number, found in logarithmic time.
pub fn volume_of(plan: &Plan, volume: VolId) -> Option<&Volume>
    ensures { option_copied result ≡ spec_volume_of plan.now volume }
{
    plan.volumes.find(u32::from(volume.0))
}

/// Whether the base is a volume that the plan doesn't have.
pub fn is_missing(plan: &Plan, base: Base) -> bool
    ensures { result ≡ spec_is_missing plan.now base }
{
    match base {
        Base::Slice(_) => false,
        Base::Volume(volume) => volume_of(plan, volume).is_none(),
    }
}

/// Whether one of the bases is a volume that the plan doesn't have.
pub fn has_missing(plan: &Plan, bases: &[Base]) -> bool
    ensures { result ≡ list_any (spec_is_missing plan.now) bases.now }
{
    bases.iter().any(|base| is_missing(plan, *base))
}

fn is_on(drives: &[DriveNo], at: Option<SliceAt>) -> bool
    ensures { result ≡ spec_is_on drives.now at }
{
    match at {
        Some(at) => has_drive(drives, at.drive),
        None => false,
    }
}

fn has_drive(drives: &[DriveNo], drive: DriveNo) -> bool
    ensures { result ≡ spec_has_drive drives.now drive }
{
    drives.iter().any(|d| d.0 == drive.0)
}

/// Whether the base is a slice that isn't there, or not on one of the drives.
pub fn is_foreign(geometry: &Geometry, drives: &[DriveNo], base: Base) -> bool
    requires { IsSound geometry.now }
    ensures { result ≡ spec_is_foreign geometry.now drives.now base }
{
    match base {
        Base::Slice(slice) => !is_on(drives, slice_at(geometry, slice)),
        Base::Volume(_) => false,
    }
}

/// Whether one of the slices isn't there, or not on one of the drives.
pub fn has_foreign(geometry: &Geometry, drives: &[DriveNo], bases: &[Base]) -> bool
    requires { IsSound geometry.now }
    ensures { result ≡ list_any (spec_is_foreign geometry.now drives.now) bases.now }
{
    bases.iter().any(|base| is_foreign(geometry, drives, *base))
}

fn is_slice(base: Base) -> bool
    ensures { result ≡ spec_is_slice base }
{
    match base {
        Base::Slice(_) => true,
        Base::Volume(_) => false,
    }
}

fn is_leaf_kind(kind: &VolumeKind) -> bool
    ensures { result ≡ spec_is_leaf_kind kind.now }
{
    match kind {
        VolumeKind::Soft(soft) => is_slice(soft.base),
        _ => false,
    }
}

/// Whether the base is neither a slice nor a soft partition on a slice.
pub fn is_no_leaf(plan: &Plan, base: Base) -> bool
    ensures { result ≡ spec_is_no_leaf plan.now base }
{
    match base {
        Base::Slice(_) => false,
        Base::Volume(volume) => match volume_of(plan, volume) {
            Some(volume) => !is_leaf_kind(&volume.kind),
            None => true,
        },
    }
}

/// Whether one of the bases is neither a slice nor a soft partition on a slice.
pub fn has_no_leaf(plan: &Plan, bases: &[Base]) -> bool
    ensures { result ≡ list_any (spec_is_no_leaf plan.now) bases.now }
{
    bases.iter().any(|base| is_no_leaf(plan, *base))
}

fn is_slice_in_use(geometry: &Geometry, uses: &Uses, base: Base) -> bool
    requires { IsSound geometry.now }
    ensures { result ≡ spec_is_slice_in_use geometry.now uses.now base }
{
    match base {
        Base::Slice(slice) => {
            uses.clash(geometry, Asked::OneComponent, slice) || meets_db(geometry, slice)
        }
        Base::Volume(_) => false,
    }
}

/// Whether a component can't have one of the slices: another use stands in the way, or a slice that is set
/// aside for replicas.
pub fn has_slice_in_use(geometry: &Geometry, uses: &Uses, bases: &[Base]) -> bool
    requires { IsSound geometry.now }
    ensures { result ≡ list_any (spec_is_slice_in_use geometry.now uses.now) bases.now }
{
    bases
        .iter()
        .any(|base| is_slice_in_use(geometry, uses, *base))
}

fn is_volume_in_use(plan: &Plan, base: Base) -> bool
    ensures { result ≡ spec_is_volume_in_use plan.now base }
{
    match base {
        Base::Slice(_) => false,
        Base::Volume(volume) => plan.has_parent(volume),
    }
}

/// Whether a volume uses one of the bases already.
pub fn has_volume_in_use(plan: &Plan, bases: &[Base]) -> bool
    ensures { result ≡ list_any (spec_is_volume_in_use plan.now) bases.now }
{
    bases.iter().any(|base| is_volume_in_use(plan, *base))
}

fn slices_meet(geometry: &Geometry, a: Base, b: Base) -> bool
    requires { IsSound geometry.now }
    ensures { result ≡ spec_slices_meet geometry.now a b }
{
    match (a, b) {
        (Base::Slice(a), Base::Slice(b)) => overlap(geometry, a, b),
        _ => false,
    }
}

fn meets_any(geometry: &Geometry, base: Base, bases: &[Base]) -> bool
    requires { IsSound geometry.now }
    ensures { result ≡ list_any (spec_slices_meet geometry.now base) bases.now }
{
    bases
        .iter()
        .any(|other| slices_meet(geometry, base, *other))
}

/// Whether two of the bases share blocks of a drive. It compares all pairs, of which a volume or pool has few.
pub fn has_meeting(geometry: &Geometry, bases: &[Base]) -> bool
    requires { IsSound geometry.now }
    ensures { result ≡ spec_has_meeting geometry.now bases.now }
{
    let mut rest = bases;
    while let [first, behind @ ..] = rest {
        if meets_any(geometry, *first, behind) {
            return true;
        }
        rest = behind;
    }
    false
}

fn same_volume(a: Base, b: Base) -> bool
    ensures { result ≡ spec_same_volume a b }
{
    match (a, b) {
        (Base::Volume(a), Base::Volume(b)) => a.0 == b.0,
        _ => false,
    }
}

fn is_among(base: Base, bases: &[Base]) -> bool
    ensures { result ≡ list_any (spec_same_volume base) bases.now }
{
    bases.iter().any(|other| same_volume(base, *other))
}

/// Whether a volume stands among the bases twice.
pub fn has_twice(bases: &[Base]) -> bool
    ensures { result ≡ spec_has_twice bases.now }
{
    let mut rest = bases;
    while let [first, behind @ ..] = rest {
        if is_among(*first, behind) {
            return true;
        }
        rest = behind;
    }
    false
}
