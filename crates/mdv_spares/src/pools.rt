//! Slices that come into a pool: what refuses them, and what the pool is.
ghost use Rattle.std.specs.Prelude.{◌≡◌, ◌≤◌, ◌+◌, ◌++◌, map, length, IfOk};
ghost use Rattle.std.specs.List.{find, list_any};
ghost use Rattle.mdv_components.specs.Causes.{first_of, order};
ghost use Rattle.mdv_plan.specs.Slices.{IsSound};
ghost use Rattle.mdv_plan.specs.Uses.{uses_of};
ghost use Rattle.mdv_spares.specs.Pools.{slice_base as spec_slice_base, spares_of as spec_spares_of, is_spare as spec_is_spare, spare_in as spec_spare_in};
ghost use Rattle.mdv_spares.specs.Pools.{spare_on as spec_spare_on, is_barred as spec_is_barred, is_taken as spec_is_taken, is_too_small as spec_is_too_small, spares_condition, pool_with as spec_pool_with};

use mdv_base::{DriveNo, PoolId, SliceName};
use mdv_components::{Cause, has_foreign, has_meeting, pool_of, room_of, start_of};
use mdv_name::Geometry;
use mdv_plan::{Asked, Base, Listed, MAX_SPARES, Plan, Pool, Spare, Uses, meets_db, same_slice};
use std::alloc::{AllocError, Global};

/// The first cause for which the slices can't come into the pool. A new pool must not be there yet; else it
/// is made where there is none.
pub fn refuse_spares(
    alloc: Global,
    geometry: &Geometry,
    drives: &[DriveNo],
    plan: &Plan,
    new: bool,
    pool: PoolId,
    slices: &[SliceName],
) -> Result<Option<Cause>, AllocError>
    requires { IsSound geometry.now }
    ensures { IfOk result (λ cause. cause ≡ first_of (spares_condition geometry.now drives.now plan.now new pool slices.now) order) }
{
    let bases = slice_bases(alloc, slices)?;
    if has_foreign(geometry, drives, bases.as_slice()) {
        return Ok(Some(Cause::NoSuchSlice));
    }
    if new && pool_of(plan, pool).is_some() {
        return Ok(Some(Cause::NameTaken));
    }
    let had = spares_of(plan, pool);
    if MAX_SPARES - had.len() < slices.len() {
        return Ok(Some(Cause::TooMany));
    }
    let uses = plan.uses(alloc)?;
    if has_taken(geometry, &uses, had, slices) || has_meeting(geometry, bases.as_slice()) {
        return Ok(Some(Cause::SliceInUse));
    }
    if has_small(geometry, plan, slices) {
        return Ok(Some(Cause::TooSmall));
    }
    Ok(None)
}

fn slice_base(slice: SliceName) -> Base
    ensures { result ≡ spec_slice_base slice }
{
    Base::Slice(slice)
}

pub(crate) fn slice_bases(alloc: Global, slices: &[SliceName]) -> Result<Vec<Base>, AllocError>
    ensures { IfOk result (λ bases. bases.items ≡ map spec_slice_base slices.now) }
{
    let mut bases = Vec::new(alloc);
    for slice in slices {
        bases.push(slice_base(*slice))?;
    }
    Ok(bases)
}

fn spares_of(plan: &Plan, pool: PoolId) -> &[Spare]
    ensures value { result.now ≡ spec_spares_of plan.now pool }
    ensures few { length result.now ≤ 100 }
{
    match pool_of(plan, pool) {
        Some(pool) => pool.spares.as_slice(),
        None => &[],
    }
}

pub(crate) fn is_spare(spare: Spare, slice: SliceName) -> bool
    ensures { result ≡ spec_is_spare slice spare }
{
    same_slice(spare.slice, slice)
}

fn has_spare(spares: &[Spare], slice: SliceName) -> bool
    ensures { result ≡ list_any (spec_is_spare slice) spares.now }
{
    spares.iter().any(|spare| is_spare(*spare, slice))
}

fn find_spare(spares: &[Spare], slice: SliceName) -> Option<Spare>
    ensures { result ≡ find (spec_is_spare slice) spares.now }
{
    spares.iter().copied().find(|spare| is_spare(*spare, slice))
}

// The spare that the first pool has which has one on the slice.
fn spare_in(pools: &[Pool], slice: SliceName) -> Option<Spare>
    ensures { result ≡ spec_spare_in pools.now slice }
{
    let mut rest = pools;
    while let [first, behind @ ..] = rest {
        let found = find_spare(first.spares.as_slice(), slice);
        if found.is_some() {
            return found;
        }
        rest = behind;
    }
    None
}

pub(crate) fn spare_on(geometry: &Geometry, plan: &Plan, slice: SliceName) -> Spare
    requires { IsSound geometry.now }
    ensures { result ≡ spec_spare_on geometry.now plan.now slice }
{
    match spare_in(plan.pools.as_slice(), slice) {
        Some(spare) => spare,
        None => Spare {
            slice,
            start: start_of(geometry, plan, Base::Slice(slice)),
            blocks: room_of(geometry, plan, Base::Slice(slice)),
        },
    }
}

// Whether a use stands in the way.
pub(crate) fn is_barred(geometry: &Geometry, uses: &Uses, slice: SliceName) -> bool
    requires { IsSound geometry.now }
    ensures { result ≡ spec_is_barred geometry.now uses.now slice }
{
    uses.clash(geometry, Asked::OneSpare, slice) || meets_db(geometry, slice)
}

fn is_taken(geometry: &Geometry, uses: &Uses, had: &[Spare], slice: SliceName) -> bool
    requires { IsSound geometry.now }
    ensures { result ≡ spec_is_taken geometry.now uses.now had.now slice }
{
    has_spare(had, slice) || is_barred(geometry, uses, slice)
}

fn has_taken(geometry: &Geometry, uses: &Uses, had: &[Spare], slices: &[SliceName]) -> bool
    requires { IsSound geometry.now }
    ensures { result ≡ list_any (spec_is_taken geometry.now uses.now had.now) slices.now }
{
    slices
        .iter()
        .any(|slice| is_taken(geometry, uses, had, *slice))
}

pub(crate) fn is_too_small(geometry: &Geometry, plan: &Plan, slice: SliceName) -> bool
    requires { IsSound geometry.now }
    ensures { result ≡ spec_is_too_small geometry.now plan.now slice }
{
    spare_on(geometry, plan, slice).blocks == 0
}

pub(crate) fn has_small(geometry: &Geometry, plan: &Plan, slices: &[SliceName]) -> bool
    requires { IsSound geometry.now }
    ensures { result ≡ list_any (spec_is_too_small geometry.now plan.now) slices.now }
{
    slices
        .iter()
        .any(|slice| is_too_small(geometry, plan, *slice))
}

// The spares with the slices behind them.
pub(crate) fn spares_with(
    alloc: Global,
    geometry: &Geometry,
    plan: &Plan,
    had: &[Spare],
    slices: &[SliceName],
) -> Result<Listed<Spare, MAX_SPARES>, AllocError>
    requires sound { IsSound geometry.now }
    requires few { length had.now + length slices.now ≤ 100 }
    ensures { IfOk result (λ spares. spares ≡ had.now ++ map (spec_spare_on geometry.now plan.now) slices.now) }
{
    let mut spares = Listed::from_slice(alloc, had)?;
    for slice in slices {
        spares.push(spare_on(geometry, plan, *slice))?;
    }
    Ok(spares)
}

/// The pool with the slices behind its spares.
pub fn pool_with(
    alloc: Global,
    geometry: &Geometry,
    plan: &Plan,
    pool: PoolId,
    slices: &[SliceName],
) -> Result<Pool, AllocError>
    requires sound { IsSound geometry.now }
    requires few { length (spec_spares_of plan.now pool) + length slices.now ≤ 100 }
    ensures { IfOk result (λ made. made ≡ spec_pool_with geometry.now plan.now pool slices.now) }
{
    Ok(Pool {
        number: pool,
        spares: spares_with(alloc, geometry, plan, spares_of(plan, pool), slices)?,
    })
}
