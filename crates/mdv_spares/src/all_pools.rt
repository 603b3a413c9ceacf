//! Slices that come into every pool: what refuses them, and what the pools are.
ghost use Rattle.std.specs.Prelude.{◌≡◌, ◌≤◌, ◌+◌, false, length, IfOk};
ghost use Rattle.std.specs.List.{list_any};
ghost use Rattle.mdv_components.specs.Causes.{first_of, order};
ghost use Rattle.mdv_plan.specs.Slices.{IsSound};
ghost use Rattle.mdv_spares.specs.AllPools.{all_condition, coming as spec_coming, is_overfull as spec_is_overfull, is_taken_in_one as spec_is_taken_in_one};
ghost use Rattle.mdv_spares.specs.AllPools.{pool_longer as spec_pool_longer, pools_longer as spec_pools_longer};

use crate::meant::{Meant, is_there};
use crate::pools::{has_small, is_barred, slice_bases, spares_with};
use mdv_base::{DriveNo, SliceName};
use mdv_components::{Cause, has_foreign, has_meeting};
use mdv_name::Geometry;
use mdv_plan::{MAX_SPARES, Plan, Pool, Uses};
use std::alloc::{AllocError, Global};

/// The first cause for which the slices can't come into every pool.
pub fn refuse_for_all(
    alloc: Global,
    geometry: &Geometry,
    drives: &[DriveNo],
    plan: &Plan,
    slices: &[SliceName],
) -> Result<Option<Cause>, AllocError>
    requires { IsSound geometry.now }
    ensures { IfOk result (λ cause. cause ≡ first_of (all_condition geometry.now drives.now plan.now slices.now) order) }
{
    let bases = slice_bases(alloc, slices)?;
    if has_foreign(geometry, drives, bases.as_slice()) {
        return Ok(Some(Cause::NoSuchSlice));
    }
    if has_overfull(plan, slices) {
        return Ok(Some(Cause::TooMany));
    }
    let uses = plan.uses(alloc)?;
    if has_taken_in_one(geometry, &uses, plan, slices) || has_meeting(geometry, bases.as_slice()) {
        return Ok(Some(Cause::SliceInUse));
    }
    if has_small(geometry, plan, slices) {
        return Ok(Some(Cause::TooSmall));
    }
    Ok(None)
}

fn is_overfull(slices: &[SliceName], pool: &Pool) -> bool
    ensures { result ≡ spec_is_overfull slices.now pool.now }
{
    MAX_SPARES - pool.spares.as_slice().len() < slices.len()
}

fn has_overfull(plan: &Plan, slices: &[SliceName]) -> bool
    ensures { result ≡ list_any (spec_is_overfull slices.now) plan.now.pools }
{
    let pools = plan.pools.as_slice();
    pools.iter().any(|pool| is_overfull(slices, pool))
}

fn is_taken_in_one(geometry: &Geometry, uses: &Uses, plan: &Plan, slice: SliceName) -> bool
    requires { IsSound geometry.now }
    ensures { result ≡ spec_is_taken_in_one geometry.now uses.now plan.now slice }
{
    is_there(plan, Meant::All, slice) || is_barred(geometry, uses, slice)
}

fn has_taken_in_one(geometry: &Geometry, uses: &Uses, plan: &Plan, slices: &[SliceName]) -> bool
    requires { IsSound geometry.now }
    ensures { result ≡ list_any (spec_is_taken_in_one geometry.now uses.now plan.now) slices.now }
{
    slices
        .iter()
        .any(|slice| is_taken_in_one(geometry, uses, plan, *slice))
}

fn pool_longer(
    alloc: Global,
    geometry: &Geometry,
    plan: &Plan,
    slices: &[SliceName],
    pool: &Pool,
) -> Result<Pool, AllocError>
    requires sound { IsSound geometry.now }
    requires few { length pool.now.spares + length slices.now ≤ 100 }
    ensures { IfOk result (λ made. made ≡ spec_pool_longer geometry.now plan.now slices.now pool.now) }
{
    Ok(Pool {
        number: pool.number,
        spares: spares_with(alloc, geometry, plan, pool.spares.as_slice(), slices)?,
    })
}

/// All pools, each with the slices behind its spares.
pub fn pools_longer(
    alloc: Global,
    geometry: &Geometry,
    plan: &Plan,
    slices: &[SliceName],
) -> Result<Vec<Pool>, AllocError>
    requires sound { IsSound geometry.now }
    requires few { list_any (spec_is_overfull slices.now) plan.now.pools ≡ false }
    ensures { IfOk result (λ pools. pools.items ≡ spec_pools_longer geometry.now plan.now slices.now) }
{
    let mut made = Vec::new(alloc);
    for pool in plan.pools.as_slice() {
        made.push(pool_longer(alloc, geometry, plan, slices, pool)?)?;
    }
    Ok(made)
}

/// The slices that come into a pool: none where there is no pool.
pub fn coming<'a>(pools: &[Pool], slices: &'a [SliceName]) -> &'a [SliceName]
    ensures { result.now ≡ spec_coming pools.now slices.now }
{
    match pools {
        [] => &[],
        [_, ..] => slices,
    }
}
