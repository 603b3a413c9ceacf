//! Spares that leave pools: what refuses it, and what the pools are then.
ghost use Rattle.std.specs.Prelude.{◌≡◌, ◌≤◌, ◌++◌, filter, map, length, IfOk, OnOk};
ghost use Rattle.std.specs.List.{list_any};
ghost use Rattle.std.specs.Option.{option_map};
ghost use Rattle.mdv_components.specs.Causes.{first_of, order, told};
ghost use Rattle.mdv_plan.specs.Slices.{IsSound};
ghost use Rattle.mdv_plan.specs.Uses.{same_slice};
ghost use Rattle.mdv_spares.specs.Deleting.{delete_condition, stays as spec_stays, pool_less as spec_pool_less, pools_less as spec_pools_less};
ghost use Rattle.mdv_spares.specs.Meant.{is_absent as spec_is_absent, is_in_use as spec_is_in_use};

use crate::meant::{Meant, is_absent, is_in_use, is_meant, is_no_pool};
use crate::pools::slice_bases;
use crate::states::KEYS;
use mdv_base::{DriveNo, SliceName};
use mdv_components::{Cause, has_foreign};
use mdv_name::Geometry;
use mdv_plan::{Listed, MAX_SPARES, Plan, Pool, Sorted, Spare, SpareStatus, Table, same_slice};
use std::alloc::{AllocError, Global};

/// The first cause for which the slices can't leave the pools. `WrongState` is that one is absent.
pub fn refuse_delete(
    alloc: Global,
    geometry: &Geometry,
    drives: &[DriveNo],
    table: &Table,
    meant: Meant,
    slices: &[SliceName],
) -> Result<Option<Cause>, AllocError>
    requires { IsSound geometry.now }
    ensures { IfOk result (λ cause. cause ≡ first_of (delete_condition geometry.now drives.now table.now meant slices.now) order) }
{
    let bases = slice_bases(alloc, slices)?;
    if is_no_pool(&table.plan, meant) {
        return Ok(Some(Cause::NoSuchPool));
    }
    if has_foreign(geometry, drives, bases.as_slice()) {
        return Ok(Some(Cause::NoSuchSlice));
    }
    if has_absent(&table.plan, meant, slices) {
        return Ok(Some(Cause::WrongState));
    }
    if has_one_in_use(&table.status.spares, slices) {
        return Ok(Some(Cause::SpareInUse));
    }
    Ok(None)
}

fn has_absent(plan: &Plan, meant: Meant, slices: &[SliceName]) -> bool
    ensures { result ≡ list_any (spec_is_absent plan.now meant) slices.now }
{
    slices.iter().any(|slice| is_absent(plan, meant, *slice))
}

fn has_one_in_use(states: &Sorted<SpareStatus, KEYS>, slices: &[SliceName]) -> bool
    ensures { result ≡ list_any (spec_is_in_use states.now) slices.now }
{
    slices.iter().any(|slice| is_in_use(states, *slice))
}

fn goes(slices: &[SliceName], spare: Spare) -> bool
    ensures { result ≡ list_any (same_slice spare.slice) slices.now }
{
    slices.iter().any(|slice| same_slice(spare.slice, *slice))
}

fn stays(slices: &[SliceName], spare: Spare) -> bool
    ensures { result ≡ spec_stays slices.now spare }
{
    !goes(slices, spare)
}

fn spares_less(
    alloc: Global,
    slices: &[SliceName],
    spares: &[Spare],
) -> Result<Listed<Spare, MAX_SPARES>, AllocError>
    requires { length spares.now ≤ 100 }
    ensures { IfOk result (λ made. made ≡ filter (spec_stays slices.now) spares.now) }
{
    let kept: Vec<Spare> = spares
        .iter()
        .copied()
        .filter(|spare| stays(slices, *spare))
        .collect(alloc)?;
    Listed::from_slice(alloc, kept.as_slice())
}

fn pool_less(alloc: Global, slices: &[SliceName], pool: &Pool) -> Result<Pool, AllocError>
    ensures { IfOk result (λ made. made ≡ spec_pool_less slices.now pool.now) }
{
    Ok(Pool {
        number: pool.number,
        spares: spares_less(alloc, slices, pool.spares.as_slice())?,
    })
}

/// The pools that are meant, without the slices.
pub fn pools_less(
    alloc: Global,
    plan: &Plan,
    meant: Meant,
    slices: &[SliceName],
) -> Result<Vec<Pool>, AllocError>
    ensures { IfOk result (λ pools. pools.items ≡ spec_pools_less plan.now meant slices.now) }
{
    let mut made = Vec::new(alloc);
    for pool in plan.pools.as_slice() {
        if is_meant(meant, pool) {
            made.push(pool_less(alloc, slices, pool)?)?;
        }
    }
    Ok(made)
}
