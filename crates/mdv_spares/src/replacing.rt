//! A spare in whose place another one comes: what refuses it, and what the pools are then.
ghost use Rattle.std.specs.Prelude.{◌≡◌, ◌≤◌, map, length, IfOk};
ghost use Rattle.std.specs.List.{list_any};
ghost use Rattle.mdv_components.specs.Causes.{first_of, order};
ghost use Rattle.mdv_plan.specs.Slices.{IsSound};
ghost use Rattle.mdv_spares.specs.Replacing.{replace_condition, has_both as spec_has_both, is_taken_beside as spec_is_taken_beside, renewed as spec_renewed};
ghost use Rattle.mdv_spares.specs.Replacing.{pool_renewed as spec_pool_renewed, pools_renewed as spec_pools_renewed};

use crate::meant::{Meant, has_spare, is_absent, is_in_use, is_meant, is_meant_with, is_no_pool};
use crate::pools::{is_barred, is_spare, is_too_small, spare_on};
use mdv_base::{DriveNo, SliceName};
use mdv_components::{Cause, has_foreign};
use mdv_name::Geometry;
use mdv_plan::{Base, Listed, MAX_SPARES, Plan, Pool, Spare, Table, Uses};
use std::alloc::{AllocError, Global};

/// The first cause for which the new spare can't come in the place of the old one. `WrongState` is that the
/// old one is absent.
pub fn refuse_replace(
    alloc: Global,
    geometry: &Geometry,
    drives: &[DriveNo],
    table: &Table,
    meant: Meant,
    old: SliceName,
    new: SliceName,
) -> Result<Option<Cause>, AllocError>
    requires { IsSound geometry.now }
    ensures { IfOk result (λ cause. cause ≡ first_of (replace_condition geometry.now drives.now table.now meant old new) order) }
{
    let plan = &table.plan;
    if is_no_pool(plan, meant) {
        return Ok(Some(Cause::NoSuchPool));
    }
    if has_foreign(geometry, drives, &[Base::Slice(old), Base::Slice(new)]) {
        return Ok(Some(Cause::NoSuchSlice));
    }
    if is_absent(plan, meant, old) {
        return Ok(Some(Cause::WrongState));
    }
    let uses = plan.uses(alloc)?;
    if is_taken_beside(geometry, &uses, plan, meant, old, new) {
        return Ok(Some(Cause::SliceInUse));
    }
    if is_in_use(&table.status.spares, old) {
        return Ok(Some(Cause::SpareInUse));
    }
    if is_too_small(geometry, plan, new) {
        return Ok(Some(Cause::TooSmall));
    }
    Ok(None)
}

fn has_both(meant: Meant, old: SliceName, new: SliceName, pool: &Pool) -> bool
    ensures { result ≡ spec_has_both meant old new pool.now }
{
    is_meant_with(meant, old, pool) && has_spare(pool, new)
}

fn is_beside(plan: &Plan, meant: Meant, old: SliceName, new: SliceName) -> bool
    ensures { result ≡ list_any (spec_has_both meant old new) plan.now.pools }
{
    let pools = plan.pools.as_slice();
    pools.iter().any(|pool| has_both(meant, old, new, pool))
}

fn is_taken_beside(
    geometry: &Geometry,
    uses: &Uses,
    plan: &Plan,
    meant: Meant,
    old: SliceName,
    new: SliceName,
) -> bool
    requires { IsSound geometry.now }
    ensures { result ≡ spec_is_taken_beside geometry.now uses.now plan.now meant old new }
{
    is_beside(plan, meant, old, new) || is_barred(geometry, uses, new)
}

fn renewed(old: SliceName, new: Spare, spare: Spare) -> Spare
    ensures { result ≡ spec_renewed old new spare }
{
    if is_spare(spare, old) { new } else { spare }
}

fn spares_renewed(
    alloc: Global,
    old: SliceName,
    new: Spare,
    spares: &[Spare],
) -> Result<Listed<Spare, MAX_SPARES>, AllocError>
    requires { length spares.now ≤ 100 }
    ensures { IfOk result (λ made. made ≡ map (spec_renewed old new) spares.now) }
{
    let made: Vec<Spare> = spares
        .iter()
        .copied()
        .map(|spare| renewed(old, new, spare))
        .collect(alloc)?;
    Listed::from_slice(alloc, made.as_slice())
}

fn pool_renewed(alloc: Global, old: SliceName, new: Spare, pool: &Pool) -> Result<Pool, AllocError>
    ensures { IfOk result (λ made. made ≡ spec_pool_renewed old new pool.now) }
{
    Ok(Pool {
        number: pool.number,
        spares: spares_renewed(alloc, old, new, pool.spares.as_slice())?,
    })
}

/// The pools that are meant, with the new spare in the place of the old one.
pub fn pools_renewed(
    alloc: Global,
    geometry: &Geometry,
    plan: &Plan,
    meant: Meant,
    old: SliceName,
    new: SliceName,
) -> Result<Vec<Pool>, AllocError>
    requires { IsSound geometry.now }
    ensures { IfOk result (λ pools. pools.items ≡ spec_pools_renewed geometry.now plan.now meant old new) }
{
    let spare = spare_on(geometry, plan, new);
    let mut made = Vec::new(alloc);
    for pool in plan.pools.as_slice() {
        if is_meant(meant, pool) {
            made.push(pool_renewed(alloc, old, spare, pool)?)?;
        }
    }
    Ok(made)
}
