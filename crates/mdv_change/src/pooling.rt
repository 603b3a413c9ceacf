//! Changes of pools.
ghost use Rattle.std.specs.Prelude.{◌≡◌};
ghost use Rattle.mdv_plan.specs.Slices.{IsSound};
ghost use Rattle.mdv_change.specs.Apply.{IsApplied, all_change, delete_change, enable_change, replace_change};
ghost use Rattle.mdv_change.specs.Change.{of_state as spec_of_state};

use crate::clearing::give_back;
use crate::making::ApplyFault;
use mdv_base::{DriveNo, SliceName, StateWord};
use mdv_components::Carried;
use mdv_keys::{remove_all, replace_all};
use mdv_name::Geometry;
use mdv_plan::Table;
use mdv_spares::{
    Meant, coming, lost_keys, pools_less, pools_longer, pools_renewed, refuse_delete,
    refuse_enable, refuse_for_all, refuse_replace, unbroken_word, with_states,
};
use std::alloc::Global;

fn of_state(state: StateWord) -> Carried
    ensures { result ≡ spec_of_state state }
{
    Carried { state, blocks: 0 }
}

pub(crate) fn add_spares_to_all(
    alloc: Global,
    geometry: &Geometry,
    drives: &[DriveNo],
    table: &mut Table,
    slices: &[SliceName],
) -> Result<(), ApplyFault>
    requires { IsSound geometry.now }
    ensures { IsApplied geometry.now drives.now (all_change slices.now) table.old table.new result }
{
    let plan = &table.plan;
    if let Some(cause) = refuse_for_all(alloc, geometry, drives, plan, slices)? {
        return Err(ApplyFault::Refused(cause.refusal(Carried::nothing())));
    }
    let longer = pools_longer(alloc, geometry, plan, slices)?;
    let coming = coming(plan.pools.as_slice(), slices);
    let states = with_states(alloc, &table.status.spares, coming)?;
    replace_all(&mut table.plan.pools, longer);
    table.status.spares = states;
    Ok(())
}

pub(crate) fn delete_spares(
    alloc: Global,
    geometry: &Geometry,
    drives: &[DriveNo],
    table: &mut Table,
    pools: Meant,
    slices: &[SliceName],
) -> Result<(), ApplyFault>
    requires { IsSound geometry.now }
    ensures { IsApplied geometry.now drives.now (delete_change pools slices.now) table.old table.new result }
{
    if let Some(cause) = refuse_delete(alloc, geometry, drives, table, pools, slices)? {
        let carried = of_state(StateWord::Absent);
        return Err(ApplyFault::Refused(cause.refusal(carried)));
    }
    let changed = pools_less(alloc, &table.plan, pools, slices)?;
    let lost = lost_keys(alloc, &table.plan, pools, slices)?;
    replace_all(&mut table.plan.pools, changed);
    remove_all(&mut table.status.spares, lost.as_slice());
    Ok(())
}

pub(crate) fn replace_spare(
    alloc: Global,
    geometry: &Geometry,
    drives: &[DriveNo],
    table: &mut Table,
    pools: Meant,
    old: SliceName,
    new: SliceName,
) -> Result<(), ApplyFault>
    requires { IsSound geometry.now }
    ensures { IsApplied geometry.now drives.now (replace_change pools old new) table.old table.new result }
{
    if let Some(cause) = refuse_replace(alloc, geometry, drives, table, pools, old, new)? {
        let carried = of_state(StateWord::Absent);
        return Err(ApplyFault::Refused(cause.refusal(carried)));
    }
    let renewed = pools_renewed(alloc, geometry, &table.plan, pools, old, new)?;
    let states = with_states(alloc, &table.status.spares, &[new])?;
    let lost = lost_keys(alloc, &table.plan, pools, &[old])?;
    replace_all(&mut table.plan.pools, renewed);
    table.status.spares = states;
    remove_all(&mut table.status.spares, lost.as_slice());
    Ok(())
}

pub(crate) fn enable_spares(
    alloc: Global,
    geometry: &Geometry,
    drives: &[DriveNo],
    table: &mut Table,
    slices: &[SliceName],
) -> Result<(), ApplyFault>
    requires { IsSound geometry.now }
    ensures { IsApplied geometry.now drives.now (enable_change slices.now) table.old table.new result }
{
    let states = &table.status.spares;
    if let Some(cause) = refuse_enable(alloc, geometry, drives, states, slices)? {
        let carried = of_state(unbroken_word(states, slices));
        return Err(ApplyFault::Refused(cause.refusal(carried)));
    }
    give_back(&mut table.status.spares, slices);
    Ok(())
}
