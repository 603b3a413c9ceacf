//! Components that are enabled or replaced.
ghost use Rattle.mdv_plan.specs.Slices.{IsSound};
ghost use Rattle.mdv_change.specs.Apply.{IsApplied, enable_part_change, replace_part_change};

use crate::clearing::give_back;
use crate::making::{ApplyFault, replace_volume};
use mdv_base::{DriveNo, VolId};
use mdv_name::Geometry;
use mdv_plan::{Base, Table};
use mdv_replacing::{
    freed_spares, part_states, refuse_enable_part, refuse_replace_part, renewed_volume,
};
use mdv_submirrors::note_all;
use std::alloc::Global;

pub(crate) fn enable_part(
    alloc: Global,
    geometry: &Geometry,
    drives: &[DriveNo],
    table: &mut Table,
    volume: VolId,
    part: Base,
) -> Result<(), ApplyFault>
    requires { IsSound geometry.now }
    ensures { IsApplied geometry.now drives.now (enable_part_change volume part) table.old table.new result }
{
    if let Some(refusal) = refuse_enable_part(alloc, geometry, drives, table, volume, part)? {
        return Err(ApplyFault::Refused(refusal));
    }
    let states = part_states(alloc, table, volume, part)?;
    let freed = freed_spares(alloc, table, volume, part)?;
    note_all(&mut table.status.volumes, states);
    give_back(&mut table.status.spares, freed.as_slice());
    Ok(())
}

pub(crate) fn replace_part(
    alloc: Global,
    geometry: &Geometry,
    drives: &[DriveNo],
    table: &mut Table,
    volume: VolId,
    old: Base,
    new: Base,
) -> Result<(), ApplyFault>
    requires { IsSound geometry.now }
    ensures { IsApplied geometry.now drives.now (replace_part_change volume old new) table.old table.new result }
{
    if let Some(refusal) = refuse_replace_part(alloc, geometry, drives, table, volume, old, new)? {
        return Err(ApplyFault::Refused(refusal));
    }
    let renewed = renewed_volume(alloc, geometry, &table.plan, volume, old, new)?;
    let states = part_states(alloc, table, volume, old)?;
    let freed = freed_spares(alloc, table, volume, old)?;
    replace_volume(table, renewed);
    note_all(&mut table.status.volumes, states);
    give_back(&mut table.status.spares, freed.as_slice());
    Ok(())
}
