//! Changes of a mirror's submirrors.
ghost use Rattle.std.specs.Prelude.{List};
ghost use Rattle.mdv_change.specs.Apply.{IsApplied, detach_change, offline_change, online_change};
ghost use Rattle.mdv_change.specs.Below.{DriveNo, Geometry};

use crate::making::{ApplyFault, replace_volume};
use mdv_base::VolId;
use mdv_copies::{
    detach_states, mirror_without, offline_states, online_states, refuse_detach, refuse_offline,
    refuse_online,
};
use mdv_plan::Table;
use mdv_submirrors::note_all;
use std::alloc::Global;

pub(crate) fn detach(
    alloc: Global,
    table: &mut Table,
    mirror: VolId,
    sub: VolId,
    force: bool,
) -> Result<(), ApplyFault>
    ensures { (g : Geometry) (drives : List DriveNo) → IsApplied g drives (detach_change mirror sub force) table.old table.new result }
{
    if let Some(refusal) = refuse_detach(alloc, table, mirror, sub, force)? {
        return Err(ApplyFault::Refused(refusal));
    }
    let volume = mirror_without(alloc, &table.plan, mirror, sub)?;
    let states = detach_states(alloc, table, mirror, sub)?;
    replace_volume(table, volume);
    note_all(&mut table.status.volumes, states);
    Ok(())
}

pub(crate) fn take_offline(
    alloc: Global,
    table: &mut Table,
    mirror: VolId,
    sub: VolId,
) -> Result<(), ApplyFault>
    ensures { (g : Geometry) (drives : List DriveNo) → IsApplied g drives (offline_change mirror sub) table.old table.new result }
{
    if let Some(refusal) = refuse_offline(alloc, table, mirror, sub)? {
        return Err(ApplyFault::Refused(refusal));
    }
    let states = offline_states(alloc, table, mirror, sub)?;
    note_all(&mut table.status.volumes, states);
    Ok(())
}

pub(crate) fn take_online(
    alloc: Global,
    table: &mut Table,
    mirror: VolId,
    sub: VolId,
) -> Result<(), ApplyFault>
    ensures { (g : Geometry) (drives : List DriveNo) → IsApplied g drives (online_change mirror sub) table.old table.new result }
{
    if let Some(refusal) = refuse_online(alloc, table, mirror, sub)? {
        return Err(ApplyFault::Refused(refusal));
    }
    let states = online_states(alloc, table, mirror, sub)?;
    note_all(&mut table.status.volumes, states);
    Ok(())
}
