//! A change of a table.
ghost use Rattle.std.specs.Prelude.{◌≡◌, ◌<◌, ◌==◌, List, None, Some, IfSome, OnOk, OnErr};
ghost use Rattle.std.specs.List.{find};
ghost use Rattle.mdv_plan.specs.Slices.{IsSound};
ghost use Rattle.mdv_change.specs.declared.making.ApplyFault.TheVariants.{Memory};
ghost use Rattle.mdv_change.specs.Apply.{IsApplied, IsNumbered, attach_change, below_change, clear_change, grow_change, mirror_change, raid_change, row_change, soft_change, spares_change, stripe_change};
ghost use Rattle.mdv_change.specs.Below.{DriveNo, Geometry};
ghost use Rattle.mdv_change.specs.Change.{refusal_of, with_changed, with_volume};

use crate::change::Change;
use crate::clearing::{clear, clear_all, judge_clear};
use crate::levels::{refuse_names, with_levels};
use crate::mirroring::{detach, take_offline, take_online};
use crate::pooling::{add_spares_to_all, delete_spares, enable_spares, replace_spare};
use crate::replacing::{enable_part, replace_part};
use mdv_base::{DriveNo, PoolId, Refusal, SliceName, VolId};
use mdv_components::{
    Carried, RaidAsked, RowAsked, is_foreign, is_missing, raid_on, raid_status, refuse_raid,
    refuse_stripe, row_on, stripe_on, stripe_status, volume_of,
};
use mdv_name::Geometry;
use mdv_plan::{Table, Volume, VolumeStatus};
use mdv_rows::{added_states, filled, refuse_add, volume_with_row};
use mdv_softs::{
    SoftAsked, grown_room, refuse_grow, refuse_soft, soft_on, soft_room, soft_status, volume_grown,
};
use mdv_spares::{pool_with, refuse_spares, with_states};
use mdv_submirrors::{
    MirrorAsked, all_joined, attach_states, mirror_on, mirror_status, mirror_with_sub, note_all,
    refuse_attach, refuse_mirror,
};
use std::alloc::{AllocError, Global};

/// Why a change isn't made.
#[derive(Clone, Copy, Debug, PartialEq, Eq)]
pub enum ApplyFault {
    Refused(Refusal),
    Memory,
}

/// Makes the change, or tells why not. The drives are those of the database: of a local one the host's own,
/// of a set its own. A refusal is the first cause in the one order. The work is linear in the uses of the
/// table, once for each slice that the change names.
pub fn apply(
    alloc: Global,
    geometry: &Geometry,
    drives: &[DriveNo],
    table: &mut Table,
    change: &Change,
) -> Result<(), ApplyFault>
    requires sound { IsSound geometry.now }
    requires numbered { IsNumbered change.now }
    ensures { IsApplied geometry.now drives.now change.now table.old table.new result }
{
    match change {
        Change::MakeStripe {
            volume,
            rows,
            spares,
        } => make_stripe(
            alloc,
            geometry,
            drives,
            table,
            *volume,
            rows.as_slice(),
            *spares,
        ),
        Change::MakeRaid { volume, raid } => {
            make_raid(alloc, geometry, drives, table, *volume, raid)
        }
        Change::MakeMirror { volume, mirror } => make_mirror(alloc, table, *volume, mirror),
        Change::MakeSoft { volume, soft } => {
            make_soft(alloc, geometry, drives, table, *volume, soft)
        }
        Change::Attach { mirror, sub } => attach(alloc, table, *mirror, *sub),
        Change::Detach { mirror, sub, force } => detach(alloc, table, *mirror, *sub, *force),
        Change::Offline { mirror, sub } => take_offline(alloc, table, *mirror, *sub),
        Change::Online { mirror, sub } => take_online(alloc, table, *mirror, *sub),
        Change::EnablePart { volume, part } => {
            enable_part(alloc, geometry, drives, table, *volume, *part)
        }
        Change::ReplacePart { volume, old, new } => {
            replace_part(alloc, geometry, drives, table, *volume, *old, *new)
        }
        Change::AddRow { volume, row } => { add_row(alloc, geometry, drives, table, *volume, row) }
        Change::Grow { volume, blocks } => grow(alloc, geometry, table, *volume, *blocks),
        Change::AddSpares { pool, new, spares } => {
            add_spares(
                alloc,
                geometry,
                drives,
                table,
                *new,
                *pool,
                spares.as_slice(),
            )
        }
        Change::AddSparesToAll { spares } => {
            add_spares_to_all(alloc, geometry, drives, table, spares.as_slice())
        }
        Change::DeleteSpares { pools, spares } => {
            delete_spares(alloc, geometry, drives, table, *pools, spares.as_slice())
        }
        Change::ReplaceSpare { pools, old, new } => {
            replace_spare(alloc, geometry, drives, table, *pools, *old, *new)
        }
        Change::EnableSpares { spares } => {
            enable_spares(alloc, geometry, drives, table, spares.as_slice())
        }
        Change::ClearBelow { volumes, pools } => {
            clear_below(alloc, table, volumes.as_slice(), pools.as_slice())
        }
        Change::Clear { volumes, pools } => {
            clear_named(alloc, table, volumes.as_slice(), pools.as_slice())
        }
        Change::ClearAll => {
            clear_all(alloc, table);
            Ok(())
        }
    }
}

fn make_stripe(
    alloc: Global,
    geometry: &Geometry,
    drives: &[DriveNo],
    table: &mut Table,
    volume: VolId,
    rows: &[RowAsked],
    spares: Option<PoolId>,
) -> Result<(), ApplyFault>
    requires sound { IsSound geometry.now }
    requires number { volume.0 < 8192 }
    ensures { IsApplied geometry.now drives.now (stripe_change volume rows.now spares) table.old table.new result }
{
    let plan = &table.plan;
    if let Some(cause) = refuse_stripe(alloc, geometry, drives, plan, volume, rows, spares)? {
        return Err(ApplyFault::Refused(cause.refusal(Carried::nothing())));
    }
    let made = stripe_on(alloc, geometry, plan, volume, rows, spares)?;
    let status = stripe_status(alloc, volume, rows)?;
    add_volume(table, made, status)?;
    Ok(())
}

fn make_raid(
    alloc: Global,
    geometry: &Geometry,
    drives: &[DriveNo],
    table: &mut Table,
    volume: VolId,
    raid: &RaidAsked,
) -> Result<(), ApplyFault>
    requires sound { IsSound geometry.now }
    requires number { volume.0 < 8192 }
    ensures { IsApplied geometry.now drives.now (raid_change volume raid.now) table.old table.new result }
{
    let plan = &table.plan;
    if let Some(cause) = refuse_raid(alloc, geometry, drives, plan, volume, raid)? {
        return Err(ApplyFault::Refused(cause.refusal(Carried::nothing())));
    }
    let made = raid_on(alloc, geometry, plan, volume, raid)?;
    let status = raid_status(alloc, volume, raid)?;
    add_volume(table, made, status)?;
    Ok(())
}

fn make_mirror(
    alloc: Global,
    table: &mut Table,
    volume: VolId,
    mirror: &MirrorAsked,
) -> Result<(), ApplyFault>
    requires { volume.0 < 8192 }
    ensures { (g : Geometry) (drives : List DriveNo) → IsApplied g drives (mirror_change volume mirror.now) table.old table.new result }
{
    let subs = mirror.submirrors.as_slice();
    if let Some(cause) = refuse_mirror(&table.plan, volume, subs) {
        return Err(ApplyFault::Refused(cause.refusal(Carried::nothing())));
    }
    let made = mirror_on(alloc, &table.plan, volume, mirror)?;
    let status = mirror_status(alloc, volume, subs)?;
    let states = all_joined(alloc, &table.status, subs)?;
    add_volume(table, made, status)?;
    note_all(&mut table.status.volumes, states);
    Ok(())
}

fn make_soft(
    alloc: Global,
    geometry: &Geometry,
    drives: &[DriveNo],
    table: &mut Table,
    volume: VolId,
    soft: &SoftAsked,
) -> Result<(), ApplyFault>
    requires sound { IsSound geometry.now }
    requires number { volume.0 < 8192 }
    ensures { IsApplied geometry.now drives.now (soft_change volume soft.now) table.old table.new result }
{
    if let Some(refusal) = refuse_soft_name(geometry, drives, table, volume, soft) {
        return Err(ApplyFault::Refused(refusal));
    }
    let room = soft_room(alloc, geometry, &table.plan, soft)?;
    if let Some(refusal) = refuse_soft(alloc, geometry, drives, table, volume, soft, &room)? {
        return Err(ApplyFault::Refused(refusal));
    }
    let made = soft_on(alloc, geometry, &table.plan, volume, soft.base, room);
    add_volume(table, made, soft_status(volume))?;
    Ok(())
}

// The refusal that the names give by themselves: it needs no look at what uses the table's slices.
fn refuse_soft_name(
    geometry: &Geometry,
    drives: &[DriveNo],
    table: &Table,
    volume: VolId,
    soft: &SoftAsked,
) -> Option<Refusal>
    requires { IsSound geometry.now }
    ensures { IfSome result (λ refusal. refusal_of geometry.now drives.now table.now (soft_change volume soft.now) ≡ Some refusal) }
{
    if is_missing(&table.plan, soft.base) {
        return Some(Refusal::NoSuchVolume);
    }
    if is_foreign(geometry, drives, soft.base) {
        return Some(Refusal::NoSuchSlice);
    }
    if volume_of(&table.plan, volume).is_some() {
        return Some(Refusal::NameTaken);
    }
    None
}

fn add_row(
    alloc: Global,
    geometry: &Geometry,
    drives: &[DriveNo],
    table: &mut Table,
    volume: VolId,
    row: &RowAsked,
) -> Result<(), ApplyFault>
    requires { IsSound geometry.now }
    ensures { IsApplied geometry.now drives.now (row_change volume row.now) table.old table.new result }
{
    let plan = &table.plan;
    let row = filled(alloc, plan, volume, row)?;
    if let Some(cause) = refuse_add(alloc, geometry, drives, plan, volume, &row)? {
        return Err(ApplyFault::Refused(cause.refusal(Carried::nothing())));
    }
    let made = row_on(alloc, geometry, plan, &row)?;
    let longer = volume_with_row(alloc, plan, volume, made)?;
    let states = added_states(alloc, &table.status, volume, &row)?;
    replace_volume(table, longer);
    note_all(&mut table.status.volumes, states);
    Ok(())
}

fn grow(
    alloc: Global,
    geometry: &Geometry,
    table: &mut Table,
    volume: VolId,
    blocks: u64,
) -> Result<(), ApplyFault>
    requires { IsSound geometry.now }
    ensures { (drives : List DriveNo) → IsApplied geometry.now drives (grow_change volume blocks) table.old table.new result }
{
    let room = grown_room(alloc, geometry, &table.plan, volume, blocks)?;
    if let Some(refusal) = refuse_grow(geometry, table, volume, blocks, &room) {
        return Err(ApplyFault::Refused(refusal));
    }
    let grown = volume_grown(alloc, &table.plan, volume, room)?;
    replace_volume(table, grown);
    Ok(())
}

fn attach(alloc: Global, table: &mut Table, mirror: VolId, sub: VolId) -> Result<(), ApplyFault>
    ensures { (g : Geometry) (drives : List DriveNo) → IsApplied g drives (attach_change mirror sub) table.old table.new result }
{
    if let Some(cause) = refuse_attach(&table.plan, mirror, sub) {
        return Err(ApplyFault::Refused(cause.refusal(Carried::nothing())));
    }
    let volume = mirror_with_sub(alloc, &table.plan, mirror, sub)?;
    let states = attach_states(alloc, &table.status, mirror, sub)?;
    replace_volume(table, volume);
    note_all(&mut table.status.volumes, states);
    Ok(())
}

// Puts the volume in for the one of its number.
pub(crate) fn replace_volume(table: &mut Table, volume: Option<Volume>)
    ensures { table.new ≡ with_changed volume table.old }
{
    if let Some(volume) = volume {
        table.plan.volumes.replace(volume);
    }
}

fn add_spares(
    alloc: Global,
    geometry: &Geometry,
    drives: &[DriveNo],
    table: &mut Table,
    new: bool,
    pool: PoolId,
    slices: &[SliceName],
) -> Result<(), ApplyFault>
    requires sound { IsSound geometry.now }
    requires number { pool.0 < 1000 }
    ensures { IsApplied geometry.now drives.now (spares_change pool new slices.now) table.old table.new result }
{
    let plan = &table.plan;
    if let Some(cause) = refuse_spares(alloc, geometry, drives, plan, new, pool, slices)? {
        return Err(ApplyFault::Refused(cause.refusal(Carried::nothing())));
    }
    let made = pool_with(alloc, geometry, plan, pool, slices)?;
    let states = with_states(alloc, &table.status.spares, slices)?;
    table.plan.pools.put(made)?;
    table.status.spares = states;
    Ok(())
}

fn clear_named(
    alloc: Global,
    table: &mut Table,
    volumes: &[VolId],
    pools: &[PoolId],
) -> Result<(), ApplyFault>
    ensures { (g : Geometry) (drives : List DriveNo) → IsApplied g drives (clear_change volumes.now pools.now) table.old table.new result }
{
    match judge_clear(alloc, table, volumes, pools)? {
        Ok(lost) => {
            clear(alloc, table, volumes, pools, lost.as_slice())?;
            Ok(())
        }
        Err(cause) => Err(ApplyFault::Refused(cause.refusal(Carried::nothing()))),
    }
}

fn clear_below(
    alloc: Global,
    table: &mut Table,
    volumes: &[VolId],
    pools: &[PoolId],
) -> Result<(), ApplyFault>
    ensures { (g : Geometry) (drives : List DriveNo) → IsApplied g drives (below_change volumes.now pools.now) table.old table.new result }
{
    if let Some(cause) = refuse_names(table, volumes, pools) {
        return Err(ApplyFault::Refused(cause.refusal(Carried::nothing())));
    }
    let all = with_levels(alloc, &table.plan, volumes)?;
    match judge_clear(alloc, table, all.as_slice(), pools)? {
        Ok(lost) => {
            clear(alloc, table, all.as_slice(), pools, lost.as_slice())?;
            Ok(())
        }
        Err(cause) => Err(ApplyFault::Refused(cause.refusal(Carried::nothing()))),
    }
}

// The volume and its states, or neither.
fn add_volume(table: &mut Table, volume: Volume, status: VolumeStatus) -> Result<(), AllocError>
    requires volume { volume.number.0 < 8192 }
    requires status { status.number.0 < 8192 }
    requires fresh { find (λ w. w.number.0 == volume.number.0) table.old.plan.volumes ≡ None }
    ensures ok { OnOk result (table.new ≡ with_volume volume status table.old) }
    ensures err { OnErr result (table.new ≡ table.old) }
{
    let number = u32::from(volume.number.0);
    table.plan.volumes.insert(volume)?;
    match table.status.volumes.put(status) {
        Ok(()) => Ok(()),
        Err(error) => {
            table.plan.volumes.remove(number);
            Err(error)
        }
    }
}

impl From<AllocError> for ApplyFault {
    ghost from_gives = { λ _ fault. fault ≡ Memory };

    fn from(_error: AllocError) -> ApplyFault {
        ApplyFault::Memory
    }
}
