//! The clearing of volumes and pools: what refuses it, and what is left.
ghost use Rattle.std.specs.Prelude.{◌≡◌, ◌++◌, false, slice_index_or, None, Some, IfErr, IfOk, OnOk, OnErr};
ghost use Rattle.std.specs.List.{flat_map, list_any};
ghost use Rattle.mdv_change.specs.Below.{first_of, order};
ghost use Rattle.mdv_change.specs.Clear.{clear_condition, is_no_volume as spec_is_no_volume, is_no_pool as spec_is_no_pool};
ghost use Rattle.mdv_change.specs.Clear.{is_named_pool as spec_is_named_pool, is_left_with as spec_is_left_with};
ghost use Rattle.mdv_change.specs.Clear.{part_spare, parts_of as spec_parts_of, used_spares as spec_used_spares, available as spec_available, given_back};
ghost use Rattle.mdv_change.specs.Clear.{has_spare as spec_has_spare, is_kept_with as spec_is_kept_with, is_kept_spare as spec_is_kept_spare};
ghost use Rattle.mdv_change.specs.Clear.{lost_spare as spec_lost_spare, lost_of as spec_lost_of, lost_spares as spec_lost_spares, spares_under as spec_spares_under};
ghost use Rattle.mdv_change.specs.Clear.{cleared, emptied};

use crate::seats::has_left_on;
use mdv_base::{PoolId, SliceName, VolId};
use mdv_components::{Cause, pool_of, volume_of};
use mdv_keys::{
    PoolMarks, VolumeMarks, pools_beside, pools_marked, remove_all, remove_marked, used_beside,
    volumes_marked,
};
use mdv_plan::{
    Keyed, KindStatus, PartStatus, Plan, Pool, Sorted, Spare, SpareState, SpareStatus, Status,
    Table, same_slice,
};
use std::alloc::{AllocError, Global};

/// The spares that go with the pools, by their numbers, or the first cause for which volumes and pools can't be cleared.
pub(crate) fn judge_clear(
    alloc: Global,
    table: &Table,
    volumes: &[VolId],
    pools: &[PoolId],
) -> Result<Result<Vec<u32>, Cause>, AllocError>
    ensures free { IfOk result (λ judged. IfOk judged (λ lost. first_of (clear_condition table.now volumes.now pools.now) order ≡ None)) }
    ensures lost { IfOk result (λ judged. IfOk judged (λ lost. lost.items ≡ spec_lost_spares table.now.plan pools.now)) }
    ensures cause { IfOk result (λ judged. IfErr judged (λ cause. first_of (clear_condition table.now volumes.now pools.now) order ≡ Some cause)) }
{
    let plan = &table.plan;
    if has_no_volume(plan, volumes) {
        return Ok(Err(Cause::NoSuchVolume));
    }
    if has_no_pool(plan, pools) {
        return Ok(Err(Cause::NoSuchPool));
    }
    if has_user(alloc, plan, volumes, pools)? {
        return Ok(Err(Cause::HasParent));
    }
    let lost = lost_spares(alloc, plan, pools)?;
    if has_left_on(alloc, &table.status, volumes, lost.as_slice())? {
        return Ok(Err(Cause::SpareInUse));
    }
    Ok(Ok(lost))
}

fn is_no_volume(plan: &Plan, volume: VolId) -> bool
    ensures { result ≡ spec_is_no_volume plan.now volume }
{
    volume_of(plan, volume).is_none()
}

pub(crate) fn has_no_volume(plan: &Plan, volumes: &[VolId]) -> bool
    ensures { result ≡ list_any (spec_is_no_volume plan.now) volumes.now }
{
    volumes.iter().any(|volume| is_no_volume(plan, *volume))
}

fn is_no_pool(plan: &Plan, pool: PoolId) -> bool
    ensures { result ≡ spec_is_no_pool plan.now pool }
{
    pool_of(plan, pool).is_none()
}

pub(crate) fn has_no_pool(plan: &Plan, pools: &[PoolId]) -> bool
    ensures { result ≡ list_any (spec_is_no_pool plan.now) pools.now }
{
    pools.iter().any(|pool| is_no_pool(plan, *pool))
}

fn is_named_pool(pools: &[PoolId], pool: PoolId) -> bool
    ensures { result ≡ spec_is_named_pool pools.now pool }
{
    pools.iter().any(|named| named.0 == pool.0)
}

fn has_marked(marks: &VolumeMarks, volumes: &[VolId]) -> bool
    ensures { result ≡ list_any (λ v. slice_index_or marks.now v.0 false) volumes.now }
{
    volumes.iter().any(|volume| marks.has(volume.0))
}

fn has_marked_pool(marks: &PoolMarks, pools: &[PoolId]) -> bool
    ensures { result ≡ list_any (λ q. slice_index_or marks.now q.0 false) pools.now }
{
    pools.iter().any(|pool| marks.has(pool.0))
}

// Whether a volume that stays uses one of them. All that such volumes use is marked, so that each is looked at once.
fn has_user(
    alloc: Global,
    plan: &Plan,
    volumes: &[VolId],
    pools: &[PoolId],
) -> Result<bool, AllocError>
    requires volumes { list_any (spec_is_no_volume plan.now) volumes.now ≡ false }
    requires pools { list_any (spec_is_no_pool plan.now) pools.now ≡ false }
    ensures { IfOk result (λ has. has ≡ list_any (spec_is_left_with volumes.now pools.now) plan.now.volumes) }
{
    let named = volumes_marked(alloc, volumes)?;
    let users = plan.volumes.as_slice();
    let _pools = plan.pools.as_slice();
    let used = used_beside(alloc, users, &named)?;
    let used_pools = pools_beside(alloc, users, &named)?;
    Ok(has_marked(&used, volumes) || has_marked_pool(&used_pools, pools))
}

/// Takes out the volumes and pools, with their states. The numbers are of the spares that go with the pools.
pub(crate) fn clear(
    alloc: Global,
    table: &mut Table,
    volumes: &[VolId],
    pools: &[PoolId],
    lost: &[u32],
) -> Result<(), AllocError>
    requires { lost.now ≡ spec_lost_spares table.old.plan pools.now }
    ensures ok { OnOk result (table.new ≡ cleared volumes.now pools.now table.old) }
    ensures err { OnErr result (table.new ≡ table.old) }
{
    let named = volumes_marked(alloc, volumes)?;
    let named_pools = pools_marked(alloc, pools)?;
    let used = used_spares(alloc, &table.status, volumes)?;
    remove_marked(&mut table.plan.volumes, &named);
    remove_marked(&mut table.plan.pools, &named_pools);
    remove_marked(&mut table.status.volumes, &named);
    give_back(&mut table.status.spares, used.as_slice());
    remove_all(&mut table.status.spares, lost);
    Ok(())
}

/// Takes out all volumes and pools, with their states.
pub(crate) fn clear_all(alloc: Global, table: &mut Table)
    ensures { table.new ≡ emptied table.old }
{
    table.plan.pools = Sorted::new(alloc);
    table.plan.volumes = Sorted::new(alloc);
    table.status = Status {
        volumes: Sorted::new(alloc),
        spares: Sorted::new(alloc),
    };
}

pub(crate) fn parts_of(kind: &KindStatus) -> &[PartStatus]
    ensures { result.now ≡ spec_parts_of kind.now }
{
    match kind {
        KindStatus::Stripe(parts) => parts.as_slice(),
        KindStatus::Raid(raid) => raid.columns.as_slice(),
        _ => &[],
    }
}

// Adds the spares on which components lie.
fn add_spares(slices: &mut Vec<SliceName>, parts: &[PartStatus]) -> Result<(), AllocError>
    ensures { OnOk result (slices.new.items ≡ slices.old.items ++ flat_map part_spare parts.now) }
{
    for part in parts {
        if let Some(spare) = part.spare {
            slices.push(spare.slice)?;
        }
    }
    Ok(())
}

fn add_used(slices: &mut Vec<SliceName>, status: &Status, volume: VolId) -> Result<(), AllocError>
    ensures { OnOk result (slices.new.items ≡ slices.old.items ++ spec_spares_under status.now volume) }
{
    match status.volumes.find(u32::from(volume.0)) {
        Some(state) => add_spares(slices, parts_of(&state.kind)),
        None => Ok(()),
    }
}

fn used_spares(
    alloc: Global,
    status: &Status,
    volumes: &[VolId],
) -> Result<Vec<SliceName>, AllocError>
    ensures { IfOk result (λ slices. slices.items ≡ spec_used_spares status.now volumes.now) }
{
    let mut slices = Vec::new(alloc);
    for volume in volumes {
        add_used(&mut slices, status, *volume)?;
    }
    Ok(slices)
}

pub(crate) fn available(slice: SliceName) -> SpareStatus
    ensures { result ≡ spec_available slice }
{
    SpareStatus {
        slice,
        state: SpareState::Available,
    }
}

pub(crate) fn give_back<const LIMIT: usize>(
    spares: &mut Sorted<SpareStatus, LIMIT>,
    slices: &[SliceName],
)
    ensures { spares.new ≡ given_back spares.old slices.now }
{
    for slice in slices {
        spares.replace(available(*slice));
    }
}

fn has_spare(pool: &Pool, slice: SliceName) -> bool
    ensures { result ≡ spec_has_spare slice pool.now }
{
    let spares = pool.spares.as_slice();
    spares.iter().any(|spare| same_slice(spare.slice, slice))
}

fn is_kept_with(pools: &[PoolId], slice: SliceName, pool: &Pool) -> bool
    ensures { result ≡ spec_is_kept_with pools.now slice pool.now }
{
    !is_named_pool(pools, pool.number) && has_spare(pool, slice)
}

// Whether a pool that stays has the spare.
fn is_kept_spare(plan: &Plan, pools: &[PoolId], slice: SliceName) -> bool
    ensures { result ≡ spec_is_kept_spare plan.now pools.now slice }
{
    let all = plan.pools.as_slice();
    all.iter().any(|pool| is_kept_with(pools, slice, pool))
}

fn add_lost(
    keys: &mut Vec<u32>,
    plan: &Plan,
    pools: &[PoolId],
    spares: &[Spare],
) -> Result<(), AllocError>
    ensures { OnOk result (keys.new.items ≡
        keys.old.items ++ flat_map (spec_lost_spare plan.now pools.now) spares.now) }
{
    for spare in spares {
        if !is_kept_spare(plan, pools, spare.slice) {
            keys.push(available(spare.slice).key())?;
        }
    }
    Ok(())
}

fn add_lost_of(
    keys: &mut Vec<u32>,
    plan: &Plan,
    pools: &[PoolId],
    pool: PoolId,
) -> Result<(), AllocError>
    ensures { OnOk result (keys.new.items ≡ keys.old.items ++ spec_lost_of plan.now pools.now pool) }
{
    match pool_of(plan, pool) {
        Some(pool) => add_lost(keys, plan, pools, pool.spares.as_slice()),
        None => Ok(()),
    }
}

fn lost_spares(alloc: Global, plan: &Plan, pools: &[PoolId]) -> Result<Vec<u32>, AllocError>
    ensures { IfOk result (λ keys. keys.items ≡ spec_lost_spares plan.now pools.now) }
{
    let mut keys = Vec::new(alloc);
    for pool in pools {
        add_lost_of(&mut keys, plan, pools, *pool)?;
    }
    Ok(keys)
}
