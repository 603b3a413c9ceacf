//! The volumes that lie below others, level by level.
ghost use Rattle.std.specs.Prelude.{◌≡◌, ◌++◌, filter, Some, IfOk, IfSome, OnOk};
ghost use Rattle.std.specs.List.{flat_map};
ghost use Rattle.mdv_change.specs.Below.{first_of, order};
ghost use Rattle.mdv_change.specs.Clear.{clear_condition};
ghost use Rattle.mdv_change.specs.Levels.{below_of, falls_by, falls as spec_falls, with_level as spec_with_level, with_levels as spec_with_levels};

use crate::clearing::{has_no_pool, has_no_volume};
use mdv_base::{PoolId, VolId};
use mdv_components::{Cause, volume_of};
use mdv_keys::{VolumeMarks, used_beside, volumes_marked};
use mdv_plan::{Plan, Table, add_named};
use std::alloc::{AllocError, Global};

fn add_below(list: &mut Vec<VolId>, plan: &Plan, volume: VolId) -> Result<(), AllocError>
    ensures { OnOk result (list.new.items ≡ list.old.items ++ below_of plan.now volume) }
{
    match volume_of(plan, volume) {
        Some(volume) => add_named(list, &volume.kind),
        None => Ok(()),
    }
}

fn all_below(alloc: Global, plan: &Plan, volumes: &[VolId]) -> Result<Vec<VolId>, AllocError>
    ensures { IfOk result (λ list. list.items ≡ flat_map (below_of plan.now) volumes.now) }
{
    let mut list = Vec::new(alloc);
    for volume in volumes {
        add_below(&mut list, plan, *volume)?;
    }
    Ok(list)
}

// Whether it is there and has neither mark.
fn falls(plan: &Plan, named: &VolumeMarks, used: &VolumeMarks, volume: VolId) -> bool
    ensures { result ≡ falls_by plan.now named.now used.now volume }
{
    volume_of(plan, volume).is_some() && (!named.has(volume.0) && !used.has(volume.0))
}

// Those of the list that fall by these marks.
fn unmarked(
    alloc: Global,
    plan: &Plan,
    named: &VolumeMarks,
    used: &VolumeMarks,
    list: &[VolId],
) -> Result<Vec<VolId>, AllocError>
    ensures { IfOk result (λ fall. fall.items ≡ filter (falls_by plan.now named.now used.now) list.now) }
{
    list.iter()
        .copied()
        .filter(|volume| falls(plan, named, used, *volume))
        .collect(alloc)
}

// Those of the list that aren't among the volumes, and that only they use.
fn falling(
    alloc: Global,
    plan: &Plan,
    volumes: &[VolId],
    list: &[VolId],
) -> Result<Vec<VolId>, AllocError>
    ensures { IfOk result (λ fall. fall.items ≡ filter (spec_falls plan.now volumes.now) list.now) }
{
    let named = volumes_marked(alloc, volumes)?;
    let used = used_beside(alloc, plan.volumes.as_slice(), &named)?;
    let fall = unmarked(alloc, plan, &named, &used, list)?;
    Ok(fall)
}

fn with_level(alloc: Global, plan: &Plan, volumes: &[VolId]) -> Result<Vec<VolId>, AllocError>
    ensures { IfOk result (λ list. list.items ≡ spec_with_level plan.now volumes.now) }
{
    let below = all_below(alloc, plan, volumes)?;
    let level = falling(alloc, plan, volumes, below.as_slice())?;
    let mut list = Vec::from_slice(alloc, volumes)?;
    list.extend_from_slice(level.as_slice())?;
    Ok(list)
}

/// The volumes with all that lie below them and that nothing else uses.
pub(crate) fn with_levels(
    alloc: Global,
    plan: &Plan,
    volumes: &[VolId],
) -> Result<Vec<VolId>, AllocError>
    ensures { IfOk result (λ list. list.items ≡ spec_with_levels plan.now volumes.now) }
{
    let first = with_level(alloc, plan, volumes)?;
    let second = with_level(alloc, plan, first.as_slice())?;
    with_level(alloc, plan, second.as_slice())
}

/// The first cause that look-ups of the names give against a clearing of the volumes, of all below them, and of the pools.
pub(crate) fn refuse_names(table: &Table, volumes: &[VolId], pools: &[PoolId]) -> Option<Cause>
    ensures { IfSome result (λ cause. first_of (clear_condition table.now (spec_with_levels table.now.plan volumes.now) pools.now) order ≡ Some cause) }
{
    let plan = &table.plan;
    if has_no_volume(plan, volumes) {
        return Some(Cause::NoSuchVolume);
    }
    if has_no_pool(plan, pools) {
        return Some(Cause::NoSuchPool);
    }
    None
}
