//! Soft partitions whose extents come in order on each base, those of volumes made one after another: they are judged as
//! they come, without being gathered.
ghost use Rattle.std.specs.Prelude.{◌≡◌, ◌↔◌, ◌<◌, true, IsTrue, IfOk, IfSome};
ghost use Rattle.mdv_extent.specs.Extents.{IsExtent};
ghost use Rattle.mdv_fitting.specs.Below.{IsSound};
ghost use Rattle.mdv_fitting.specs.Climb.{Climbs, KindClimbs, SoftClimbs, LastOn};
ghost use Rattle.mdv_fitting.specs.OnBases.{AreOnBases, may_count};
ghost use Rattle.mdv_fitting.specs.Runs.{size_from};
ghost use Rattle.mdv_fitting.specs.Slices.{AreSlices};

use crate::bases::are_on_bases;
use crate::extents::{blocks_behind, volume_blocks};
use crate::held::Held;
use crate::key::base_key;
use crate::parts::may_start_at;
use crate::slices::{Slices, slice_in};
use mdv_extent::Run;
use mdv_name::Geometry;
use mdv_plan::{Base, Plan, Soft, Volume, VolumeKind};
use std::alloc::{AllocError, Global};

// From where extents are counted on a base, and where the last one ends.
#[derive(Clone, Copy)]
pub(crate) struct Last {
    pub(crate) start: u64,
    pub(crate) end: u64,
}

// By the base's number.
type Lasts = Held<Last>;

// The last one on the base. Where there is none, extents are counted from there.
fn last_on(lasts: &Lasts, key: u64, start: u64) -> Last
    ensures { LastOn lasts.now key start result }
{
    match lasts.get(key) {
        Some(last) => last,
        None => Last { start, end: 0 },
    }
}

fn is_behind(run: Run, end: u64, blocks: u64) -> bool
    ensures { IsTrue result → (end < run.at) × IsExtent blocks run }
{
    end < run.at && 0 < run.blocks && run.at <= blocks && run.blocks <= blocks - run.at
}

// Where the extents end, if each lies behind the one in front.
fn climb(blocks: u64, end: u64, runs: &[Run]) -> Option<u64>
    ensures { IfSome result (λ last. Climbs blocks end last runs.now) }
{
    let mut last = end;
    for run in runs {
        if !is_behind(*run, last, blocks) {
            return None;
        }
        last = run.at + run.blocks;
    }
    Some(last)
}

// How many blocks the base has from there on, if extents may be counted from there.
fn size_if_counted(
    geometry: &Geometry,
    slices: &Slices,
    plan: &Plan,
    base: Base,
    start: u64,
) -> Option<u64>
    requires sound { IsSound geometry.now }
    requires slices { AreSlices geometry.now slices.now }
    ensures counted { IfSome result (λ _. may_count geometry.now plan.now.lists base start ≡ true) }
    ensures size { IfSome result (λ blocks. blocks ≡ size_from geometry.now plan.now base start) }
{
    match base {
        Base::Slice(slice) => {
            let at = slice_in(geometry, slices, slice);
            if !may_start_at(&plan.lists, slice, start, at) {
                return None;
            }
            Some(blocks_behind(start, at))
        }
        Base::Volume(volume) => {
            if start != 0 {
                return None;
            }
            Some(volume_blocks(plan, volume))
        }
    }
}

fn climb_soft(
    geometry: &Geometry,
    slices: &Slices,
    plan: &Plan,
    lasts: &mut Lasts,
    soft: &Soft,
) -> Result<bool, AllocError>
    requires sound { IsSound geometry.now }
    requires slices { AreSlices geometry.now slices.now }
    ensures { IfOk result (λ yes. IsTrue yes → SoftClimbs geometry.now plan.now lasts.old soft.now lasts.new) }
{
    let start = soft.start;
    let Some(size) = size_if_counted(geometry, slices, plan, soft.base, start) else {
        return Ok(false);
    };
    let key = base_key(soft.base);
    let last = last_on(lasts, key, start);
    if last.start != start {
        return Ok(false);
    }
    let Some(end) = climb(size, last.end, soft.extents.as_slice()) else {
        return Ok(false);
    };
    lasts.put(key, Last { start, end })?;
    Ok(true)
}

fn climb_volume(
    geometry: &Geometry,
    slices: &Slices,
    plan: &Plan,
    lasts: &mut Lasts,
    volume: &Volume,
) -> Result<bool, AllocError>
    requires sound { IsSound geometry.now }
    requires slices { AreSlices geometry.now slices.now }
    ensures { IfOk result (λ yes. IsTrue yes → KindClimbs geometry.now plan.now lasts.old volume.now.kind lasts.new) }
{
    match &volume.kind {
        VolumeKind::Soft(soft) => climb_soft(geometry, slices, plan, lasts, soft),
        _ => Ok(true),
    }
}

fn all_climb(
    alloc: Global,
    geometry: &Geometry,
    slices: &Slices,
    plan: &Plan,
) -> Result<bool, AllocError>
    requires sound { IsSound geometry.now }
    requires slices { AreSlices geometry.now slices.now }
    ensures { IfOk result (λ yes. IsTrue yes → AreOnBases geometry.now plan.now) }
{
    let mut lasts = Held::new(alloc)?;
    for volume in plan.volumes.as_slice() {
        if !climb_volume(geometry, slices, plan, &mut lasts, volume)? {
            return Ok(false);
        }
    }
    Ok(true)
}

/// Whether all soft partitions lie on their bases: counted from one block on each base, with extents apart. They are
/// gathered by bases and sorted only where some don't come in order.
pub(crate) fn lie_on_bases(
    alloc: Global,
    geometry: &Geometry,
    slices: &Slices,
    plan: &Plan,
) -> Result<bool, AllocError>
    requires sound { IsSound geometry.now }
    requires slices { AreSlices geometry.now slices.now }
    ensures { IfOk result (λ yes. IsTrue yes ↔ AreOnBases geometry.now plan.now) }
{
    if all_climb(alloc, geometry, slices, plan)? {
        return Ok(true);
    }
    are_on_bases(alloc, geometry, slices, plan)
}
