//! Whether the extents on each base lie apart.
ghost use Rattle.std.specs.Prelude.{◌≡◌, ◌↔◌, ◌++◌, ◌==◌, ℕ, [], All, IsTrue, IfOk, OnOk, if◌then◌else◌};
ghost use Rattle.mdv_fitting.specs.Below.{IsSound, LieApart, blocks_behind as spec_blocks_behind, volume_blocks as spec_volume_blocks, volume_of as spec_volume_of};
ghost use Rattle.mdv_fitting.specs.Keys.{base_key as spec_base_key};
ghost use Rattle.mdv_fitting.specs.Slices.{AreSlices};
ghost use Rattle.mdv_fitting.specs.Runs.{items_at, AreRuns, HasRuns, HasNoRuns, size_from as spec_size_from, soft_size, IsVolumeApart, AreSameSize, Judges};

use crate::key::base_key;
use crate::slices::{Slices, slice_in};
use mdv_base::VolId;
use mdv_components::volume_of;
use mdv_extent::{Run, lie_apart};
use mdv_name::{Geometry, SliceAt};
use mdv_plan::{Base, Plan, Soft, Volume, VolumeKind};
use mdv_softs::kind_blocks;
use std::alloc::{AllocError, Global};
use std::collections::BTreeMap;

// The extents of all soft partitions on each base, by the base's number.
type Runs = BTreeMap<u64, Vec<Run>>;

// Takes out those on one base.
fn take_runs(alloc: Global, runs: &mut Runs, key: u64) -> Vec<Run>
    ensures taken { result.items ≡ items_at runs.old key }
    ensures left { HasNoRuns runs.old key runs.new }
{
    match runs.remove(&key) {
        Some(list) => list,
        None => Vec::new(alloc),
    }
}

fn add_soft(alloc: Global, runs: &mut Runs, soft: &Soft) -> Result<(), AllocError>
    ensures { OnOk result ((k : ℕ) → items_at runs.new k ≡
        items_at runs.old k ++ (if spec_base_key soft.now.base == k then soft.now.extents else [])) }
{
    let key = base_key(soft.base);
    let mut list = take_runs(alloc, runs, key);
    list.extend_from_slice(soft.extents.as_slice())?;
    runs.insert(key, list)?;
    Ok(())
}

fn add_runs(alloc: Global, runs: &mut Runs, kind: &VolumeKind) -> Result<(), AllocError>
    ensures { OnOk result (HasRuns runs.old kind.now runs.new) }
{
    match kind {
        VolumeKind::Soft(soft) => add_soft(alloc, runs, soft),
        _ => Ok(()),
    }
}

fn runs_by_base(alloc: Global, volumes: &[Volume]) -> Result<Runs, AllocError>
    ensures { IfOk result (AreRuns volumes.now) }
{
    let mut runs = BTreeMap::new(alloc);
    for volume in volumes {
        add_runs(alloc, &mut runs, &volume.kind)?;
    }
    Ok(runs)
}

/// How many blocks a slice that lies there has behind that one.
pub(crate) fn blocks_behind(start: u64, at: Option<SliceAt>) -> u64
    ensures { result ≡ spec_blocks_behind start at }
{
    match at {
        Some(at) => at.blocks.saturating_sub(start),
        None => 0,
    }
}

/// How many blocks the volume has.
pub(crate) fn volume_blocks(plan: &Plan, volume: VolId) -> u64
    ensures { result ≡ spec_volume_blocks (spec_volume_of plan.now volume) }
{
    match volume_of(plan, volume) {
        Some(volume) => kind_blocks(&volume.kind),
        None => 0,
    }
}

fn size_from(geometry: &Geometry, slices: &Slices, plan: &Plan, base: Base, start: u64) -> u64
    requires sound { IsSound geometry.now }
    requires slices { AreSlices geometry.now slices.now }
    ensures { result ≡ spec_size_from geometry.now plan.now base start }
{
    match base {
        Base::Slice(slice) => blocks_behind(start, slice_in(geometry, slices, slice)),
        Base::Volume(volume) => volume_blocks(plan, volume),
    }
}

// Whether the extents on its base lie apart, where no soft partition in front has taken them out.
fn is_soft_apart(
    alloc: Global,
    geometry: &Geometry,
    slices: &Slices,
    plan: &Plan,
    runs: &mut Runs,
    soft: &Soft,
) -> Result<bool, AllocError>
    requires sound { IsSound geometry.now }
    requires slices { AreSlices geometry.now slices.now }
    ensures apart { IfOk result (λ yes. IsTrue yes ↔
        LieApart (soft_size geometry.now plan.now soft.now) (items_at runs.old (spec_base_key soft.now.base))) }
    ensures left { HasNoRuns runs.old (spec_base_key soft.now.base) runs.new }
{
    let list = take_runs(alloc, runs, base_key(soft.base));
    let size = size_from(geometry, slices, plan, soft.base, soft.start);
    lie_apart(alloc, size, list.as_slice())
}

fn is_apart(
    alloc: Global,
    geometry: &Geometry,
    slices: &Slices,
    plan: &Plan,
    runs: &mut Runs,
    volume: &Volume,
) -> Result<bool, AllocError>
    requires sound { IsSound geometry.now }
    requires slices { AreSlices geometry.now slices.now }
    ensures { IfOk result (Judges geometry.now plan.now runs.old volume.now.kind runs.new) }
{
    match &volume.kind {
        VolumeKind::Soft(soft) => is_soft_apart(alloc, geometry, slices, plan, runs, soft),
        _ => Ok(true),
    }
}

/// Whether the extents of all soft partitions on each base lie apart. Each base is judged once.
pub(crate) fn are_apart(
    alloc: Global,
    geometry: &Geometry,
    slices: &Slices,
    plan: &Plan,
) -> Result<bool, AllocError>
    requires sound { IsSound geometry.now }
    requires slices { AreSlices geometry.now slices.now }
    requires sizes { AreSameSize geometry.now plan.now }
    ensures { IfOk result (λ yes. IsTrue yes ↔
        All (IsVolumeApart geometry.now plan.now) plan.now.volumes) }
{
    let mut runs = runs_by_base(alloc, plan.volumes.as_slice())?;
    for volume in plan.volumes.as_slice() {
        if !is_apart(alloc, geometry, slices, plan, &mut runs, volume)? {
            return Ok(false);
        }
    }
    Ok(true)
}
