//! From where soft partitions count their extents.
ghost use Rattle.std.specs.Prelude.{◌≡◌, ◌↔◌, ℕ, IsTrue, IfOk, OnOk};
ghost use Rattle.std.specs.List.{list_all};
ghost use Rattle.mdv_fitting.specs.Below.{IsSound};
ghost use Rattle.mdv_fitting.specs.Held.{held};
ghost use Rattle.mdv_fitting.specs.Slices.{AreSlices};
ghost use Rattle.mdv_fitting.specs.Keys.{start_at};
ghost use Rattle.mdv_fitting.specs.OnBases.{AreOnBases, may_count as spec_may_count, is_kind_counted as spec_is_kind_counted, is_counted as spec_is_counted};
ghost use Rattle.mdv_fitting.specs.Starts.{HasStart, is_joined_in, is_kind_joined as spec_is_kind_joined, is_joined as spec_is_joined};

use crate::extents::are_apart;
use crate::held::Held;
use crate::key::base_key;
use crate::parts::may_start_at;
use crate::slices::{Slices, slice_in};
use mdv_name::Geometry;
use mdv_plan::{Base, Lists, Plan, Volume, VolumeKind};
use std::alloc::{AllocError, Global};

// From which block extents are counted on each base, by the base's number.
type Starts = Held<u64>;

fn may_count(geometry: &Geometry, slices: &Slices, lists: &Lists, base: Base, start: u64) -> bool
    requires sound { IsSound geometry.now }
    requires slices { AreSlices geometry.now slices.now }
    ensures { result ≡ spec_may_count geometry.now lists.now base start }
{
    match base {
        Base::Slice(slice) => may_start_at(lists, slice, start, slice_in(geometry, slices, slice)),
        Base::Volume(_) => start == 0,
    }
}

fn is_kind_counted(geometry: &Geometry, slices: &Slices, lists: &Lists, kind: &VolumeKind) -> bool
    requires sound { IsSound geometry.now }
    requires slices { AreSlices geometry.now slices.now }
    ensures { result ≡ spec_is_kind_counted geometry.now lists.now kind.now }
{
    match kind {
        VolumeKind::Soft(soft) => may_count(geometry, slices, lists, soft.base, soft.start),
        _ => true,
    }
}

fn is_counted(geometry: &Geometry, slices: &Slices, lists: &Lists, volume: &Volume) -> bool
    requires sound { IsSound geometry.now }
    requires slices { AreSlices geometry.now slices.now }
    ensures { result ≡ spec_is_counted geometry.now lists.now volume.now }
{
    is_kind_counted(geometry, slices, lists, &volume.kind)
}

/// Whether each soft partition counts its extents from a block from which it may.
pub(crate) fn are_counted(geometry: &Geometry, slices: &Slices, plan: &Plan) -> bool
    requires sound { IsSound geometry.now }
    requires slices { AreSlices geometry.now slices.now }
    ensures { result ≡ list_all (spec_is_counted geometry.now plan.now.lists) plan.now.volumes }
{
    let volumes = plan.volumes.as_slice();
    volumes
        .iter()
        .all(|volume| is_counted(geometry, slices, &plan.lists, volume))
}

fn add_start(starts: &mut Starts, kind: &VolumeKind) -> Result<(), AllocError>
    ensures { OnOk result (HasStart starts.old kind.now starts.new) }
{
    if let VolumeKind::Soft(soft) = kind {
        starts.add(base_key(soft.base), soft.start)?;
    }
    Ok(())
}

fn first_starts(alloc: Global, volumes: &[Volume]) -> Result<Starts, AllocError>
    ensures { IfOk result (λ starts. (k : ℕ) → held starts k ≡ start_at k volumes.now) }
{
    let mut starts = Held::new(alloc)?;
    for volume in volumes {
        add_start(&mut starts, &volume.kind)?;
    }
    Ok(starts)
}

fn is_kind_joined(starts: &Starts, kind: &VolumeKind) -> bool
    ensures { result ≡ spec_is_kind_joined starts.now kind.now }
{
    match kind {
        VolumeKind::Soft(soft) => match starts.get(base_key(soft.base)) {
            Some(start) => start == soft.start,
            None => false,
        },
        _ => true,
    }
}

fn is_joined(starts: &Starts, volume: &Volume) -> bool
    ensures { result ≡ spec_is_joined starts.now volume.now }
{
    is_kind_joined(starts, &volume.kind)
}

fn all_joined(starts: &Starts, volumes: &[Volume]) -> bool
    ensures { result ≡ list_all (spec_is_joined starts.now) volumes.now }
{
    volumes.iter().all(|volume| is_joined(starts, volume))
}

// Whether each soft partition counts its extents from where the first one on its base does.
fn are_joined(alloc: Global, volumes: &[Volume]) -> Result<bool, AllocError>
    ensures { IfOk result (λ yes. yes ≡ list_all (is_joined_in volumes.now) volumes.now) }
{
    let starts = first_starts(alloc, volumes)?;
    Ok(all_joined(&starts, volumes))
}

/// Whether all soft partitions lie on their bases, in whatever order their extents come. The work is linear in the soft
/// partitions, with look-ups of bases, and sorts the extents on each base.
pub(crate) fn are_on_bases(
    alloc: Global,
    geometry: &Geometry,
    slices: &Slices,
    plan: &Plan,
) -> Result<bool, AllocError>
    requires sound { IsSound geometry.now }
    requires slices { AreSlices geometry.now slices.now }
    ensures { IfOk result (λ yes. IsTrue yes ↔ AreOnBases geometry.now plan.now) }
{
    if !are_counted(geometry, slices, plan) {
        return Ok(false);
    }
    if !are_joined(alloc, plan.volumes.as_slice())? {
        return Ok(false);
    }
    are_apart(alloc, geometry, slices, plan)
}
