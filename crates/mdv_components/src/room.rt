//! From which block on a new component has its blocks, and how many it can have.
ghost use Rattle.std.specs.Prelude.{◌≡◌, ◌≤◌, ◌^◌, min, sum_by, length, map, IfOk};
ghost use Rattle.mdv_components.specs.Room.{least_room as spec_least_room, interlace_of as spec_interlace_of};
ghost use Rattle.mdv_components.specs.Room.{is_bad_interlace as spec_is_bad_interlace, component_on as spec_component_on};
ghost use Rattle.mdv_components.specs.Room.{okay_part as spec_okay_part};
ghost use Rattle.mdv_plan.specs.Slices.{IsSound};
ghost use Rattle.mdv_components.specs.Room.{behind as spec_behind, behind_all as spec_behind_all};
ghost use Rattle.mdv_components.specs.Room.{behind_replicas as spec_behind_replicas, first_block as spec_first_block};
ghost use Rattle.mdv_components.specs.Room.{run_blocks, kind_blocks as spec_kind_blocks, start_of as spec_start_of, room_of as spec_room_of, volume_blocks as spec_volume_blocks};
ghost use Rattle.mdv_components.specs.Bases.{volume_of as spec_volume_of};

use crate::bases::volume_of;
use mdv_base::{Place, Places, SliceName, VolId};
use mdv_extent::Run;
use mdv_name::{Geometry, SliceAt};
use mdv_plan::{
    Base, Component, Listed, Lists, PartStatus, Plan, State, VolumeKind, same_slice, slice_at,
};
use std::alloc::{AllocError, Global};

// No more blocks of a soft partition count.
const MOST_BLOCKS: u64 = 1 << 63;

// The interlace where none is asked for, the least and the greatest one.
const DEFAULT_INTERLACE: u64 = 32;

const LEAST_INTERLACE: u64 = 16;

const MOST_INTERLACE: u64 = 204800;

// A boot looks for the first replica of a slice at the block before this one.
const BEHIND_FIRST: u64 = 17;

fn behind(slice: SliceName, block: u64, place: &Place) -> u64
    ensures { result ≡ spec_behind slice block place.now }
{
    if same_slice(place.slice, slice) {
        block.max(u64::from(place.start) + u64::from(place.blocks))
    } else {
        block
    }
}

fn behind_all(slice: SliceName, block: u64, places: &Places) -> u64
    ensures { result ≡ spec_behind_all slice block places.now }
{
    let mut last = block;
    for place in places.as_slice() {
        last = behind(slice, last, place);
    }
    last
}

fn behind_replicas(lists: &Lists, slice: SliceName) -> u64
    ensures { result ≡ spec_behind_replicas lists.now slice }
{
    match lists {
        Lists::One(places) => behind_all(slice, BEHIND_FIRST, places),
        Lists::Two(from, to) => behind_all(slice, behind_all(slice, BEHIND_FIRST, from), to),
    }
}

/// The first block of a slice that isn't for replicas: behind block 16 and all replicas where it is set aside for some, else block 0.
pub fn first_block(lists: &Lists, slice: SliceName, at: SliceAt) -> u64
    ensures { result ≡ spec_first_block lists.now slice at }
{
    if at.db {
        behind_replicas(lists, slice)
    } else {
        0
    }
}

fn soft_blocks(extents: &[Run]) -> u64
    ensures { result ≡ min (sum_by run_blocks extents.now) (2 ^ 63) }
{
    let mut blocks: u64 = 0;
    for run in extents {
        blocks = blocks.saturating_add(run.blocks).min(MOST_BLOCKS);
    }
    blocks
}

fn kind_blocks(kind: &VolumeKind) -> u64
    ensures { result ≡ spec_kind_blocks kind.now }
{
    match kind {
        VolumeKind::Soft(soft) => soft_blocks(soft.extents.as_slice()),
        _ => 0,
    }
}

/// The blocks of the soft partition of this number, of which no more than 2^63 count; a volume of another kind has none here.
pub fn soft_blocks_of(plan: &Plan, volume: VolId) -> u64
    ensures { result ≡ spec_volume_blocks (spec_volume_of plan.now volume) }
{
    match volume_of(plan, volume) {
        Some(volume) => kind_blocks(&volume.kind),
        None => 0,
    }
}

/// The block of a base from which a component is counted: on a slice that is set aside for replicas the first
/// behind them.
pub fn start_of(geometry: &Geometry, plan: &Plan, base: Base) -> u64
    requires { IsSound geometry.now }
    ensures { result ≡ spec_start_of geometry.now plan.now base }
{
    match base {
        Base::Slice(slice) => match slice_at(geometry, slice) {
            Some(at) => first_block(&plan.lists, slice, at),
            None => 0,
        },
        Base::Volume(_) => 0,
    }
}

/// How many blocks a component can have on a base.
pub fn room_of(geometry: &Geometry, plan: &Plan, base: Base) -> u64
    requires { IsSound geometry.now }
    ensures { result ≡ spec_room_of geometry.now plan.now base }
{
    match base {
        Base::Slice(slice) => match slice_at(geometry, slice) {
            Some(at) => at
                .blocks
                .saturating_sub(first_block(&plan.lists, slice, at)),
            None => 0,
        },
        Base::Volume(volume) => soft_blocks_of(plan, volume),
    }
}

/// How many blocks each of the bases has for a component.
pub(crate) fn least_room(geometry: &Geometry, plan: &Plan, bases: &[Base]) -> u64
    requires { IsSound geometry.now }
    ensures value { result ≡ spec_least_room geometry.now plan.now bases.now }
    ensures most { result ≤ 2 ^ 63 }
{
    let mut least = MOST_BLOCKS;
    for base in bases {
        least = least.min(room_of(geometry, plan, *base));
    }
    least
}

/// The interlace that is asked for, or 32 blocks.
pub(crate) fn interlace_of(asked: Option<u64>) -> u64
    ensures { result ≡ spec_interlace_of asked }
{
    asked.unwrap_or(DEFAULT_INTERLACE)
}

pub(crate) fn is_bad_interlace(blocks: u64) -> bool
    ensures { result ≡ spec_is_bad_interlace blocks }
{
    blocks < LEAST_INTERLACE || MOST_INTERLACE < blocks
}

fn component_on(geometry: &Geometry, plan: &Plan, blocks: u64, base: Base) -> Component
    requires { IsSound geometry.now }
    ensures { result ≡ spec_component_on geometry.now plan.now blocks base }
{
    Component {
        on: base,
        start: start_of(geometry, plan, base),
        blocks,
    }
}

/// Components of so many blocks on the bases.
pub(crate) fn components_on<const MOST: usize>(
    alloc: Global,
    geometry: &Geometry,
    plan: &Plan,
    blocks: u64,
    bases: &[Base],
) -> Result<Listed<Component, MOST>, AllocError>
    requires sound { IsSound geometry.now }
    requires few { length bases.now ≤ MOST }
    ensures { IfOk result (λ made. made ≡ map (spec_component_on geometry.now plan.now blocks) bases.now) }
{
    let mut made = Listed::new(alloc);
    for base in bases {
        made.push(component_on(geometry, plan, blocks, *base))?;
    }
    Ok(made)
}

fn okay_part(_base: Base) -> PartStatus
    ensures { result ≡ spec_okay_part _base }
{
    PartStatus {
        state: State::Okay,
        spare: None,
    }
}

/// The states of components that are Okay, each on its own base.
pub fn okay_parts<const MOST: usize>(
    alloc: Global,
    bases: &[Base],
) -> Result<Listed<PartStatus, MOST>, AllocError>
    requires { length bases.now ≤ MOST }
    ensures { IfOk result (λ parts. parts ≡ map spec_okay_part bases.now) }
{
    let mut parts = Listed::new(alloc);
    for base in bases {
        parts.push(okay_part(*base))?;
    }
    Ok(parts)
}
