//! Which blocks of a base are free for extents, and what they give where some are needed.
ghost use Rattle.std.specs.Prelude.{◌≡◌, ◌≤◌, ◌^◌, IfOk, length, All};
ghost use Rattle.std.specs.List.{list_all};
ghost use Rattle.mdv_extent.specs.Free.{IsUsed};
ghost use Rattle.mdv_extent.specs.Runs.{IsInOrder};
ghost use Rattle.mdv_plan.specs.Slices.{IsSound};
ghost use Rattle.mdv_softs.specs.Room.{kind_start as spec_kind_start, start_in as spec_start_in, start_on as spec_start_on};
ghost use Rattle.mdv_softs.specs.Room.{raid_blocks as spec_raid_blocks, kind_blocks as spec_kind_blocks, size_on as spec_size_on};
ghost use Rattle.mdv_softs.specs.Room.{lies_within as spec_lies_within, free_within as spec_free_within, free_on as spec_free_on};
ghost use Rattle.mdv_softs.specs.Room.{with_extents as spec_with_extents, room_for as spec_room_for, fits_on as spec_fits_on, given_room as spec_given_room, extents_in as spec_extents_in};

use mdv_components::{start_of, volume_of};
use mdv_extent::{MAX_EXTENTS, Run, SpaceFault, allocate, free_runs, lie_apart};
use mdv_name::Geometry;
use mdv_plan::{Base, Listed, Plan, Raid, Volume, VolumeKind, same_base, slice_at};
use mdv_submirrors::stripe_blocks;
use std::alloc::{AllocError, Global};

// No more blocks of a volume count.
const MOST_BLOCKS: u64 = 1 << 63;

/// What a base gives where blocks are needed.
#[derive(Drop)]
pub enum Room {
    /// All extents of the soft partition, those that it had in front.
    Extents(Listed<Run, MAX_EXTENTS>),
    /// It would have more than `MAX_EXTENTS`.
    TooMany,
    /// The free runs could give only so many blocks.
    Only(u64),
    /// Extents that are asked for share a block with each other or with those that are there, headers
    /// counted, or one has no block, begins at block 0 or ends past the base.
    Unfit,
}

fn kind_start(kind: &VolumeKind, base: Base) -> Option<u64>
    ensures { result ≡ spec_kind_start base kind.now }
{
    match kind {
        VolumeKind::Soft(soft) if same_base(soft.base, base) => Some(soft.start),
        _ => None,
    }
}

// From where the extents of the first soft partition on the base are counted.
fn start_in(volumes: &[Volume], base: Base) -> Option<u64>
    ensures { result ≡ spec_start_in volumes.now base }
{
    let mut rest = volumes;
    while let [first, behind @ ..] = rest {
        let start = kind_start(&first.kind, base);
        if start.is_some() {
            return start;
        }
        rest = behind;
    }
    None
}

pub(crate) fn start_on(geometry: &Geometry, plan: &Plan, base: Base) -> u64
    requires { IsSound geometry.now }
    ensures { result ≡ spec_start_on geometry.now plan.now base }
{
    match start_in(plan.volumes.as_slice(), base) {
        Some(start) => start,
        None => start_of(geometry, plan, base),
    }
}

fn raid_blocks(raid: &Raid) -> u64
    ensures value { result ≡ spec_raid_blocks raid.now }
    ensures most { result ≤ 2 ^ 63 }
{
    let interlace = u64::from(raid.interlace);
    let column = raid.units.saturating_mul(interlace).min(MOST_BLOCKS);
    let columns = raid.columns.as_slice().len() as u64;
    columns
        .saturating_sub(1)
        .saturating_mul(column)
        .min(MOST_BLOCKS)
}

/// The blocks of a volume on which soft partitions may lie, of which no more than 2^63 count; a soft partition has none.
pub fn kind_blocks(kind: &VolumeKind) -> u64
    ensures value { result ≡ spec_kind_blocks kind.now }
    ensures most { result ≤ 2 ^ 63 }
{
    match kind {
        VolumeKind::Stripe(_) => stripe_blocks(kind),
        VolumeKind::Mirror(mirror) => mirror.blocks.min(MOST_BLOCKS),
        VolumeKind::Raid(raid) => raid_blocks(raid),
        VolumeKind::Soft(_) => 0,
    }
}

// How many blocks the base has from its start on.
fn size_on(geometry: &Geometry, plan: &Plan, base: Base) -> u64
    requires { IsSound geometry.now }
    ensures value { result ≡ spec_size_on geometry.now plan.now base }
    ensures most { result ≤ 2 ^ 63 }
{
    match base {
        Base::Slice(slice) => match slice_at(geometry, slice) {
            Some(at) => at.blocks.saturating_sub(start_on(geometry, plan, base)),
            None => 0,
        },
        Base::Volume(volume) => match volume_of(plan, volume) {
            Some(volume) => kind_blocks(&volume.kind),
            None => 0,
        },
    }
}

fn lies_within(blocks: u64, run: Run) -> bool
    ensures { result ≡ spec_lies_within blocks run }
{
    1 <= run.at && run.at <= blocks && run.blocks <= blocks - run.at
}

fn all_within(blocks: u64, used: &[Run]) -> bool
    ensures { result ≡ list_all (spec_lies_within blocks) used.now }
{
    used.iter().all(|run| lies_within(blocks, *run))
}

fn free_within(alloc: Global, blocks: u64, used: &[Run]) -> Result<Vec<Run>, AllocError>
    requires { blocks ≤ 2 ^ 63 }
    ensures value { IfOk result (λ free. free.items ≡ spec_free_within blocks used.now) }
    ensures order { IfOk result (λ free. IsInOrder 0 (2 ^ 63) free.items) }
{
    if !all_within(blocks, used) {
        return Ok(Vec::new(alloc));
    }
    free_runs(alloc, blocks, used)
}

// The runs of the base that are free.
fn free_on(
    alloc: Global,
    geometry: &Geometry,
    plan: &Plan,
    base: Base,
) -> Result<Vec<Run>, AllocError>
    requires { IsSound geometry.now }
    ensures value { IfOk result (λ free. free.items ≡ spec_free_on geometry.now plan.now base) }
    ensures order { IfOk result (λ free. IsInOrder 0 (2 ^ 63) free.items) }
{
    let used = plan.runs_on(alloc, base)?;
    free_within(alloc, size_on(geometry, plan, base), used.as_slice())
}

fn with_extents(alloc: Global, had: &[Run], new: &[Run]) -> Result<Room, AllocError>
    requires { length had.now ≤ 16 }
    ensures { IfOk result (λ room. room ≡ spec_with_extents had.now new.now) }
{
    if MAX_EXTENTS - had.len() < new.len() {
        return Ok(Room::TooMany);
    }
    let mut all = Vec::from_slice(alloc, had)?;
    all.extend_from_slice(new)?;
    Ok(Room::Extents(Listed::from_slice(alloc, all.as_slice())?))
}

// So many blocks more than those of the extents that there are.
pub(crate) fn room_for(
    alloc: Global,
    geometry: &Geometry,
    plan: &Plan,
    base: Base,
    had: &[Run],
    need: u64,
) -> Result<Room, AllocError>
    requires sound { IsSound geometry.now }
    requires few { length had.now ≤ 16 }
    ensures { IfOk result (λ room. room ≡ spec_room_for geometry.now plan.now base had.now need) }
{
    if need == 0 {
        return Ok(Room::Extents(Listed::from_slice(alloc, had)?));
    }
    let free = free_on(alloc, geometry, plan, base)?;
    match allocate(alloc, free.as_slice(), need) {
        Ok(new) => with_extents(alloc, had, new.as_slice()),
        Err(SpaceFault::NoSpace(blocks)) => Ok(Room::Only(blocks)),
        Err(SpaceFault::TooMany) => Ok(Room::TooMany),
        Err(SpaceFault::Memory) => Err(AllocError),
    }
}

// Whether these extents and those that the base has lie apart on it.
fn fits_on(
    alloc: Global,
    geometry: &Geometry,
    plan: &Plan,
    base: Base,
    runs: &[Run],
) -> Result<bool, AllocError>
    requires { IsSound geometry.now }
    ensures { IfOk result (λ fits. fits ≡ spec_fits_on geometry.now plan.now base runs.now) }
{
    let mut all = plan.runs_on(alloc, base)?;
    all.extend_from_slice(runs)?;
    lie_apart(alloc, size_on(geometry, plan, base), all.as_slice())
}

// Extents that are asked for.
pub(crate) fn given_room(
    alloc: Global,
    geometry: &Geometry,
    plan: &Plan,
    base: Base,
    runs: &[Run],
) -> Result<Room, AllocError>
    requires { IsSound geometry.now }
    ensures { IfOk result (λ room. room ≡ spec_given_room geometry.now plan.now base runs.now) }
{
    if runs.len() > MAX_EXTENTS {
        return Ok(Room::TooMany);
    }
    if !fits_on(alloc, geometry, plan, base, runs)? {
        return Ok(Room::Unfit);
    }
    Ok(Room::Extents(Listed::from_slice(alloc, runs)?))
}

pub(crate) fn extents_in(alloc: Global, room: Room) -> Listed<Run, MAX_EXTENTS>
    ensures { result ≡ spec_extents_in room }
{
    match room {
        Room::Extents(runs) => runs,
        _ => Listed::new(alloc),
    }
}
