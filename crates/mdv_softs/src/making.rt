//! The making of a soft partition: what refuses it, and what the volume is.
ghost use Rattle.std.specs.Prelude.{◌≡◌, IfOk};
ghost use Rattle.std.specs.Option.{option_map};
ghost use Rattle.mdv_components.specs.Causes.{first_of, order, told};
ghost use Rattle.mdv_plan.specs.Slices.{IsSound};
ghost use Rattle.mdv_plan.specs.Uses.{uses_of};
ghost use Rattle.mdv_softs.specs.Asking.{carried_of as spec_carried_of};
ghost use Rattle.mdv_softs.specs.Making.{is_nothing as spec_is_nothing, soft_condition, soft_on as spec_soft_on, soft_room as spec_soft_room, soft_status as spec_soft_status};

use crate::asking::{
    carried_of, is_initializing, is_nested, is_short, is_slice_in_use, is_too_many, is_unfit,
    is_volume_taken,
};
use crate::room::{Room, extents_in, given_room, room_for, start_on};
use mdv_base::{DriveNo, Refusal, VolId};
use mdv_components::{Cause, MAX_NAMES, is_foreign, is_missing, volume_of};
use mdv_extent::Run;
use mdv_name::Geometry;
use mdv_plan::{
    Base, KindStatus, Listed, Plan, Soft, Table, Uses, Volume, VolumeKind, VolumeStatus,
};
use std::alloc::{AllocError, Global};

/// The blocks that are asked for.
#[derive(Drop)]
pub enum RoomAsked {
    /// So many, wherever there is room.
    Blocks(u64),
    /// These extents in this order, counted from where extents begin on the base.
    Extents(Listed<Run, MAX_NAMES>),
}

/// A soft partition that is asked for.
#[derive(Drop)]
pub struct SoftAsked {
    /// A slice, stripe, mirror or RAID-5 volume.
    pub base: Base,
    pub room: RoomAsked,
}

/// What the base gives.
pub fn soft_room(
    alloc: Global,
    geometry: &Geometry,
    plan: &Plan,
    asked: &SoftAsked,
) -> Result<Room, AllocError>
    requires { IsSound geometry.now }
    ensures { IfOk result (λ room. room ≡ spec_soft_room geometry.now plan.now asked.now) }
{
    match &asked.room {
        RoomAsked::Blocks(blocks) => room_for(alloc, geometry, plan, asked.base, &[], *blocks),
        RoomAsked::Extents(runs) => {
            given_room(alloc, geometry, plan, asked.base, runs.as_slice())
        }
    }
}

// Whether no block is asked for, or no extent.
fn is_nothing(room: &RoomAsked) -> bool
    ensures { result ≡ spec_is_nothing room.now }
{
    match room {
        RoomAsked::Blocks(blocks) => *blocks == 0,
        RoomAsked::Extents(runs) => runs.as_slice().is_empty(),
    }
}

/// The first cause for which the soft partition is refused, as it is told. The caller has looked what the
/// base gives.
pub fn refuse_soft(
    alloc: Global,
    geometry: &Geometry,
    drives: &[DriveNo],
    table: &Table,
    volume: VolId,
    asked: &SoftAsked,
    room: &Room,
) -> Result<Option<Refusal>, AllocError>
    requires sound { IsSound geometry.now }
    requires room { room.now ≡ spec_soft_room geometry.now table.now.plan asked.now }
    ensures { IfOk result (λ refusal. refusal ≡ option_map (told (spec_carried_of room.now)) (first_of (soft_condition geometry.now drives.now table.now volume asked.now) order)) }
{
    let uses = table.plan.uses(alloc)?;
    Ok(
        match cause_of(geometry, drives, table, &uses, volume, asked, room) {
            Some(cause) => Some(cause.refusal(carried_of(room))),
            None => None,
        },
    )
}

fn cause_of(
    geometry: &Geometry,
    drives: &[DriveNo],
    table: &Table,
    uses: &Uses,
    volume: VolId,
    asked: &SoftAsked,
    room: &Room,
) -> Option<Cause>
    requires sound { IsSound geometry.now }
    requires uses { uses.now ≡ uses_of table.now.plan }
    requires room { room.now ≡ spec_soft_room geometry.now table.now.plan asked.now }
    ensures { result ≡ first_of (soft_condition geometry.now drives.now table.now volume asked.now) order }
{
    let plan = &table.plan;
    if is_missing(plan, asked.base) {
        return Some(Cause::NoSuchVolume);
    }
    if is_foreign(geometry, drives, asked.base) {
        return Some(Cause::NoSuchSlice);
    }
    if volume_of(plan, volume).is_some() {
        return Some(Cause::NameTaken);
    }
    if is_initializing(&table.status, asked.base) {
        return Some(Cause::WrongState);
    }
    if is_too_many(room) {
        return Some(Cause::TooMany);
    }
    if is_slice_in_use(geometry, uses, asked.base) {
        return Some(Cause::SliceInUse);
    }
    if is_volume_taken(plan, asked.base) {
        return Some(Cause::HasParent);
    }
    if is_nested(plan, asked.base) {
        return Some(Cause::Nested);
    }
    if is_nothing(&asked.room) || is_unfit(room) {
        return Some(Cause::TooSmall);
    }
    if is_short(room) {
        return Some(Cause::NoSpace);
    }
    None
}

/// The soft partition, with the extents that the base gives.
pub fn soft_on(
    alloc: Global,
    geometry: &Geometry,
    plan: &Plan,
    volume: VolId,
    base: Base,
    room: Room,
) -> Volume
    requires { IsSound geometry.now }
    ensures { result ≡ spec_soft_on geometry.now plan.now volume base room }
{
    Volume {
        number: volume,
        kind: VolumeKind::Soft(Soft {
            base,
            start: start_on(geometry, plan, base),
            extents: extents_in(alloc, room),
        }),
    }
}

/// It has no state.
pub fn soft_status(volume: VolId) -> VolumeStatus
    ensures { result ≡ spec_soft_status volume }
{
    VolumeStatus {
        number: volume,
        kind: KindStatus::Soft,
    }
}
