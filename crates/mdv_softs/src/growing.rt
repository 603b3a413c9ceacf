//! Blocks that come to a soft partition: what refuses them, and what the volume is then.
ghost use Rattle.std.specs.Prelude.{◌≡◌, IfOk};
ghost use Rattle.std.specs.Option.{option_map};
ghost use Rattle.mdv_components.specs.Causes.{first_of, order, told};
ghost use Rattle.mdv_plan.specs.Slices.{IsSound};
ghost use Rattle.mdv_softs.specs.Asking.{carried_of as spec_carried_of};
ghost use Rattle.mdv_softs.specs.Below.{Geometry, volume_of};
ghost use Rattle.mdv_softs.specs.Growing.{grow_condition, is_soft as spec_is_soft, is_no_soft as spec_is_no_soft, is_kind_unready as spec_is_kind_unready, is_unready as spec_is_unready};
ghost use Rattle.mdv_softs.specs.Growing.{kind_room as spec_kind_room, grown_room as spec_grown_room, kind_grown as spec_kind_grown, grown as spec_grown};

use crate::asking::{carried_of, is_initializing, is_short, is_too_many};
use crate::room::{Room, extents_in, room_for};
use mdv_base::{Refusal, VolId};
use mdv_components::{Cause, volume_of};
use mdv_name::Geometry;
use mdv_plan::{Copied, Listed, Plan, Soft, Status, Table, Volume, VolumeKind};
use std::alloc::{AllocError, Global};

fn kind_room(
    alloc: Global,
    geometry: &Geometry,
    plan: &Plan,
    kind: &VolumeKind,
    need: u64,
) -> Result<Room, AllocError>
    requires { IsSound geometry.now }
    ensures { IfOk result (λ room. room ≡ spec_kind_room geometry.now plan.now kind.now need) }
{
    match kind {
        VolumeKind::Soft(soft) => {
            let had = soft.extents.as_slice();
            room_for(alloc, geometry, plan, soft.base, had, need)
        }
        _ => Ok(Room::Extents(Listed::new(alloc))),
    }
}

/// The extents of the soft partition with those that its base gives behind them.
pub fn grown_room(
    alloc: Global,
    geometry: &Geometry,
    plan: &Plan,
    volume: VolId,
    need: u64,
) -> Result<Room, AllocError>
    requires { IsSound geometry.now }
    ensures { IfOk result (λ room. room ≡ spec_grown_room geometry.now plan.now volume need) }
{
    match volume_of(plan, volume) {
        Some(volume) => kind_room(alloc, geometry, plan, &volume.kind, need),
        None => Ok(Room::Extents(Listed::new(alloc))),
    }
}

fn is_soft(kind: &VolumeKind) -> bool
    ensures { result ≡ spec_is_soft kind.now }
{
    matches!(kind, VolumeKind::Soft(_))
}

fn is_no_soft(plan: &Plan, volume: VolId) -> bool
    ensures { result ≡ spec_is_no_soft plan.now volume }
{
    match volume_of(plan, volume) {
        Some(volume) => !is_soft(&volume.kind),
        None => true,
    }
}

fn is_kind_unready(status: &Status, kind: &VolumeKind) -> bool
    ensures { result ≡ spec_is_kind_unready status.now kind.now }
{
    match kind {
        VolumeKind::Soft(soft) => is_initializing(status, soft.base),
        _ => false,
    }
}

fn is_unready(table: &Table, volume: VolId) -> bool
    ensures { result ≡ spec_is_unready table.now volume }
{
    match volume_of(&table.plan, volume) {
        Some(volume) => is_kind_unready(&table.status, &volume.kind),
        None => false,
    }
}

fn cause_of(table: &Table, volume: VolId, need: u64, room: &Room) -> Option<Cause>
    ensures { (g : Geometry) → room.now ≡ spec_grown_room g table.now.plan volume need → result ≡ first_of (grow_condition g table.now volume need) order }
{
    if volume_of(&table.plan, volume).is_none() {
        return Some(Cause::NoSuchVolume);
    }
    if is_no_soft(&table.plan, volume) {
        return Some(Cause::WrongKind);
    }
    if is_unready(table, volume) {
        return Some(Cause::WrongState);
    }
    if is_too_many(room) {
        return Some(Cause::TooMany);
    }
    if need == 0 {
        return Some(Cause::TooSmall);
    }
    if is_short(room) {
        return Some(Cause::NoSpace);
    }
    None
}

/// The first cause for which the soft partition doesn't get so many blocks more, as it is told. The caller
/// has looked what its base gives.
pub fn refuse_grow(
    geometry: &Geometry,
    table: &Table,
    volume: VolId,
    need: u64,
    room: &Room,
) -> Option<Refusal>
    requires { room.now ≡ spec_grown_room geometry.now table.now.plan volume need }
    ensures { result ≡ option_map (told (spec_carried_of room.now)) (first_of (grow_condition geometry.now table.now volume need) order) }
{
    match cause_of(table, volume, need, room) {
        Some(cause) => Some(cause.refusal(carried_of(room))),
        None => None,
    }
}

fn kind_grown(alloc: Global, kind: &VolumeKind, room: Room) -> Result<VolumeKind, AllocError>
    ensures { IfOk result (λ made. made ≡ spec_kind_grown room kind.now) }
{
    match kind {
        VolumeKind::Soft(soft) => Ok(VolumeKind::Soft(Soft {
            base: soft.base,
            start: soft.start,
            extents: extents_in(alloc, room),
        })),
        _ => kind.copied(alloc),
    }
}

/// The soft partition with these extents, where there is such a volume.
pub fn volume_grown(
    alloc: Global,
    plan: &Plan,
    volume: VolId,
    room: Room,
) -> Result<Option<Volume>, AllocError>
    ensures { IfOk result (λ made. made ≡ option_map (spec_grown room) (volume_of plan.now volume)) }
{
    match volume_of(plan, volume) {
        Some(volume) => Ok(Some(Volume {
            number: volume.number,
            kind: kind_grown(alloc, &volume.kind, room)?,
        })),
        None => Ok(None),
    }
}
