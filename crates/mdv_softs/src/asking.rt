//! What stands against a base on which soft partitions shall lie.
ghost use Rattle.std.specs.Prelude.{◌≡◌};
ghost use Rattle.std.specs.List.{list_any};
ghost use Rattle.mdv_plan.specs.Slices.{IsSound};
ghost use Rattle.mdv_softs.specs.Asking.{is_being_made as spec_is_being_made, is_kind_being_made as spec_is_kind_being_made, is_initializing as spec_is_initializing};
ghost use Rattle.mdv_softs.specs.Asking.{is_slice_in_use as spec_is_slice_in_use, is_volume_taken as spec_is_volume_taken, is_nested as spec_is_nested};
ghost use Rattle.mdv_softs.specs.Below.{has_soft_in as spec_has_soft_in};
ghost use Rattle.mdv_softs.specs.Asking.{contains_soft as spec_contains_soft, is_too_many as spec_is_too_many, is_short as spec_is_short, is_unfit as spec_is_unfit, carried_of as spec_carried_of};

use crate::room::Room;
use mdv_base::{StateWord, VolId};
use mdv_components::{Carried, has_soft, has_soft_in, volume_of};
use mdv_name::Geometry;
use mdv_plan::{Asked, Base, KindStatus, Plan, RaidState, Status, Uses, VolumeKind, meets_db};
use mdv_submirrors::status_at;

fn is_being_made(state: RaidState) -> bool
    ensures { result ≡ spec_is_being_made state }
{
    match state {
        RaidState::Okay => false,
        RaidState::Initializing | RaidState::Keeping => true,
    }
}

fn is_kind_being_made(kind: &KindStatus) -> bool
    ensures { result ≡ spec_is_kind_being_made kind.now }
{
    match kind {
        KindStatus::Raid(raid) => is_being_made(raid.state),
        _ => false,
    }
}

/// Whether the base is a RAID-5 volume all of which is being written.
pub fn is_initializing(status: &Status, base: Base) -> bool
    ensures { result ≡ spec_is_initializing status.now base }
{
    match base {
        Base::Slice(_) => false,
        Base::Volume(volume) => match status_at(status, volume) {
            Some(status) => is_kind_being_made(&status.kind),
            None => false,
        },
    }
}

pub(crate) fn is_slice_in_use(geometry: &Geometry, uses: &Uses, base: Base) -> bool
    requires { IsSound geometry.now }
    ensures { result ≡ spec_is_slice_in_use geometry.now uses.now base }
{
    match base {
        Base::Slice(slice) => {
            uses.clash(geometry, Asked::Extents, slice) || meets_db(geometry, slice)
        }
        Base::Volume(_) => false,
    }
}

pub(crate) fn is_volume_taken(plan: &Plan, base: Base) -> bool
    ensures { result ≡ spec_is_volume_taken plan.now base }
{
    match base {
        Base::Slice(_) => false,
        Base::Volume(volume) => plan.is_taken(volume),
    }
}

fn has_sub_with_soft(plan: &Plan, subs: &[VolId]) -> bool
    ensures { result ≡ list_any (spec_has_soft_in plan.now) subs.now }
{
    subs.iter().any(|sub| has_soft_in(plan, *sub))
}

fn contains_soft(plan: &Plan, kind: &VolumeKind) -> bool
    ensures { result ≡ spec_contains_soft plan.now kind.now }
{
    match kind {
        VolumeKind::Mirror(mirror) => has_sub_with_soft(plan, mirror.submirrors.as_slice()),
        _ => has_soft(kind),
    }
}

/// Whether the base is a soft partition, or contains one.
pub fn is_nested(plan: &Plan, base: Base) -> bool
    ensures { result ≡ spec_is_nested plan.now base }
{
    match base {
        Base::Slice(_) => false,
        Base::Volume(volume) => match volume_of(plan, volume) {
            Some(volume) => contains_soft(plan, &volume.kind),
            None => false,
        },
    }
}

pub(crate) fn is_too_many(room: &Room) -> bool
    ensures { result ≡ spec_is_too_many room.now }
{
    matches!(room, Room::TooMany)
}

pub(crate) fn is_short(room: &Room) -> bool
    ensures { result ≡ spec_is_short room.now }
{
    matches!(room, Room::Only(_))
}

pub(crate) fn is_unfit(room: &Room) -> bool
    ensures { result ≡ spec_is_unfit room.now }
{
    matches!(room, Room::Unfit)
}

// What a refusal tells.
pub(crate) fn carried_of(room: &Room) -> Carried
    ensures { result ≡ spec_carried_of room.now }
{
    let blocks = match room {
        Room::Only(blocks) => *blocks,
        _ => 0,
    };
    Carried {
        state: StateWord::Initializing,
        blocks,
    }
}
