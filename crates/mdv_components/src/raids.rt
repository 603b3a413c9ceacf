//! The making of a RAID-5 volume: what refuses it, and what the volume is.
ghost use Rattle.std.specs.Prelude.{◌≡◌, ◌≤◌, ◌*◌, ◌^◌, false, IfOk, length};
ghost use Rattle.mdv_plan.specs.Slices.{IsSound};
ghost use Rattle.mdv_components.specs.Causes.{order, form_causes, first_of};
ghost use Rattle.mdv_components.specs.Room.{is_bad_interlace as spec_is_bad_interlace};
ghost use Rattle.mdv_components.specs.Raids.{raid_interlace as spec_raid_interlace, units_of as spec_units_of};
ghost use Rattle.mdv_components.specs.Raids.{column_blocks as spec_column_blocks, form_cause as spec_form_cause, raid_condition};
ghost use Rattle.mdv_components.specs.Raids.{raid_on as spec_raid_on, raid_status as spec_raid_status};

use crate::asked::RaidAsked;
use crate::bases::{name_cause, use_cause};
use crate::cause::Cause;
use crate::room::{components_on, interlace_of, is_bad_interlace, least_room, okay_parts};
use mdv_base::{DriveNo, VolId};
use mdv_name::Geometry;
use mdv_plan::{
    KindStatus, MAX_COLUMNS, Plan, Raid, RaidState, RaidStatus, Volume, VolumeKind, VolumeStatus,
};
use std::alloc::{AllocError, Global};

// The fewest columns.
const LEAST_COLUMNS: usize = 3;

/// How many blocks at the front of each column are for prewrites.
pub const PREWRITE_BLOCKS: u64 = 136;

/// The first cause for which the volume is refused.
pub fn refuse_raid(
    alloc: Global,
    geometry: &Geometry,
    drives: &[DriveNo],
    plan: &Plan,
    volume: VolId,
    raid: &RaidAsked,
) -> Result<Option<Cause>, AllocError>
    requires { IsSound geometry.now }
    ensures { IfOk result (λ cause. cause ≡ first_of (raid_condition geometry.now drives.now plan.now volume raid.now) order) }
{
    let bases = raid.columns.as_slice();
    let name = name_cause(geometry, drives, plan, volume, bases, raid.spares);
    if name.is_some() {
        return Ok(name);
    }
    let form = form_cause(raid);
    if form.is_some() {
        return Ok(form);
    }
    let uses = plan.uses(alloc)?;
    let used = use_cause(geometry, plan, bases, &uses);
    if used.is_some() {
        return Ok(used);
    }
    if units_of(geometry, plan, raid) == 0 {
        return Ok(Some(Cause::TooSmall));
    }
    Ok(None)
}

// The first cause that the form of the columns gives.
fn form_cause(raid: &RaidAsked) -> Option<Cause>
    ensures { result ≡ first_of (spec_form_cause raid.now) form_causes }
{
    let columns = raid.columns.as_slice().len();
    if columns < LEAST_COLUMNS {
        return Some(Cause::TooFew);
    }
    if columns > MAX_COLUMNS {
        return Some(Cause::TooMany);
    }
    if is_bad_interlace(raid_interlace(raid)) {
        return Some(Cause::BadInterlace);
    }
    None
}

fn raid_interlace(raid: &RaidAsked) -> u64
    ensures { result ≡ spec_raid_interlace raid.now }
{
    interlace_of(raid.interlace)
}

// How many interlaces each column holds behind the blocks for prewrites.
fn units_of(geometry: &Geometry, plan: &Plan, raid: &RaidAsked) -> u64
    requires sound { IsSound geometry.now }
    requires interlace { spec_is_bad_interlace (spec_raid_interlace raid.now) ≡ false }
    ensures value { result ≡ spec_units_of geometry.now plan.now raid.now }
    ensures bound { result * spec_raid_interlace raid.now ≤ 2 ^ 63 }
{
    let least = least_room(geometry, plan, raid.columns.as_slice());
    least.saturating_sub(PREWRITE_BLOCKS) / raid_interlace(raid)
}

/// The volume that is asked for.
pub fn raid_on(
    alloc: Global,
    geometry: &Geometry,
    plan: &Plan,
    volume: VolId,
    raid: &RaidAsked,
) -> Result<Volume, AllocError>
    requires sound { IsSound geometry.now }
    requires few { length raid.now.columns ≤ 32 }
    requires interlace { spec_is_bad_interlace (spec_raid_interlace raid.now) ≡ false }
    ensures { IfOk result (λ made. made ≡ spec_raid_on geometry.now plan.now volume raid.now) }
{
    let units = units_of(geometry, plan, raid);
    let interlace = raid_interlace(raid);
    let blocks = PREWRITE_BLOCKS + units * interlace;
    let bases = raid.columns.as_slice();
    Ok(Volume {
        number: volume,
        kind: VolumeKind::Raid(Raid {
            columns: components_on(alloc, geometry, plan, blocks, bases)?,
            interlace: interlace as u32,
            units,
            spares: raid.spares,
        }),
    })
}

/// Its states.
pub fn raid_status(
    alloc: Global,
    volume: VolId,
    raid: &RaidAsked,
) -> Result<VolumeStatus, AllocError>
    requires { length raid.now.columns ≤ 32 }
    ensures { IfOk result (λ status. status ≡ spec_raid_status volume raid.now) }
{
    let state = if raid.keep {
        RaidState::Keeping
    } else {
        RaidState::Initializing
    };
    let columns = okay_parts(alloc, raid.columns.as_slice())?;
    Ok(VolumeStatus {
        number: volume,
        kind: KindStatus::Raid(RaidStatus { state, columns }),
    })
}
