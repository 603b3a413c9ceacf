//! What is noted of a volume; nothing where it is noted of another kind.
ghost use Rattle.std.specs.Prelude.{◌≡◌, ◌≤◌, length};
ghost use Rattle.mdv_whole.specs.Sides.{part_states as spec_part_states, offline_of as spec_offline_of, dirty_of as spec_dirty_of, raid_state_of as spec_raid_state_of};

use mdv_plan::{KindStatus, PartStatus, RaidState};

pub fn part_states(noted: &KindStatus) -> &[PartStatus]
    ensures { result.now ≡ spec_part_states noted.now }
{
    match noted {
        KindStatus::Stripe(states) => states.as_slice(),
        KindStatus::Raid(raid) => raid.columns.as_slice(),
        _ => &[],
    }
}

pub fn offline_of(noted: &KindStatus) -> &[bool]
    ensures { result.now ≡ spec_offline_of noted.now }
{
    match noted {
        KindStatus::Mirror(mirror) => mirror.offline.as_slice(),
        _ => &[],
    }
}

pub fn dirty_of(noted: &KindStatus) -> &[u8]
    ensures { result.now ≡ spec_dirty_of noted.now }
{
    match noted {
        KindStatus::Mirror(mirror) => mirror.dirty.as_slice(),
        _ => &[],
    }
}

pub fn raid_state_of(noted: &KindStatus) -> RaidState
    ensures { result ≡ spec_raid_state_of noted.now }
{
    match noted {
        KindStatus::Raid(raid) => raid.state,
        _ => RaidState::Okay,
    }
}
