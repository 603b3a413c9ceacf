// Whether nothing is noted of a table but that each component is Okay and lies on its own base.
ghost use Rattle.std.specs.Prelude.{◌≡◌, ◌↔◌, IsTrue, All, map, replicate};
ghost use Rattle.mdv_plan.specs.declared.status.PartStatus.{PartStatus};
ghost use Rattle.mdv_config.specs.Table.{quiet_kind, quiet_part, quiet_status, quiet_volume};

use crate::rows::width_of;
use mdv_plan::{KindStatus, PartStatus, State, Table, Volume, VolumeKind, VolumeStatus};

pub(crate) fn is_quiet(table: &Table) -> bool
    ensures { IsTrue result ↔ (table.now.status ≡ quiet_status table.now.plan) }
{
    table.status.spares.as_slice().is_empty()
        && are_quiet(
            table.plan.volumes.as_slice(),
            table.status.volumes.as_slice(),
        )
}

fn are_quiet(volumes: &[Volume], states: &[VolumeStatus]) -> bool
    ensures { IsTrue result ↔ (states.now ≡ map quiet_volume volumes.now) }
{
    if states.len() != volumes.len() {
        return false;
    }
    for index in 0..volumes.len() {
        if !is_volume_quiet(&volumes[index], &states[index]) {
            return false;
        }
    }
    true
}

fn is_volume_quiet(volume: &Volume, state: &VolumeStatus) -> bool
    ensures { IsTrue result ↔ (state.now ≡ quiet_volume volume.now) }
{
    state.number == volume.number && is_kind_quiet(&volume.kind, &state.kind)
}

fn is_kind_quiet(kind: &VolumeKind, state: &KindStatus) -> bool
    ensures { IsTrue result ↔ (state.now ≡ quiet_kind kind.now) }
{
    match kind {
        VolumeKind::Stripe(stripe) => match state {
            KindStatus::Stripe(parts) => are_parts_quiet(width_of(stripe), parts.as_slice()),
            _ => false,
        },
        _ => is_soft(state),
    }
}

fn is_soft(state: &KindStatus) -> bool
    ensures { IsTrue result ↔ (state.now ≡ KindStatus.Soft) }
{
    match state {
        KindStatus::Soft => true,
        _ => false,
    }
}

// Whether there are so many, each Okay and on its own base.
fn are_parts_quiet(count: usize, parts: &[PartStatus]) -> bool
    ensures { IsTrue result ↔ (parts.now ≡ replicate count quiet_part) }
{
    parts.len() == count && are_okay(parts)
}

fn are_okay(parts: &[PartStatus]) -> bool
    ensures { IsTrue result ↔ All (λ (p : PartStatus). p ≡ quiet_part) parts.now }
{
    parts.iter().all(|part| is_part_quiet(part))
}

fn is_part_quiet(part: &PartStatus) -> bool
    ensures { IsTrue result ↔ (part.now ≡ quiet_part) }
{
    part.state == State::Okay && part.spare.is_none()
}
