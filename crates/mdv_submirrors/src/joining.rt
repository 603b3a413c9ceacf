//! The states of a stripe that becomes a submirror.
ghost use Rattle.std.specs.Prelude.{◌≡◌, ◌++◌, map, IfOk, OnOk};
ghost use Rattle.std.specs.Option.{option_copied};
ghost use Rattle.mdv_submirrors.specs.Joining.{with_state as spec_with_state, status_at as spec_status_at, kind_parts as spec_kind_parts, joined as spec_joined, all_joined as spec_all_joined, noted};
ghost use Rattle.mdv_submirrors.specs.Below.{Resyncing, Whole};

use mdv_base::VolId;
use mdv_keys::replace_all;
use mdv_plan::{
    KindStatus, Listed, MAX_COMPONENTS, MAX_VOLUMES, PartStatus, Resync, Sorted, State, Status,
    VolumeStatus,
};
use std::alloc::{AllocError, Global};

fn with_state(state: State, part: PartStatus) -> PartStatus
    ensures { result ≡ spec_with_state state part }
{
    PartStatus { state, ..part }
}

// The same components, each in this state.
fn restated(
    alloc: Global,
    state: State,
    parts: &Listed<PartStatus, MAX_COMPONENTS>,
) -> Result<Listed<PartStatus, MAX_COMPONENTS>, AllocError>
    ensures { IfOk result (λ made. made ≡ map (spec_with_state state) parts.now) }
{
    let items = parts.as_slice();
    let mut made = Listed::new(alloc);
    for part in items {
        made.push(with_state(state, *part))?;
    }
    Ok(made)
}

fn kind_restated(
    alloc: Global,
    state: State,
    kind: &KindStatus,
) -> Result<Listed<PartStatus, MAX_COMPONENTS>, AllocError>
    ensures { IfOk result (λ made. made ≡ map (spec_with_state state) (spec_kind_parts kind.now)) }
{
    match kind {
        KindStatus::Stripe(parts) => restated(alloc, state, parts),
        _ => Ok(Listed::new(alloc)),
    }
}

/// What is noted of the volume, found in logarithmic time.
pub fn status_at(status: &Status, volume: VolId) -> Option<&VolumeStatus>
    ensures { option_copied result ≡ spec_status_at status.now volume }
{
    status.volumes.find(u32::from(volume.0))
}

// The states of the volume, each component in this one.
pub(crate) fn joined(
    alloc: Global,
    state: State,
    status: &Status,
    volume: VolId,
) -> Result<VolumeStatus, AllocError>
    ensures { IfOk result (λ made. made ≡ spec_joined state status.now volume) }
{
    let parts = match status_at(status, volume) {
        Some(states) => kind_restated(alloc, state, &states.kind)?,
        None => Listed::new(alloc),
    };
    Ok(VolumeStatus {
        number: volume,
        kind: KindStatus::Stripe(parts),
    })
}

/// The states of the submirrors of a new mirror: the first is Okay, the others are copied whole.
pub fn all_joined(
    alloc: Global,
    status: &Status,
    subs: &[VolId],
) -> Result<Vec<VolumeStatus>, AllocError>
    ensures { IfOk result (λ made. made.items ≡ spec_all_joined status.now subs.now) }
{
    let mut made = Vec::new(alloc);
    if let [first, others @ ..] = subs {
        made.push(joined(alloc, State::Okay, status, *first)?)?;
        add_copied(alloc, &mut made, status, others)?;
    }
    Ok(made)
}

fn add_copied(
    alloc: Global,
    made: &mut Vec<VolumeStatus>,
    status: &Status,
    subs: &[VolId],
) -> Result<(), AllocError>
    ensures { OnOk result (made.new.items ≡ made.old.items ++ map (spec_joined (Resyncing Whole) status.now) subs.now) }
{
    for sub in subs {
        made.push(joined(alloc, State::Resyncing(Resync::Whole), status, *sub)?)?;
    }
    Ok(())
}

/// Puts each of the states in for that of its volume, where the volume has one.
pub fn note_all(statuses: &mut Sorted<VolumeStatus, MAX_VOLUMES>, states: Vec<VolumeStatus>)
    ensures { statuses.new ≡ noted statuses.old states.items }
{
    replace_all(statuses, states);
}
