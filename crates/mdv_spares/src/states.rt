//! The states of spares.
ghost use Rattle.std.specs.Prelude.{◌≡◌, IfOk, OnOk};
ghost use Rattle.mdv_spares.specs.Pools.{available as spec_available, with_state as spec_with_state, with_states as spec_with_states};

use mdv_base::SliceName;
use mdv_plan::{Keyed, Sorted, SpareState, SpareStatus};
use std::alloc::{AllocError, Global};

// One more than the greatest key of a spare's state.
pub(crate) const KEYS: usize = 4294967296;

pub(crate) fn available(slice: SliceName) -> SpareStatus
    ensures { result ≡ spec_available slice }
{
    SpareStatus {
        slice,
        state: SpareState::Available,
    }
}

fn add_state(states: &mut Sorted<SpareStatus, KEYS>, slice: SliceName) -> Result<(), AllocError>
    ensures { OnOk result (states.new ≡ spec_with_state states.old slice) }
{
    let state = available(slice);
    if states.find(state.key()).is_some() {
        return Ok(());
    }
    states.put(state)
}

/// The states with one for each of the slices: the one that it had, else Available.
pub fn with_states(
    alloc: Global,
    states: &Sorted<SpareStatus, KEYS>,
    slices: &[SliceName],
) -> Result<Sorted<SpareStatus, KEYS>, AllocError>
    ensures { IfOk result (λ made. made ≡ spec_with_states states.now slices.now) }
{
    let mut made = states.copy(alloc)?;
    for slice in slices {
        add_state(&mut made, *slice)?;
    }
    Ok(made)
}
