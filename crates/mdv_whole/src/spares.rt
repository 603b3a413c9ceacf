//! The one state of each spare.
ghost use Rattle.std.specs.Prelude.{◌≡◌, OnOk, IfOk};
ghost use Rattle.std.specs.BTreeMap.{values};
ghost use Rattle.std.specs.List.{list_all};
ghost use Rattle.mdv_whole.specs.Sides.{state_in as spec_state_in};
ghost use Rattle.mdv_whole.specs.Parted.{noted_spare as spec_noted_spare, spare_states as spec_spare_states};
ghost use Rattle.mdv_whole.specs.Held.{HasSpares};
ghost use Rattle.mdv_whole.specs.Settled.{is_same as spec_is_same, is_settled as spec_is_settled, are_settled as spec_are_settled, is_pool_settled as spec_is_pool_settled};

use mdv_base::SliceName;
use mdv_codec::{RecordedPool, RecordedSpare};
use mdv_plan::{Keyed, Sorted, SpareState, SpareStatus};
use std::alloc::{AllocError, Global};
use std::collections::BTreeMap;

// One more than the greatest key of a spare's state.
const KEYS: usize = 4294967296;

/// The states of spares, by their slices.
pub type States = Sorted<SpareStatus, KEYS>;

// The states by the numbers of their slices, while spares are still to come.
type Noted = BTreeMap<u32, SpareStatus>;

/// The state of the spare; Available where none is noted.
pub fn state_in(states: &States, slice: SliceName) -> SpareState
    ensures { result ≡ spec_state_in states.now slice }
{
    let asked = SpareStatus {
        slice,
        state: SpareState::Available,
    };
    match states.find(asked.key()) {
        Some(noted) => noted.state,
        None => SpareState::Available,
    }
}

/// The states of all spares of the pools. The work is linear, with a look-up of each.
pub fn spare_states(alloc: Global, pools: &[RecordedPool]) -> Result<States, AllocError>
    ensures { IfOk result (λ states. states ≡ spec_spare_states pools.now) }
{
    let mut noted = BTreeMap::new(alloc);
    for pool in pools {
        add_spares(&mut noted, pool.spares.as_slice())?;
    }
    let _ascending = noted.len();
    let states = states_in(alloc, noted)?;
    Ok(Sorted::from_ascending(states))
}

fn states_in(alloc: Global, noted: Noted) -> Result<Vec<SpareStatus>, AllocError>
    ensures { IfOk result (λ states. states.items ≡ values noted) }
{
    noted.into_values().collect(alloc)
}

fn add_spares(noted: &mut Noted, spares: &[RecordedSpare]) -> Result<(), AllocError>
    ensures { OnOk result (HasSpares noted.old spares.now noted.new) }
{
    for spare in spares {
        let state = noted_spare(spare);
        noted.insert(state.key(), state)?;
    }
    Ok(())
}

fn noted_spare(spare: &RecordedSpare) -> SpareStatus
    ensures { result ≡ spec_noted_spare spare.now }
{
    SpareStatus {
        slice: spare.spare.slice,
        state: spare.state,
    }
}

/// Whether each spare has the state that is noted of its slice: so it has the same one in all pools.
pub fn are_settled(states: &States, pools: &[RecordedPool]) -> bool
    ensures { result ≡ spec_are_settled states.now pools.now }
{
    pools.iter().all(|pool| is_pool_settled(states, pool))
}

fn is_pool_settled(states: &States, pool: &RecordedPool) -> bool
    ensures { result ≡ spec_is_pool_settled states.now pool.now }
{
    let spares = pool.spares.as_slice();
    spares.iter().all(|spare| is_settled(states, spare))
}

fn is_settled(states: &States, spare: &RecordedSpare) -> bool
    ensures { result ≡ spec_is_settled states.now spare.now }
{
    is_same(state_in(states, spare.spare.slice), spare.state)
}

fn is_same(one: SpareState, other: SpareState) -> bool
    ensures { result ≡ spec_is_same one other }
{
    match (one, other) {
        (SpareState::Available, SpareState::Available) => true,
        (SpareState::InUse, SpareState::InUse) => true,
        (SpareState::Broken, SpareState::Broken) => true,
        _ => false,
    }
}
