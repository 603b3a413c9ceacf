//! Which pools a command means, and which spares they have.
ghost use Rattle.std.specs.Prelude.{◌≡◌, ◌++◌, map, IfOk, OnOk};
ghost use Rattle.std.specs.List.{flat_map, list_any};
ghost use Rattle.std.specs.Option.{option_copied};
ghost use Rattle.mdv_spares.specs.Meant.{is_meant as spec_is_meant, is_no_pool as spec_is_no_pool, has_spare as spec_has_spare, is_meant_with as spec_is_meant_with};
ghost use Rattle.mdv_spares.specs.Meant.{is_there as spec_is_there, is_absent as spec_is_absent, is_left_with as spec_is_left_with, state_of as spec_state_of, is_used as spec_is_used};
ghost use Rattle.mdv_spares.specs.Meant.{is_in_use as spec_is_in_use, lost_key as spec_lost_key};

use crate::pools::is_spare;
use crate::states::{KEYS, available};
use mdv_base::{PoolId, SliceName};
use mdv_components::pool_of;
use mdv_plan::{Keyed, Plan, Pool, Sorted, SpareState, SpareStatus};
use std::alloc::{AllocError, Global};

/// Which pools a command means.
#[derive(Clone, Copy, Debug, PartialEq, Eq)]
pub enum Meant {
    One(PoolId),
    /// `all`: every pool of the database.
    All,
}

pub(crate) fn is_meant(meant: Meant, pool: &Pool) -> bool
    ensures { result ≡ spec_is_meant meant pool.now }
{
    match meant {
        Meant::One(number) => pool.number.0 == number.0,
        Meant::All => true,
    }
}

// Whether one is named that isn't there.
pub(crate) fn is_no_pool(plan: &Plan, meant: Meant) -> bool
    ensures { result ≡ spec_is_no_pool plan.now meant }
{
    match meant {
        Meant::One(number) => pool_of(plan, number).is_none(),
        Meant::All => false,
    }
}

pub(crate) fn has_spare(pool: &Pool, slice: SliceName) -> bool
    ensures { result ≡ spec_has_spare slice pool.now }
{
    let spares = pool.spares.as_slice();
    spares.iter().any(|spare| is_spare(*spare, slice))
}

pub(crate) fn is_meant_with(meant: Meant, slice: SliceName, pool: &Pool) -> bool
    ensures { result ≡ spec_is_meant_with meant slice pool.now }
{
    is_meant(meant, pool) && has_spare(pool, slice)
}

// Whether a pool that is meant has the spare.
pub(crate) fn is_there(plan: &Plan, meant: Meant, slice: SliceName) -> bool
    ensures { result ≡ spec_is_there plan.now meant slice }
{
    let pools = plan.pools.as_slice();
    pools.iter().any(|pool| is_meant_with(meant, slice, pool))
}

pub(crate) fn is_absent(plan: &Plan, meant: Meant, slice: SliceName) -> bool
    ensures { result ≡ spec_is_absent plan.now meant slice }
{
    !is_there(plan, meant, slice)
}

fn is_left_with(meant: Meant, slice: SliceName, pool: &Pool) -> bool
    ensures { result ≡ spec_is_left_with meant slice pool.now }
{
    !is_meant(meant, pool) && has_spare(pool, slice)
}

fn is_left(plan: &Plan, meant: Meant, slice: SliceName) -> bool
    ensures { result ≡ list_any (spec_is_left_with meant slice) plan.now.pools }
{
    let pools = plan.pools.as_slice();
    pools.iter().any(|pool| is_left_with(meant, slice, pool))
}

pub(crate) fn state_of(states: &Sorted<SpareStatus, KEYS>, slice: SliceName) -> Option<&SpareStatus>
    ensures { option_copied result ≡ spec_state_of states.now slice }
{
    states.find(available(slice).key())
}

fn is_used(state: SpareState) -> bool
    ensures { result ≡ spec_is_used state }
{
    match state {
        SpareState::InUse => true,
        _ => false,
    }
}

// Whether a component lies on the spare.
pub(crate) fn is_in_use(states: &Sorted<SpareStatus, KEYS>, slice: SliceName) -> bool
    ensures { result ≡ spec_is_in_use states.now slice }
{
    match state_of(states, slice) {
        Some(status) => is_used(status.state),
        None => false,
    }
}

/// The keys of the states of those slices that no pool has once those that are meant don't have them.
pub fn lost_keys(
    alloc: Global,
    plan: &Plan,
    meant: Meant,
    slices: &[SliceName],
) -> Result<Vec<u32>, AllocError>
    ensures { IfOk result (λ keys. keys.items ≡ flat_map (spec_lost_key plan.now meant) slices.now) }
{
    let mut keys = Vec::new(alloc);
    for slice in slices {
        if !is_left(plan, meant, *slice) {
            keys.push(available(*slice).key())?;
        }
    }
    Ok(keys)
}
