//! Spares that are put right: what refuses it, and the state that it tells.
ghost use Rattle.std.specs.Prelude.{◌≡◌, map, IfOk};
ghost use Rattle.std.specs.List.{find, list_any};
ghost use Rattle.mdv_components.specs.Causes.{first_of, order};
ghost use Rattle.mdv_plan.specs.Slices.{IsSound};
ghost use Rattle.mdv_spares.specs.Enabling.{enable_condition, is_broken as spec_is_broken, is_unbroken as spec_is_unbroken, spare_word as spec_spare_word};
ghost use Rattle.mdv_spares.specs.Enabling.{is_stateless as spec_is_stateless, first_word as spec_first_word, unbroken_word as spec_unbroken_word};

use crate::meant::state_of;
use crate::pools::slice_bases;
use crate::states::KEYS;
use mdv_base::{DriveNo, SliceName, StateWord};
use mdv_components::{Cause, has_foreign};
use mdv_name::Geometry;
use mdv_plan::{Sorted, SpareState, SpareStatus};
use std::alloc::{AllocError, Global};

/// The first cause for which the spares can't be put right. `WrongState` is that one is in no pool, or isn't
/// Broken.
pub fn refuse_enable(
    alloc: Global,
    geometry: &Geometry,
    drives: &[DriveNo],
    states: &Sorted<SpareStatus, KEYS>,
    slices: &[SliceName],
) -> Result<Option<Cause>, AllocError>
    requires { IsSound geometry.now }
    ensures { IfOk result (λ cause. cause ≡ first_of (enable_condition geometry.now drives.now states.now slices.now) order) }
{
    let bases = slice_bases(alloc, slices)?;
    if has_foreign(geometry, drives, bases.as_slice()) {
        return Ok(Some(Cause::NoSuchSlice));
    }
    if has_unbroken(states, slices) {
        return Ok(Some(Cause::WrongState));
    }
    Ok(None)
}

fn is_broken(state: SpareState) -> bool
    ensures { result ≡ spec_is_broken state }
{
    match state {
        SpareState::Broken => true,
        _ => false,
    }
}

fn is_unbroken(states: &Sorted<SpareStatus, KEYS>, slice: SliceName) -> bool
    ensures { result ≡ spec_is_unbroken states.now slice }
{
    match state_of(states, slice) {
        Some(status) => !is_broken(status.state),
        None => true,
    }
}

fn has_unbroken(states: &Sorted<SpareStatus, KEYS>, slices: &[SliceName]) -> bool
    ensures { result ≡ list_any (spec_is_unbroken states.now) slices.now }
{
    slices.iter().any(|slice| is_unbroken(states, *slice))
}

fn first_unbroken(states: &Sorted<SpareStatus, KEYS>, slices: &[SliceName]) -> Option<SliceName>
    ensures { result ≡ find (spec_is_unbroken states.now) slices.now }
{
    slices
        .iter()
        .copied()
        .find(|slice| is_unbroken(states, *slice))
}

fn spare_word(state: SpareState) -> StateWord
    ensures { result ≡ spec_spare_word state }
{
    match state {
        SpareState::Available => StateWord::Available,
        SpareState::InUse => StateWord::InUse,
        SpareState::Broken => StateWord::Broken,
    }
}

fn first_word(states: &Sorted<SpareStatus, KEYS>, slice: Option<SliceName>) -> StateWord
    ensures { result ≡ spec_first_word states.now slice }
{
    match slice {
        Some(slice) => match state_of(states, slice) {
            Some(status) => spare_word(status.state),
            None => StateWord::Absent,
        },
        None => StateWord::Absent,
    }
}

fn is_stateless(states: &Sorted<SpareStatus, KEYS>, slice: SliceName) -> bool
    ensures { result ≡ spec_is_stateless states.now slice }
{
    state_of(states, slice).is_none()
}

fn has_stateless(states: &Sorted<SpareStatus, KEYS>, slices: &[SliceName]) -> bool
    ensures { result ≡ list_any (spec_is_stateless states.now) slices.now }
{
    slices.iter().any(|slice| is_stateless(states, *slice))
}

/// The state that is told: that one is in no pool, else that of the first that isn't Broken.
pub fn unbroken_word(states: &Sorted<SpareStatus, KEYS>, slices: &[SliceName]) -> StateWord
    ensures { result ≡ spec_unbroken_word states.now slices.now }
{
    if has_stateless(states, slices) {
        return StateWord::Absent;
    }
    first_word(states, first_unbroken(states, slices))
}
