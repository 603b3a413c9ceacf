//! What refuses that a component is enabled, or that another one comes in its place.
ghost use Rattle.std.specs.Prelude.{◌≡◌, IfOk, is_some};
ghost use Rattle.mdv_plan.specs.Slices.{IsSound};
ghost use Rattle.mdv_replacing.specs.Below.{first_of, order};
ghost use Rattle.mdv_replacing.specs.Refusing.{state_word as spec_state_word, part_word as spec_part_word, member_word as spec_member_word, others_word as spec_others_word};
ghost use Rattle.mdv_replacing.specs.Refusing.{parts_word as spec_parts_word, held_word as spec_held_word, told_word as spec_told_word, is_last_part as spec_is_last_part};
ghost use Rattle.mdv_replacing.specs.Refusing.{is_wrong_kind as spec_is_wrong_kind, enable_part_condition, blocks_at as spec_blocks_at, is_smaller as spec_is_smaller};
ghost use Rattle.mdv_replacing.specs.Refusing.{replace_part_condition, enable_part_refusal, replace_part_refusal};

use crate::holding::{holder_of, is_other_kind};
use crate::members::{Member, member_of, others};
use mdv_base::{DriveNo, Refusal, StateWord, VolId};
use mdv_components::{
    Cause, has_foreign, has_no_leaf, has_slice_in_use, has_volume_in_use, room_of,
};
use mdv_copies::{are_okay, is_last_on, with_word, worst};
use mdv_name::Geometry;
use mdv_plan::{Base, PartStatus, Plan, State, Table};
use mdv_rows::{is_nesting, lacks_one};
use mdv_softs::is_initializing;
use std::alloc::{AllocError, Global};

fn state_word(enable: bool, spared: bool, state: State) -> Option<StateWord>
    ensures { result ≡ spec_state_word enable spared state }
{
    match state {
        State::Okay if enable && !spared => Some(StateWord::Okay),
        State::Resyncing(_) => Some(StateWord::Resyncing),
        _ => None,
    }
}

fn part_word(enable: bool, part: PartStatus) -> Option<StateWord>
    ensures { result ≡ spec_part_word enable part }
{
    state_word(enable, part.spare.is_some(), part.state)
}

fn member_word(enable: bool, member: Option<Member>) -> Option<StateWord>
    ensures { result ≡ spec_member_word enable member }
{
    match member {
        Some(member) => part_word(enable, member.part),
        None => Some(StateWord::Absent),
    }
}

fn others_word(parts: &[PartStatus]) -> Option<StateWord>
    ensures { result ≡ spec_others_word parts.now }
{
    if are_okay(parts) {
        return None;
    }
    Some(worst(parts))
}

fn parts_word(enable: bool, member: Option<Member>, parts: &[PartStatus]) -> Option<StateWord>
    ensures { result ≡ spec_parts_word enable member parts.now }
{
    member_word(enable, member).or(others_word(parts))
}

// The state that stands in the way, if one does.
fn held_word(
    alloc: Global,
    table: &Table,
    volume: VolId,
    base: Base,
    enable: bool,
) -> Result<Option<StateWord>, AllocError>
    ensures { IfOk result (λ held. held ≡ spec_held_word table.now volume base enable) }
{
    if is_initializing(&table.status, Base::Volume(volume)) {
        return Ok(Some(StateWord::Initializing));
    }
    let member = member_of(alloc, table, volume, base)?;
    let beside = others(alloc, table, volume, base)?;
    Ok(parts_word(enable, member, beside.as_slice()))
}

fn is_held(
    alloc: Global,
    table: &Table,
    volume: VolId,
    base: Base,
    enable: bool,
) -> Result<bool, AllocError>
    ensures { IfOk result (λ held. held ≡ is_some (spec_held_word table.now volume base enable)) }
{
    let held = held_word(alloc, table, volume, base, enable)?;
    Ok(held.is_some())
}

// The state that a refusal tells.
fn told_word(
    alloc: Global,
    table: &Table,
    volume: VolId,
    base: Base,
    enable: bool,
) -> Result<StateWord, AllocError>
    ensures { IfOk result (λ state. state ≡ spec_told_word table.now volume base enable) }
{
    let held = held_word(alloc, table, volume, base, enable)?;
    Ok(held.unwrap_or(StateWord::Okay))
}

fn is_last_part(alloc: Global, table: &Table, volume: VolId, base: Base) -> Result<bool, AllocError>
    ensures { IfOk result (λ last. last ≡ spec_is_last_part table.now volume base) }
{
    match holder_of(&table.plan, volume, base) {
        Some(holder) => is_last_on(alloc, table, volume, holder, base),
        None => Ok(false),
    }
}

fn is_wrong_kind(plan: &Plan, volume: VolId, bases: &[Base]) -> bool
    ensures { result ≡ spec_is_wrong_kind plan.now volume bases.now }
{
    is_other_kind(plan, volume) || has_no_leaf(plan, bases)
}

// The first cause for which the component isn't enabled.
fn enable_cause(
    alloc: Global,
    geometry: &Geometry,
    drives: &[DriveNo],
    table: &Table,
    volume: VolId,
    base: Base,
) -> Result<Option<Cause>, AllocError>
    requires { IsSound geometry.now }
    ensures { IfOk result (λ cause. cause ≡ first_of (enable_part_condition geometry.now drives.now table.now volume base) order) }
{
    let plan = &table.plan;
    let bases = [base];
    if lacks_one(plan, volume, &bases) {
        return Ok(Some(Cause::NoSuchVolume));
    }
    if has_foreign(geometry, drives, &bases) {
        return Ok(Some(Cause::NoSuchSlice));
    }
    if is_wrong_kind(plan, volume, &bases) {
        return Ok(Some(Cause::WrongKind));
    }
    if is_held(alloc, table, volume, base, true)? {
        return Ok(Some(Cause::WrongState));
    }
    if is_last_part(alloc, table, volume, base)? {
        return Ok(Some(Cause::LastCopy));
    }
    Ok(None)
}

/// Why the component isn't enabled: the refusal for the first cause, with the state that stands in the way.
pub fn refuse_enable_part(
    alloc: Global,
    geometry: &Geometry,
    drives: &[DriveNo],
    table: &Table,
    volume: VolId,
    base: Base,
) -> Result<Option<Refusal>, AllocError>
    requires { IsSound geometry.now }
    ensures { IfOk result (λ refusal. refusal ≡ enable_part_refusal geometry.now drives.now table.now volume base) }
{
    let cause = enable_cause(alloc, geometry, drives, table, volume, base)?;
    let state = told_word(alloc, table, volume, base, true)?;
    Ok(with_word(cause, state))
}

fn blocks_at(member: Option<Member>) -> u64
    ensures { result ≡ spec_blocks_at member }
{
    match member {
        Some(member) => member.component.blocks,
        None => 0,
    }
}

fn is_smaller(
    alloc: Global,
    geometry: &Geometry,
    table: &Table,
    volume: VolId,
    old: Base,
    new: Base,
) -> Result<bool, AllocError>
    requires { IsSound geometry.now }
    ensures { IfOk result (λ smaller. smaller ≡ spec_is_smaller geometry.now table.now volume old new) }
{
    let member = member_of(alloc, table, volume, old)?;
    Ok(room_of(geometry, &table.plan, new) < blocks_at(member))
}

// The first cause for which the new one doesn't come in the place of the component.
fn replace_cause(
    alloc: Global,
    geometry: &Geometry,
    drives: &[DriveNo],
    table: &Table,
    volume: VolId,
    old: Base,
    new: Base,
) -> Result<Option<Cause>, AllocError>
    requires { IsSound geometry.now }
    ensures { IfOk result (λ cause. cause ≡ first_of (replace_part_condition geometry.now drives.now table.now volume old new) order) }
{
    let plan = &table.plan;
    let bases = [old, new];
    if lacks_one(plan, volume, &bases) {
        return Ok(Some(Cause::NoSuchVolume));
    }
    if has_foreign(geometry, drives, &bases) {
        return Ok(Some(Cause::NoSuchSlice));
    }
    if is_wrong_kind(plan, volume, &bases) {
        return Ok(Some(Cause::WrongKind));
    }
    if is_held(alloc, table, volume, old, false)? {
        return Ok(Some(Cause::WrongState));
    }
    if is_last_part(alloc, table, volume, old)? {
        return Ok(Some(Cause::LastCopy));
    }
    let uses = plan.uses(alloc)?;
    if has_slice_in_use(geometry, &uses, &[new]) {
        return Ok(Some(Cause::SliceInUse));
    }
    if has_volume_in_use(plan, &[new]) {
        return Ok(Some(Cause::HasParent));
    }
    if is_nesting(plan, volume, &[new]) {
        return Ok(Some(Cause::Nested));
    }
    if is_smaller(alloc, geometry, table, volume, old, new)? {
        return Ok(Some(Cause::TooSmall));
    }
    Ok(None)
}

/// Why the new one doesn't come in the place of the component.
pub fn refuse_replace_part(
    alloc: Global,
    geometry: &Geometry,
    drives: &[DriveNo],
    table: &Table,
    volume: VolId,
    old: Base,
    new: Base,
) -> Result<Option<Refusal>, AllocError>
    requires { IsSound geometry.now }
    ensures { IfOk result (λ refusal. refusal ≡ replace_part_refusal geometry.now drives.now table.now volume old new) }
{
    let cause = replace_cause(alloc, geometry, drives, table, volume, old, new)?;
    let state = told_word(alloc, table, volume, old, false)?;
    Ok(with_word(cause, state))
}
