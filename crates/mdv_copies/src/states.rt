//! The state of a submirror, and what it and its mirror have where it goes offline, comes back or is taken
//! away.
ghost use Rattle.std.specs.Prelude.{◌≡◌, ◌++◌, true, IfOk, OnOk, map};
ghost use Rattle.std.specs.List.{list_all, list_any};
ghost use Rattle.mdv_copies.specs.States.{badness as spec_badness, is_as_bad as spec_is_as_bad, has_one as spec_has_one, worst as spec_worst, parts_of as spec_parts_of};
ghost use Rattle.mdv_copies.specs.States.{is_okay as spec_is_okay, is_all_okay as spec_is_all_okay, sub_word as spec_sub_word, online_word as spec_online_word};
ghost use Rattle.mdv_copies.specs.States.{kind_flagged as spec_kind_flagged, flagged as spec_flagged, flagged_at, detach_states as spec_detach_states, switched as spec_switched};
ghost use Rattle.mdv_copies.specs.States.{kind_dirty as spec_kind_dirty, is_dirty as spec_is_dirty};
ghost use Rattle.mdv_copies.specs.States.{kind_resumed as spec_kind_resumed, resumed_at, online_states as spec_online_states};
ghost use Rattle.mdv_copies.specs.Below.{kind_parts as spec_kind_parts, part_resumed as spec_part_resumed, status_at as spec_status_at};
ghost use Rattle.mdv_copies.specs.Legs.{legs_of as spec_legs_of};

use crate::legs::{Flags, Leg, flags_less, flags_with, is_in, is_offline, legs_of};
use mdv_base::{StateWord, VolId};
use mdv_plan::{
    Copied, KindStatus, Listed, MAX_COMPONENTS, MirrorStatus, PartStatus, State, Status, Table,
    VolumeStatus, has_dirty, part_resumed,
};
use mdv_submirrors::status_at;
use std::alloc::{AllocError, Global};

type Parts = Listed<PartStatus, MAX_COMPONENTS>;

// 0 of Okay, and more of what is worse.
fn badness(state: State) -> u8
    ensures { result ≡ spec_badness state }
{
    match state {
        State::Okay => 0,
        State::Resyncing(_) => 1,
        State::Maintenance => 2,
        State::LastErred => 3,
    }
}

fn is_as_bad(bad: u8, part: PartStatus) -> bool
    ensures { result ≡ spec_is_as_bad bad part }
{
    badness(part.state) == bad
}

fn has_one(bad: u8, parts: &[PartStatus]) -> bool
    ensures { result ≡ spec_has_one bad parts.now }
{
    parts.iter().any(|part| is_as_bad(bad, *part))
}

/// The worst state of these components.
pub fn worst(parts: &[PartStatus]) -> StateWord
    ensures { result ≡ spec_worst parts.now }
{
    if has_one(3, parts) {
        return StateWord::LastErred;
    }
    if has_one(2, parts) {
        return StateWord::Maintenance;
    }
    if has_one(1, parts) {
        return StateWord::Resyncing;
    }
    StateWord::Okay
}

fn kind_parts(kind: &KindStatus) -> &[PartStatus]
    ensures { result.now ≡ spec_kind_parts kind.now }
{
    match kind {
        KindStatus::Stripe(parts) => parts.as_slice(),
        _ => &[],
    }
}

/// The states of the components of a stripe.
pub(crate) fn parts_of(status: &Status, volume: VolId) -> &[PartStatus]
    ensures { result.now ≡ spec_parts_of status.now volume }
{
    match status_at(status, volume) {
        Some(status) => kind_parts(&status.kind),
        None => &[],
    }
}

fn is_okay(part: PartStatus) -> bool
    ensures { result ≡ spec_is_okay part }
{
    is_as_bad(0, part)
}

/// Whether all these components are Okay.
pub fn are_okay(parts: &[PartStatus]) -> bool
    ensures { result ≡ list_all spec_is_okay parts.now }
{
    parts.iter().all(|part| is_okay(*part))
}

pub(crate) fn is_all_okay(table: &Table, legs: &[Leg], mirror: VolId, sub: VolId) -> bool
    requires { legs.now ≡ spec_legs_of table.now mirror }
    ensures { result ≡ spec_is_all_okay table.now mirror sub }
{
    !is_offline(legs, sub) && are_okay(parts_of(&table.status, sub))
}

/// The state of the submirror: Offline, or the worst of its components; Absent where it isn't in the mirror.
pub(crate) fn sub_word(table: &Table, legs: &[Leg], mirror: VolId, sub: VolId) -> StateWord
    requires { legs.now ≡ spec_legs_of table.now mirror }
    ensures { result ≡ spec_sub_word table.now mirror sub }
{
    if is_offline(legs, sub) {
        return StateWord::Offline;
    }
    if is_in(legs, sub) {
        return worst(parts_of(&table.status, sub));
    }
    StateWord::Absent
}

/// That of a submirror that isn't offline.
pub(crate) fn online_word(table: &Table, legs: &[Leg], mirror: VolId, sub: VolId) -> StateWord
    requires { legs.now ≡ spec_legs_of table.now mirror }
    ensures { result ≡ spec_online_word table.now mirror sub }
{
    if is_in(legs, sub) {
        return StateWord::Online;
    }
    StateWord::Absent
}

fn kind_flagged(alloc: Global, flags: Flags, kind: &KindStatus) -> Result<KindStatus, AllocError>
    ensures { IfOk result (λ made. made ≡ spec_kind_flagged flags kind.now) }
{
    match kind {
        KindStatus::Mirror(mirror) => {
            let dirty = mirror.dirty.copied(alloc)?;
            Ok(KindStatus::Mirror(MirrorStatus {
                offline: flags,
                dirty,
            }))
        }
        _ => kind.copied(alloc),
    }
}

fn flagged(alloc: Global, flags: Flags, status: &VolumeStatus) -> Result<VolumeStatus, AllocError>
    ensures { IfOk result (λ made. made ≡ spec_flagged flags status.now) }
{
    Ok(VolumeStatus {
        number: status.number,
        kind: kind_flagged(alloc, flags, &status.kind)?,
    })
}

fn flagged_of(
    alloc: Global,
    flags: Flags,
    status: &Status,
    mirror: VolId,
) -> Result<Vec<VolumeStatus>, AllocError>
    ensures { IfOk result (λ states. states.items ≡ flagged_at flags (spec_status_at status.now mirror)) }
{
    let mut states = Vec::new(alloc);
    if let Some(old) = status_at(status, mirror) {
        states.push(flagged(alloc, flags, old)?)?;
    }
    Ok(states)
}

/// The state of the mirror without the submirror, whose own state stays.
pub fn detach_states(
    alloc: Global,
    table: &Table,
    mirror: VolId,
    sub: VolId,
) -> Result<Vec<VolumeStatus>, AllocError>
    ensures { IfOk result (λ states. states.items ≡ spec_detach_states table.now mirror sub) }
{
    let legs = legs_of(alloc, table, mirror)?;
    let flags = flags_less(alloc, &legs, sub)?;
    let states = flagged_of(alloc, flags, &table.status, mirror)?;
    Ok(states)
}

fn switched(
    alloc: Global,
    table: &Table,
    mirror: VolId,
    sub: VolId,
    offline: bool,
) -> Result<Vec<VolumeStatus>, AllocError>
    ensures { IfOk result (λ states. states.items ≡ spec_switched table.now mirror sub offline) }
{
    let legs = legs_of(alloc, table, mirror)?;
    let flags = flags_with(alloc, &legs, sub, offline)?;
    flagged_of(alloc, flags, &table.status, mirror)
}

/// The state of the mirror with the submirror offline.
pub fn offline_states(
    alloc: Global,
    table: &Table,
    mirror: VolId,
    sub: VolId,
) -> Result<Vec<VolumeStatus>, AllocError>
    ensures { IfOk result (λ states. states.items ≡ spec_switched table.now mirror sub true) }
{
    switched(alloc, table, mirror, sub, true)
}

fn kind_dirty(kind: &KindStatus) -> bool
    ensures { result ≡ spec_kind_dirty kind.now }
{
    match kind {
        KindStatus::Mirror(mirror) => has_dirty(mirror.dirty.as_slice()),
        _ => false,
    }
}

fn is_dirty(status: &Status, mirror: VolId) -> bool
    ensures { result ≡ spec_is_dirty status.now mirror }
{
    match status_at(status, mirror) {
        Some(status) => kind_dirty(&status.kind),
        None => false,
    }
}

fn parts_resumed(alloc: Global, dirty: bool, parts: &Parts) -> Result<Parts, AllocError>
    ensures { IfOk result (λ made. made ≡ map (spec_part_resumed dirty) parts.now) }
{
    let items = parts.as_slice();
    let mut made = Listed::new(alloc);
    for part in items {
        made.push(part_resumed(dirty, *part))?;
    }
    Ok(made)
}

fn kind_resumed(alloc: Global, dirty: bool, kind: &KindStatus) -> Result<KindStatus, AllocError>
    ensures { IfOk result (λ made. made ≡ spec_kind_resumed dirty kind.now) }
{
    match kind {
        KindStatus::Stripe(parts) => Ok(KindStatus::Stripe(parts_resumed(alloc, dirty, parts)?)),
        _ => kind.copied(alloc),
    }
}

fn add_resumed(
    alloc: Global,
    states: &mut Vec<VolumeStatus>,
    dirty: bool,
    status: &Status,
    sub: VolId,
) -> Result<(), AllocError>
    ensures { OnOk result (states.new.items ≡ states.old.items ++ resumed_at dirty (spec_status_at status.now sub)) }
{
    if let Some(old) = status_at(status, sub) {
        states.push(VolumeStatus {
            number: old.number,
            kind: kind_resumed(alloc, dirty, &old.kind)?,
        })?;
    }
    Ok(())
}

/// The states of the mirror and of its submirror that is offline no more: what was written meanwhile is
/// copied to it.
pub fn online_states(
    alloc: Global,
    table: &Table,
    mirror: VolId,
    sub: VolId,
) -> Result<Vec<VolumeStatus>, AllocError>
    ensures { IfOk result (λ states. states.items ≡ spec_online_states table.now mirror sub) }
{
    let mut states = switched(alloc, table, mirror, sub, false)?;
    let dirty = is_dirty(&table.status, mirror);
    add_resumed(alloc, &mut states, dirty, &table.status, sub)?;
    Ok(states)
}
