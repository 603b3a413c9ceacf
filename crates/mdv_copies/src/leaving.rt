//! A submirror that is taken away, goes offline or comes back: what refuses it, and the mirror without it.
ghost use Rattle.std.specs.Prelude.{◌≡◌, ◌≤◌, IfOk, filter, length};
ghost use Rattle.std.specs.Option.{option_map};
ghost use Rattle.mdv_copies.specs.Below.{first_of, order, told, volume_of};
ghost use Rattle.mdv_copies.specs.Legs.{legs_of as spec_legs_of};
ghost use Rattle.mdv_copies.specs.Leaving.{is_held as spec_is_held, detach_condition, online_condition, detach_refusal, offline_refusal, online_refusal, stays as spec_stays};
ghost use Rattle.mdv_copies.specs.Leaving.{kind_without as spec_kind_without, without_sub as spec_without_sub, with_word as spec_with_word};

use crate::copies::is_last;
use crate::legs::{Leg, is_in, is_offline, legs_of};
use crate::states::{is_all_okay, online_word, sub_word};
use mdv_base::{Refusal, StateWord, VolId};
use mdv_components::{Carried, Cause, volume_of};
use mdv_plan::{Copied, Listed, MAX_SUBMIRRORS, Mirror, Plan, Table, Volume, VolumeKind};
use mdv_submirrors::{is_no_mirror, is_no_stripe, is_no_volume};
use std::alloc::{AllocError, Global};

/// The refusal for the cause, if there is one; one for a state tells this state.
pub fn with_word(cause: Option<Cause>, state: StateWord) -> Option<Refusal>
    ensures { result ≡ option_map (told (spec_with_word state)) cause }
{
    match cause {
        Some(cause) => Some(cause.refusal(Carried { state, blocks: 0 })),
        None => None,
    }
}

fn is_held(table: &Table, legs: &[Leg], mirror: VolId, sub: VolId, force: bool) -> bool
    requires { legs.now ≡ spec_legs_of table.now mirror }
    ensures { result ≡ spec_is_held table.now mirror sub force }
{
    !is_in(legs, sub) || (!force && !is_all_okay(table, legs, mirror, sub))
}

fn detach_cause(
    alloc: Global,
    table: &Table,
    legs: &[Leg],
    mirror: VolId,
    sub: VolId,
    force: bool,
) -> Result<Option<Cause>, AllocError>
    requires { legs.now ≡ spec_legs_of table.now mirror }
    ensures { IfOk result (λ cause. cause ≡ first_of (detach_condition table.now mirror sub force) order) }
{
    let plan = &table.plan;
    if is_no_volume(plan, mirror) || is_no_volume(plan, sub) {
        return Ok(Some(Cause::NoSuchVolume));
    }
    if is_no_mirror(plan, mirror) || is_no_stripe(plan, sub) {
        return Ok(Some(Cause::WrongKind));
    }
    if is_held(table, legs, mirror, sub, force) {
        return Ok(Some(Cause::WrongState));
    }
    if is_last(alloc, table, legs, mirror, sub)? {
        return Ok(Some(Cause::LastCopy));
    }
    Ok(None)
}

fn online_cause(table: &Table, legs: &[Leg], mirror: VolId, sub: VolId) -> Option<Cause>
    requires { legs.now ≡ spec_legs_of table.now mirror }
    ensures { result ≡ first_of (online_condition table.now mirror sub) order }
{
    let plan = &table.plan;
    if is_no_volume(plan, mirror) || is_no_volume(plan, sub) {
        return Some(Cause::NoSuchVolume);
    }
    if is_no_mirror(plan, mirror) || is_no_stripe(plan, sub) {
        return Some(Cause::WrongKind);
    }
    if !is_offline(legs, sub) {
        return Some(Cause::WrongState);
    }
    None
}

/// Why the submirror can't be taken away: the refusal for the first cause, with the state that stands in the
/// way.
pub fn refuse_detach(
    alloc: Global,
    table: &Table,
    mirror: VolId,
    sub: VolId,
    force: bool,
) -> Result<Option<Refusal>, AllocError>
    ensures { IfOk result (λ refusal. refusal ≡ detach_refusal table.now mirror sub force) }
{
    let legs = legs_of(alloc, table, mirror)?;
    let legs = legs.as_slice();
    let cause = detach_cause(alloc, table, legs, mirror, sub, force)?;
    Ok(with_word(cause, sub_word(table, legs, mirror, sub)))
}

/// Why the submirror can't go offline.
pub fn refuse_offline(
    alloc: Global,
    table: &Table,
    mirror: VolId,
    sub: VolId,
) -> Result<Option<Refusal>, AllocError>
    ensures { IfOk result (λ refusal. refusal ≡ offline_refusal table.now mirror sub) }
{
    refuse_detach(alloc, table, mirror, sub, false)
}

/// Why the submirror can't come back.
pub fn refuse_online(
    alloc: Global,
    table: &Table,
    mirror: VolId,
    sub: VolId,
) -> Result<Option<Refusal>, AllocError>
    ensures { IfOk result (λ refusal. refusal ≡ online_refusal table.now mirror sub) }
{
    let legs = legs_of(alloc, table, mirror)?;
    let legs = legs.as_slice();
    let cause = online_cause(table, legs, mirror, sub);
    Ok(with_word(cause, online_word(table, legs, mirror, sub)))
}

fn stays(sub: VolId, other: VolId) -> bool
    ensures { result ≡ spec_stays sub other }
{
    other.0 != sub.0
}

fn subs_without(
    alloc: Global,
    sub: VolId,
    subs: &[VolId],
) -> Result<Listed<VolId, MAX_SUBMIRRORS>, AllocError>
    requires { length subs.now ≤ 4 }
    ensures { IfOk result (λ made. made ≡ filter (spec_stays sub) subs.now) }
{
    let kept: Vec<VolId> = subs
        .iter()
        .copied()
        .filter(|other| stays(sub, *other))
        .collect(alloc)?;
    Listed::from_slice(alloc, kept.as_slice())
}

fn kind_without(alloc: Global, sub: VolId, kind: &VolumeKind) -> Result<VolumeKind, AllocError>
    ensures { IfOk result (λ made. made ≡ spec_kind_without sub kind.now) }
{
    match kind {
        VolumeKind::Mirror(mirror) => Ok(VolumeKind::Mirror(Mirror {
            submirrors: subs_without(alloc, sub, mirror.submirrors.as_slice())?,
            read: mirror.read,
            write: mirror.write,
            pass: mirror.pass,
            blocks: mirror.blocks,
        })),
        _ => kind.copied(alloc),
    }
}

fn without_sub(alloc: Global, sub: VolId, volume: &Volume) -> Result<Volume, AllocError>
    ensures { IfOk result (λ made. made ≡ spec_without_sub sub volume.now) }
{
    Ok(Volume {
        number: volume.number,
        kind: kind_without(alloc, sub, &volume.kind)?,
    })
}

/// The mirror without the submirror, where there is such a volume. Its size stays.
pub fn mirror_without(
    alloc: Global,
    plan: &Plan,
    mirror: VolId,
    sub: VolId,
) -> Result<Option<Volume>, AllocError>
    ensures { IfOk result (λ made. made ≡ option_map (spec_without_sub sub) (volume_of plan.now mirror)) }
{
    match volume_of(plan, mirror) {
        Some(volume) => Ok(Some(without_sub(alloc, sub, volume)?)),
        None => Ok(None),
    }
}
