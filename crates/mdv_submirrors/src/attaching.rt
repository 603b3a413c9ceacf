//! One submirror more: what refuses it, and what changes.
ghost use Rattle.std.specs.Prelude.{◌≡◌, ◌≤◌, ◌<◌, ◌∷◌, ◌++◌, [], IfOk, length};
ghost use Rattle.mdv_components.specs.Causes.{first_of, order};
ghost use Rattle.mdv_submirrors.specs.Attaching.{attach_condition, is_nesting as spec_is_nesting, is_mirror as spec_is_mirror, is_no_mirror as spec_is_no_mirror, kind_subs as spec_kind_subs, subs_of as spec_subs_of};
ghost use Rattle.mdv_submirrors.specs.Attaching.{kind_size as spec_kind_size, size_of as spec_size_of, kind_with as spec_kind_with, with_sub as spec_with_sub, flags_with as spec_flags_with};
ghost use Rattle.mdv_submirrors.specs.Attaching.{flagged as spec_flagged, with_flag as spec_with_flag, attach_states as spec_attach_states};
ghost use Rattle.std.specs.Option.{option_map};
ghost use Rattle.mdv_submirrors.specs.Below.{volume_of};

use crate::joining::{joined, status_at};
use crate::sizes::{blocks_of, is_no_stripe, is_no_volume};
use mdv_base::VolId;
use mdv_components::{Cause, has_soft_in, volume_of};
use mdv_plan::{
    Copied, KindStatus, Listed, MAX_SUBMIRRORS, Mirror, MirrorStatus, Plan, Resync, State, Status,
    Volume, VolumeKind, VolumeStatus,
};
use std::alloc::{AllocError, Global};

/// The first cause for which the stripe can't become a submirror of the mirror.
pub fn refuse_attach(plan: &Plan, mirror: VolId, sub: VolId) -> Option<Cause>
    ensures { result ≡ first_of (attach_condition plan.now mirror sub) order }
{
    if is_no_volume(plan, mirror) || is_no_volume(plan, sub) {
        return Some(Cause::NoSuchVolume);
    }
    if is_no_mirror(plan, mirror) || is_no_stripe(plan, sub) {
        return Some(Cause::WrongKind);
    }
    if subs_of(plan, mirror).len() >= MAX_SUBMIRRORS {
        return Some(Cause::TooMany);
    }
    if plan.has_parent(sub) {
        return Some(Cause::HasParent);
    }
    if is_nesting(plan, mirror, sub) {
        return Some(Cause::Nested);
    }
    if blocks_of(plan, sub) < size_of(plan, mirror) {
        return Some(Cause::TooSmall);
    }
    None
}

// Whether soft partitions lie on the mirror, and the stripe has one as a component, which is looked up first.
fn is_nesting(plan: &Plan, mirror: VolId, sub: VolId) -> bool
    ensures { result ≡ spec_is_nesting plan.now mirror sub }
{
    has_soft_in(plan, sub) && plan.has_parent(mirror)
}

fn is_mirror(kind: &VolumeKind) -> bool
    ensures { result ≡ spec_is_mirror kind.now }
{
    matches!(kind, VolumeKind::Mirror(_))
}

/// Whether the plan has no mirror of this number.
pub fn is_no_mirror(plan: &Plan, volume: VolId) -> bool
    ensures { result ≡ spec_is_no_mirror plan.now volume }
{
    match volume_of(plan, volume) {
        Some(volume) => !is_mirror(&volume.kind),
        None => true,
    }
}

fn kind_subs(kind: &VolumeKind) -> &[VolId]
    ensures value { result.now ≡ spec_kind_subs kind.now }
    ensures few { length result.now ≤ 4 }
{
    match kind {
        VolumeKind::Mirror(mirror) => mirror.submirrors.as_slice(),
        _ => &[],
    }
}

/// The submirrors of a mirror; a volume of another kind has none.
pub fn subs_of(plan: &Plan, volume: VolId) -> &[VolId]
    ensures value { result.now ≡ spec_subs_of plan.now volume }
    ensures few { length result.now ≤ 4 }
{
    match volume_of(plan, volume) {
        Some(volume) => kind_subs(&volume.kind),
        None => &[],
    }
}

fn kind_size(kind: &VolumeKind) -> u64
    ensures { result ≡ spec_kind_size kind.now }
{
    match kind {
        VolumeKind::Mirror(mirror) => mirror.blocks,
        _ => 0,
    }
}

/// The size of a mirror; a volume of another kind has none here.
pub fn size_of(plan: &Plan, volume: VolId) -> u64
    ensures { result ≡ spec_size_of plan.now volume }
{
    match volume_of(plan, volume) {
        Some(volume) => kind_size(&volume.kind),
        None => 0,
    }
}

fn mirror_with(alloc: Global, mirror: &Mirror, sub: VolId) -> Result<Mirror, AllocError>
    requires { length mirror.now.submirrors < 4 }
    ensures { IfOk result (λ made. made ≡ record mirror.now { submirrors = mirror.now.submirrors ++ sub ∷ [] }) }
{
    let mut made = mirror.copied(alloc)?;
    made.submirrors.push(sub)?;
    Ok(made)
}

fn kind_with(alloc: Global, kind: &VolumeKind, sub: VolId) -> Result<VolumeKind, AllocError>
    requires { length (spec_kind_subs kind.now) < 4 }
    ensures { IfOk result (λ made. made ≡ spec_kind_with sub kind.now) }
{
    match kind {
        VolumeKind::Mirror(mirror) => Ok(VolumeKind::Mirror(mirror_with(alloc, mirror, sub)?)),
        _ => kind.copied(alloc),
    }
}

fn with_sub(alloc: Global, volume: &Volume, sub: VolId) -> Result<Volume, AllocError>
    requires { length (spec_kind_subs volume.now.kind) < 4 }
    ensures { IfOk result (λ made. made ≡ spec_with_sub sub volume.now) }
{
    Ok(Volume {
        number: volume.number,
        kind: kind_with(alloc, &volume.kind, sub)?,
    })
}

/// The mirror with the submirror behind its others, where there is such a volume.
pub fn mirror_with_sub(
    alloc: Global,
    plan: &Plan,
    mirror: VolId,
    sub: VolId,
) -> Result<Option<Volume>, AllocError>
    requires { length (spec_subs_of plan.now mirror) < 4 }
    ensures { IfOk result (λ made. made ≡ option_map (spec_with_sub sub) (volume_of plan.now mirror)) }
{
    match volume_of(plan, mirror) {
        Some(volume) => Ok(Some(with_sub(alloc, volume, sub)?)),
        None => Ok(None),
    }
}

fn flags_with(
    alloc: Global,
    flags: &Listed<bool, MAX_SUBMIRRORS>,
) -> Result<Listed<bool, MAX_SUBMIRRORS>, AllocError>
    ensures { IfOk result (λ made. made ≡ spec_flags_with flags.now) }
{
    let mut made = flags.copy(alloc)?;
    if !made.is_full() {
        made.push(false)?;
    }
    Ok(made)
}

fn flagged(alloc: Global, kind: &KindStatus) -> Result<KindStatus, AllocError>
    ensures { IfOk result (λ made. made ≡ spec_flagged kind.now) }
{
    match kind {
        KindStatus::Mirror(mirror) => {
            let offline = flags_with(alloc, &mirror.offline)?;
            let dirty = mirror.dirty.copied(alloc)?;
            Ok(KindStatus::Mirror(MirrorStatus { offline, dirty }))
        }
        _ => kind.copied(alloc),
    }
}

fn with_flag(alloc: Global, status: &VolumeStatus) -> Result<VolumeStatus, AllocError>
    ensures { IfOk result (λ made. made ≡ spec_with_flag status.now) }
{
    Ok(VolumeStatus {
        number: status.number,
        kind: flagged(alloc, &status.kind)?,
    })
}

/// The states of the mirror and of its new submirror, which is copied whole.
pub fn attach_states(
    alloc: Global,
    status: &Status,
    mirror: VolId,
    sub: VolId,
) -> Result<Vec<VolumeStatus>, AllocError>
    ensures { IfOk result (λ states. states.items ≡ spec_attach_states status.now mirror sub) }
{
    let mut states = Vec::new(alloc);
    if let Some(old) = status_at(status, mirror) {
        states.push(with_flag(alloc, old)?)?;
    }
    let copied = State::Resyncing(Resync::Whole);
    states.push(joined(alloc, copied, status, sub)?)?;
    Ok(states)
}
