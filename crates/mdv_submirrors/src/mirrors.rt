//! The making of a mirror: what refuses it, and what it is.
ghost use Rattle.std.specs.Prelude.{◌≡◌, ◌≤◌, ◌^◌, IfOk, length, map};
ghost use Rattle.std.specs.List.{list_any};
ghost use Rattle.mdv_components.specs.Causes.{first_of, order};
ghost use Rattle.mdv_plan.specs.Parents.{has_parent};
ghost use Rattle.mdv_submirrors.specs.Mirrors.{mirror_condition, mirror_on as spec_mirror_on, mirror_status as spec_mirror_status, mirror_blocks as spec_mirror_blocks};
ghost use Rattle.mdv_submirrors.specs.Mirrors.{same_volume, has_twice as spec_has_twice, starts_offline as spec_starts_offline};

use crate::sizes::{MOST_BLOCKS, blocks_of, has_no_stripe, has_no_volume};
use mdv_base::VolId;
use mdv_components::{Cause, MAX_NAMES, volume_of};
use mdv_plan::{
    KindStatus, Listed, MAX_SUBMIRRORS, Mirror, MirrorStatus, Plan, ReadOption, Regions, Volume,
    VolumeKind, VolumeStatus, WriteOption,
};
use std::alloc::{AllocError, Global};

/// A mirror that is asked for.
#[derive(Drop)]
pub struct MirrorAsked {
    pub submirrors: Listed<VolId, MAX_NAMES>,
    pub read: ReadOption,
    pub write: WriteOption,
    /// 1 to 9.
    pub pass: u8,
}

/// The first cause for which a mirror of these submirrors is refused.
pub fn refuse_mirror(plan: &Plan, volume: VolId, subs: &[VolId]) -> Option<Cause>
    ensures { result ≡ first_of (mirror_condition plan.now volume subs.now) order }
{
    if has_no_volume(plan, subs) {
        return Some(Cause::NoSuchVolume);
    }
    if volume_of(plan, volume).is_some() {
        return Some(Cause::NameTaken);
    }
    if has_no_stripe(plan, subs) {
        return Some(Cause::WrongKind);
    }
    if subs.is_empty() {
        return Some(Cause::TooFew);
    }
    if subs.len() > MAX_SUBMIRRORS {
        return Some(Cause::TooMany);
    }
    if has_user(plan, subs) || has_twice(subs) {
        return Some(Cause::HasParent);
    }
    if mirror_blocks(plan, subs) == 0 {
        return Some(Cause::TooSmall);
    }
    None
}

fn has_user(plan: &Plan, subs: &[VolId]) -> bool
    ensures { result ≡ list_any (has_parent plan.now) subs.now }
{
    subs.iter().any(|sub| plan.has_parent(*sub))
}

fn is_among(volume: VolId, volumes: &[VolId]) -> bool
    ensures { result ≡ list_any (same_volume volume) volumes.now }
{
    volumes.iter().any(|other| volume.0 == other.0)
}

// Whether a volume stands in the list twice.
fn has_twice(volumes: &[VolId]) -> bool
    ensures { result ≡ spec_has_twice volumes.now }
{
    let mut rest = volumes;
    while let [first, behind @ ..] = rest {
        if is_among(*first, behind) {
            return true;
        }
        rest = behind;
    }
    false
}

fn mirror_blocks(plan: &Plan, subs: &[VolId]) -> u64
    ensures { result ≡ spec_mirror_blocks plan.now subs.now }
{
    let mut least = MOST_BLOCKS;
    for sub in subs {
        least = least.min(blocks_of(plan, *sub));
    }
    least
}

/// The mirror that is asked for.
pub fn mirror_on(
    alloc: Global,
    plan: &Plan,
    volume: VolId,
    asked: &MirrorAsked,
) -> Result<Volume, AllocError>
    requires { length asked.now.submirrors ≤ 4 }
    ensures { IfOk result (λ made. made ≡ spec_mirror_on plan.now volume asked.now) }
{
    let subs = asked.submirrors.as_slice();
    Ok(Volume {
        number: volume,
        kind: VolumeKind::Mirror(Mirror {
            submirrors: Listed::from_slice(alloc, subs)?,
            read: asked.read,
            write: asked.write,
            pass: asked.pass,
            blocks: mirror_blocks(plan, subs),
        }),
    })
}

fn starts_offline(_sub: VolId) -> bool
    ensures { result ≡ spec_starts_offline _sub }
{
    false
}

fn none_offline(alloc: Global, subs: &[VolId]) -> Result<Listed<bool, MAX_SUBMIRRORS>, AllocError>
    requires { length subs.now ≤ 4 }
    ensures { IfOk result (λ flags. flags ≡ map spec_starts_offline subs.now) }
{
    let mut flags = Listed::new(alloc);
    for sub in subs {
        flags.push(starts_offline(*sub))?;
    }
    Ok(flags)
}

/// Its states.
pub fn mirror_status(
    alloc: Global,
    volume: VolId,
    subs: &[VolId],
) -> Result<VolumeStatus, AllocError>
    requires { length subs.now ≤ 4 }
    ensures { IfOk result (λ status. status ≡ spec_mirror_status volume subs.now) }
{
    let offline = none_offline(alloc, subs)?;
    let dirty = Regions::clean(alloc)?;
    Ok(VolumeStatus {
        number: volume,
        kind: KindStatus::Mirror(MirrorStatus { offline, dirty }),
    })
}
