//! The submirrors of a mirror, each with whether it is offline.
ghost use Rattle.std.specs.Prelude.{◌≡◌, ◌≤◌, IfOk, length, drop, map};
ghost use Rattle.mdv_copies.specs.Legs.{legs, legs_of as spec_legs_of, kind_flags as spec_kind_flags, flags_at, is_leg as spec_is_leg, is_offline_leg as spec_is_offline_leg};
ghost use Rattle.mdv_copies.specs.Legs.{is_in as spec_is_in, is_offline as spec_is_offline, is_other as spec_is_other, is_beside as spec_is_beside, others as spec_others};
ghost use Rattle.mdv_copies.specs.Legs.{flags_less as spec_flags_less, leg_put as spec_leg_put, volume_in, flag_in, first_flag as spec_first_flag, flags_with as spec_flags_with};
ghost use Rattle.mdv_copies.specs.Below.{status_at as spec_status_at};

use mdv_base::VolId;
use mdv_plan::{KindStatus, Listed, MAX_SUBMIRRORS, Status, Table};
use mdv_submirrors::{status_at, subs_of};
use std::alloc::{AllocError, Global};

/// A submirror of a mirror.
#[derive(Clone, Copy, Debug, PartialEq, Eq)]
pub struct Leg {
    pub volume: VolId,
    pub offline: bool,
}

/// Those of a mirror, in order.
pub type Legs = Listed<Leg, MAX_SUBMIRRORS>;

/// Whether each of them is offline, in order.
pub(crate) type Flags = Listed<bool, MAX_SUBMIRRORS>;

fn kind_flags(kind: &KindStatus) -> &[bool]
    ensures { result.now ≡ spec_kind_flags kind.now }
{
    match kind {
        KindStatus::Mirror(mirror) => mirror.offline.as_slice(),
        _ => &[],
    }
}

fn flags_of(status: &Status, volume: VolId) -> &[bool]
    ensures { result.now ≡ flags_at (spec_status_at status.now volume) }
{
    match status_at(status, volume) {
        Some(status) => kind_flags(&status.kind),
        None => &[],
    }
}

fn joined(alloc: Global, subs: &[VolId], flags: &[bool]) -> Result<Legs, AllocError>
    requires { length subs.now ≤ 4 }
    ensures { IfOk result (λ made. made ≡ legs subs.now flags.now) }
{
    let mut made = Listed::new(alloc);
    let mut rest = subs;
    let mut noted = flags;
    while let [volume, behind @ ..] = rest {
        let offline = first_flag(noted);
        made.push(Leg {
            volume: *volume,
            offline,
        })?;
        rest = behind;
        noted = flags_behind(noted);
    }
    Ok(made)
}

fn first_flag(flags: &[bool]) -> bool
    ensures { result ≡ spec_first_flag flags.now }
{
    match flags {
        [first, ..] => *first,
        [] => false,
    }
}

fn flags_behind(flags: &[bool]) -> &[bool]
    ensures { result.now ≡ drop 1 flags.now }
{
    match flags {
        [_, behind @ ..] => behind,
        [] => flags,
    }
}

/// The submirrors of the mirror.
pub fn legs_of(alloc: Global, table: &Table, mirror: VolId) -> Result<Legs, AllocError>
    ensures { IfOk result (λ made. made ≡ spec_legs_of table.now mirror) }
{
    let flags = flags_of(&table.status, mirror);
    joined(alloc, subs_of(&table.plan, mirror), flags)
}

fn is_leg(volume: VolId, leg: Leg) -> bool
    ensures { result ≡ spec_is_leg volume leg }
{
    leg.volume.0 == volume.0
}

fn is_offline_leg(volume: VolId, leg: Leg) -> bool
    ensures { result ≡ spec_is_offline_leg volume leg }
{
    is_leg(volume, leg) && leg.offline
}

pub(crate) fn is_in(legs: &[Leg], volume: VolId) -> bool
    ensures { result ≡ spec_is_in legs.now volume }
{
    legs.iter().any(|leg| is_leg(volume, *leg))
}

pub(crate) fn is_offline(legs: &[Leg], volume: VolId) -> bool
    ensures { result ≡ spec_is_offline legs.now volume }
{
    legs.iter().any(|leg| is_offline_leg(volume, *leg))
}

fn is_other(volume: VolId, leg: Leg) -> bool
    ensures { result ≡ spec_is_other volume leg }
{
    !is_leg(volume, leg)
}

fn is_beside(volume: VolId, leg: Leg) -> bool
    ensures { result ≡ spec_is_beside volume leg }
{
    is_other(volume, leg) && !leg.offline
}

/// The other submirrors that aren't offline.
pub(crate) fn others(alloc: Global, legs: &[Leg], volume: VolId) -> Result<Vec<VolId>, AllocError>
    ensures { IfOk result (λ made. made.items ≡ spec_others legs.now volume) }
{
    let beside: Vec<Leg> = legs
        .iter()
        .copied()
        .filter(|leg| is_beside(volume, *leg))
        .collect(alloc)?;
    volumes_in(alloc, beside.as_slice())
}

fn volumes_in(alloc: Global, legs: &[Leg]) -> Result<Vec<VolId>, AllocError>
    ensures { IfOk result (λ made. made.items ≡ map volume_in legs.now) }
{
    let mut made = Vec::new(alloc);
    for leg in legs {
        made.push(leg.volume)?;
    }
    Ok(made)
}

fn flags_in(alloc: Global, legs: &[Leg]) -> Result<Vec<bool>, AllocError>
    ensures { IfOk result (λ made. made.items ≡ map flag_in legs.now) }
{
    let mut made = Vec::new(alloc);
    for leg in legs {
        made.push(leg.offline)?;
    }
    Ok(made)
}

/// The flags of the other submirrors.
pub(crate) fn flags_less(alloc: Global, legs: &Legs, volume: VolId) -> Result<Flags, AllocError>
    ensures { IfOk result (λ made. made ≡ spec_flags_less legs.now volume) }
{
    let kept: Vec<Leg> = legs
        .as_slice()
        .iter()
        .copied()
        .filter(|leg| is_other(volume, *leg))
        .collect(alloc)?;
    let flags = flags_in(alloc, kept.as_slice())?;
    Listed::from_slice(alloc, flags.as_slice())
}

fn leg_put(volume: VolId, offline: bool, leg: Leg) -> Leg
    ensures { result ≡ spec_leg_put volume offline leg }
{
    if is_leg(volume, leg) {
        Leg { offline, ..leg }
    } else {
        leg
    }
}

fn legs_put(
    alloc: Global,
    legs: &[Leg],
    volume: VolId,
    offline: bool,
) -> Result<Vec<Leg>, AllocError>
    ensures { IfOk result (λ made. made.items ≡ map (spec_leg_put volume offline) legs.now) }
{
    let mut made = Vec::new(alloc);
    for leg in legs {
        made.push(leg_put(volume, offline, *leg))?;
    }
    Ok(made)
}

/// The flags, with that of this submirror set so.
pub(crate) fn flags_with(
    alloc: Global,
    legs: &Legs,
    volume: VolId,
    offline: bool,
) -> Result<Flags, AllocError>
    ensures { IfOk result (λ made. made ≡ spec_flags_with legs.now volume offline) }
{
    let put = legs_put(alloc, legs.as_slice(), volume, offline)?;
    let flags = flags_in(alloc, put.as_slice())?;
    Listed::from_slice(alloc, flags.as_slice())
}
