//! One stripe more: what refuses it, and what changes.
ghost use Rattle.std.specs.Prelude.{◌≡◌, ◌≤◌, ◌<◌, IfOk, length};
ghost use Rattle.std.specs.Option.{option_map};
ghost use Rattle.mdv_components.specs.Causes.{first_of, name_causes, order};
ghost use Rattle.mdv_plan.specs.Slices.{IsSound};
ghost use Rattle.mdv_plan.specs.Uses.{uses_of};
ghost use Rattle.mdv_rows.specs.Below.{volume_of};
ghost use Rattle.mdv_rows.specs.Adding.{are_slices_in_use as spec_are_slices_in_use};
ghost use Rattle.mdv_rows.specs.Adding.{add_condition, rows_of as spec_rows_of, kind_rows as spec_kind_rows, is_full as spec_is_full, kind_with as spec_kind_with, with_row as spec_with_row};
ghost use Rattle.mdv_rows.specs.Adding.{with_parts as spec_with_parts, kind_with_parts as spec_kind_with_parts, status_with as spec_status_with, added_states as spec_added_states};

use crate::asking::{
    are_slices_in_use, are_volumes_in_use, is_full, is_nesting, is_wrong_kind, lacks_one, rows_of,
};
use mdv_base::{DriveNo, VolId};
use mdv_components::{
    Cause, RowAsked, has_foreign, is_bad_row, is_empty_row, is_too_small, okay_parts, volume_of,
};
use mdv_name::Geometry;
use mdv_plan::{
    Copied, KindStatus, Listed, MAX_COMPONENTS, PartStatus, Plan, Row, Status, Stripe, Volume,
    VolumeKind, VolumeStatus,
};
use mdv_submirrors::status_at;
use std::alloc::{AllocError, Global};

/// The first cause for which the volume doesn't get the stripe, whose interlace is filled in.
pub fn refuse_add(
    alloc: Global,
    geometry: &Geometry,
    drives: &[DriveNo],
    plan: &Plan,
    volume: VolId,
    row: &RowAsked,
) -> Result<Option<Cause>, AllocError>
    requires { IsSound geometry.now }
    ensures { IfOk result (λ cause. cause ≡ first_of (add_condition geometry.now drives.now plan.now volume row.now) order) }
{
    let bases = row.components.as_slice();
    let named = name_cause(geometry, drives, plan, volume, row);
    if named.is_some() {
        return Ok(named);
    }
    let uses = plan.uses(alloc)?;
    let in_use = are_slices_in_use(geometry, &uses, bases);
    let full = is_full(alloc, rows_of(plan, volume), bases.len())?;
    Ok(cause_of(geometry, drives, plan, volume, row, in_use, full))
}

// The first cause that the names give, which needs no look at what uses the table's slices.
fn name_cause(
    geometry: &Geometry,
    drives: &[DriveNo],
    plan: &Plan,
    volume: VolId,
    row: &RowAsked,
) -> Option<Cause>
    requires { IsSound geometry.now }
    ensures { result ≡ first_of (add_condition geometry.now drives.now plan.now volume row.now) name_causes }
{
    let bases = row.components.as_slice();
    if lacks_one(plan, volume, bases) {
        return Some(Cause::NoSuchVolume);
    }
    if has_foreign(geometry, drives, bases) {
        return Some(Cause::NoSuchSlice);
    }
    if is_wrong_kind(plan, volume, bases) {
        return Some(Cause::WrongKind);
    }
    None
}

fn cause_of(
    geometry: &Geometry,
    drives: &[DriveNo],
    plan: &Plan,
    volume: VolId,
    row: &RowAsked,
    in_use: bool,
    full: bool,
) -> Option<Cause>
    requires sound { IsSound geometry.now }
    requires in_use { in_use ≡ spec_are_slices_in_use geometry.now (uses_of plan.now) row.now.components }
    requires full { full ≡ spec_is_full (spec_rows_of plan.now volume) (length row.now.components) }
    ensures { result ≡ first_of (add_condition geometry.now drives.now plan.now volume row.now) order }
{
    let bases = row.components.as_slice();
    if lacks_one(plan, volume, bases) {
        return Some(Cause::NoSuchVolume);
    }
    if has_foreign(geometry, drives, bases) {
        return Some(Cause::NoSuchSlice);
    }
    if is_wrong_kind(plan, volume, bases) {
        return Some(Cause::WrongKind);
    }
    if is_empty_row(row) {
        return Some(Cause::TooFew);
    }
    if full {
        return Some(Cause::TooMany);
    }
    if is_bad_row(row) {
        return Some(Cause::BadInterlace);
    }
    if in_use {
        return Some(Cause::SliceInUse);
    }
    if are_volumes_in_use(plan, volume, bases) {
        return Some(Cause::HasParent);
    }
    if is_nesting(plan, volume, bases) {
        return Some(Cause::Nested);
    }
    if is_too_small(geometry, plan, row) {
        return Some(Cause::TooSmall);
    }
    None
}

fn stripe_with(alloc: Global, stripe: &Stripe, row: Row) -> Result<Stripe, AllocError>
    requires { length stripe.now.rows < 100 }
    ensures { IfOk result (λ made. spec_kind_with row (VolumeKind.Stripe stripe.now) ≡ VolumeKind.Stripe made) }
{
    let mut made = stripe.copied(alloc)?;
    made.rows.push(row)?;
    Ok(made)
}

fn kind_with(alloc: Global, kind: &VolumeKind, row: Row) -> Result<VolumeKind, AllocError>
    requires { length (spec_kind_rows kind.now) < 100 }
    ensures { IfOk result (λ made. made ≡ spec_kind_with row kind.now) }
{
    match kind {
        VolumeKind::Stripe(stripe) => Ok(VolumeKind::Stripe(stripe_with(alloc, stripe, row)?)),
        _ => kind.copied(alloc),
    }
}

/// The volume with the stripe behind its others, where there is such a volume.
pub fn volume_with_row(
    alloc: Global,
    plan: &Plan,
    volume: VolId,
    row: Row,
) -> Result<Option<Volume>, AllocError>
    requires { length (spec_rows_of plan.now volume) < 100 }
    ensures { IfOk result (λ made. made ≡ option_map (spec_with_row row) (volume_of plan.now volume)) }
{
    match volume_of(plan, volume) {
        Some(volume) => Ok(Some(Volume {
            number: volume.number,
            kind: kind_with(alloc, &volume.kind, row)?,
        })),
        None => Ok(None),
    }
}

fn with_parts(
    alloc: Global,
    had: &Listed<PartStatus, MAX_COMPONENTS>,
    new: &[PartStatus],
) -> Result<Listed<PartStatus, MAX_COMPONENTS>, AllocError>
    ensures { IfOk result (λ made. made ≡ spec_with_parts had.now new.now) }
{
    let parts = had.as_slice();
    if MAX_COMPONENTS - parts.len() < new.len() {
        return had.copy(alloc);
    }
    let mut all = Vec::from_slice(alloc, parts)?;
    all.extend_from_slice(new)?;
    Listed::from_slice(alloc, all.as_slice())
}

fn kind_with_parts(
    alloc: Global,
    kind: &KindStatus,
    new: &[PartStatus],
) -> Result<KindStatus, AllocError>
    ensures { IfOk result (λ made. made ≡ spec_kind_with_parts new.now kind.now) }
{
    match kind {
        KindStatus::Stripe(parts) => Ok(KindStatus::Stripe(with_parts(alloc, parts, new)?)),
        _ => kind.copied(alloc),
    }
}

fn status_with(
    alloc: Global,
    status: &VolumeStatus,
    new: &[PartStatus],
) -> Result<VolumeStatus, AllocError>
    ensures { IfOk result (λ made. made ≡ spec_status_with new.now status.now) }
{
    Ok(VolumeStatus {
        number: status.number,
        kind: kind_with_parts(alloc, &status.kind, new)?,
    })
}

/// The states of the volume with those of the new components, which are Okay.
pub fn added_states(
    alloc: Global,
    status: &Status,
    volume: VolId,
    row: &RowAsked,
) -> Result<Vec<VolumeStatus>, AllocError>
    requires { length row.now.components ≤ 100 }
    ensures { IfOk result (λ states. states.items ≡ spec_added_states status.now volume row.now) }
{
    let new: Listed<PartStatus, MAX_COMPONENTS> = okay_parts(alloc, row.components.as_slice())?;
    let mut states = Vec::new(alloc);
    if let Some(old) = status_at(status, volume) {
        states.push(status_with(alloc, old, new.as_slice())?)?;
    }
    Ok(states)
}
