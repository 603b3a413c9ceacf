//! The making of a stripe or concatenation: what refuses it, and what the volume is.
ghost use Rattle.std.specs.Prelude.{◌≡◌, ◌≤◌, false, IfOk, length, map};
ghost use Rattle.std.specs.List.{list_any};
ghost use Rattle.mdv_plan.specs.Slices.{IsSound};
ghost use Rattle.mdv_components.specs.Causes.{order, form_causes, first_of};
ghost use Rattle.mdv_components.specs.Stripes.{all_bases as spec_all_bases, row_interlace as spec_row_interlace};
ghost use Rattle.mdv_components.specs.Stripes.{is_bad_row as spec_is_bad_row, is_empty_row as spec_is_empty_row};
ghost use Rattle.mdv_components.specs.Stripes.{used_blocks as spec_used_blocks, row_blocks as spec_row_blocks};
ghost use Rattle.mdv_components.specs.Stripes.{is_too_small as spec_is_too_small, form_cause as spec_form_cause, stripe_condition};
ghost use Rattle.mdv_components.specs.Stripes.{AreFormed};
ghost use Rattle.mdv_components.specs.Stripes.{row_on as spec_row_on, stripe_on as spec_stripe_on, stripe_status as spec_stripe_status};

use crate::asked::RowAsked;
use crate::bases::{name_cause, use_cause};
use crate::cause::Cause;
use crate::room::{components_on, interlace_of, is_bad_interlace, least_room, okay_parts};
use mdv_base::{DriveNo, PoolId, VolId};
use mdv_name::Geometry;
use mdv_plan::{
    Base, KindStatus, Listed, MAX_COMPONENTS, Plan, Row, Stripe, Volume, VolumeKind, VolumeStatus,
};
use std::alloc::{AllocError, Global};

/// The first cause for which the stripe is refused.
pub fn refuse_stripe(
    alloc: Global,
    geometry: &Geometry,
    drives: &[DriveNo],
    plan: &Plan,
    volume: VolId,
    rows: &[RowAsked],
    spares: Option<PoolId>,
) -> Result<Option<Cause>, AllocError>
    requires { IsSound geometry.now }
    ensures { IfOk result (λ cause. cause ≡ first_of (stripe_condition geometry.now drives.now plan.now volume rows.now spares) order) }
{
    let bases = all_bases(alloc, rows)?;
    let name = name_cause(geometry, drives, plan, volume, bases.as_slice(), spares);
    if name.is_some() {
        return Ok(name);
    }
    let form = form_cause(rows, bases.as_slice());
    if form.is_some() {
        return Ok(form);
    }
    let uses = plan.uses(alloc)?;
    let used = use_cause(geometry, plan, bases.as_slice(), &uses);
    if used.is_some() {
        return Ok(used);
    }
    if has_small_row(geometry, plan, rows) {
        return Ok(Some(Cause::TooSmall));
    }
    Ok(None)
}

fn all_bases(alloc: Global, rows: &[RowAsked]) -> Result<Vec<Base>, AllocError>
    ensures { IfOk result (λ bases. bases.items ≡ spec_all_bases rows.now) }
{
    let mut bases = Vec::new(alloc);
    for row in rows {
        bases.extend_from_slice(row.components.as_slice())?;
    }
    Ok(bases)
}

// The first cause that the form of the rows gives.
fn form_cause(rows: &[RowAsked], bases: &[Base]) -> Option<Cause>
    requires { bases.now ≡ spec_all_bases rows.now }
    ensures { result ≡ first_of (spec_form_cause rows.now) form_causes }
{
    if rows.is_empty() || has_empty_row(rows) {
        return Some(Cause::TooFew);
    }
    if bases.len() > MAX_COMPONENTS {
        return Some(Cause::TooMany);
    }
    if has_bad_row(rows) {
        return Some(Cause::BadInterlace);
    }
    None
}

/// Whether it has no component.
pub fn is_empty_row(row: &RowAsked) -> bool
    ensures { result ≡ spec_is_empty_row row.now }
{
    row.components.as_slice().is_empty()
}

fn has_empty_row(rows: &[RowAsked]) -> bool
    ensures { result ≡ list_any spec_is_empty_row rows.now }
{
    rows.iter().any(|row| is_empty_row(row))
}

fn row_interlace(row: &RowAsked) -> u64
    ensures { result ≡ spec_row_interlace row.now }
{
    interlace_of(row.interlace)
}

/// Whether its interlace is outside 16 to 204800 blocks.
pub fn is_bad_row(row: &RowAsked) -> bool
    ensures { result ≡ spec_is_bad_row row.now }
{
    is_bad_interlace(row_interlace(row))
}

fn has_bad_row(rows: &[RowAsked]) -> bool
    ensures { result ≡ list_any spec_is_bad_row rows.now }
{
    rows.iter().any(|row| is_bad_row(row))
}

fn used_blocks(width: usize, interlace: u64, least: u64) -> u64
    ensures { result ≡ spec_used_blocks width interlace least }
{
    if width == 1 {
        return least;
    }
    if interlace == 0 {
        return 0;
    }
    (least / interlace) * interlace
}

fn row_blocks(geometry: &Geometry, plan: &Plan, row: &RowAsked) -> u64
    requires { IsSound geometry.now }
    ensures { result ≡ spec_row_blocks geometry.now plan.now row.now }
{
    let bases = row.components.as_slice();
    let least = least_room(geometry, plan, bases);
    used_blocks(bases.len(), row_interlace(row), least)
}

/// Whether no block would remain.
pub fn is_too_small(geometry: &Geometry, plan: &Plan, row: &RowAsked) -> bool
    requires { IsSound geometry.now }
    ensures { result ≡ spec_is_too_small geometry.now plan.now row.now }
{
    row_blocks(geometry, plan, row) == 0
}

fn has_small_row(geometry: &Geometry, plan: &Plan, rows: &[RowAsked]) -> bool
    requires { IsSound geometry.now }
    ensures { result ≡ list_any (spec_is_too_small geometry.now plan.now) rows.now }
{
    rows.iter().any(|row| is_too_small(geometry, plan, row))
}

/// The stripe on these components, each with as many blocks as the least one can have.
pub fn row_on(
    alloc: Global,
    geometry: &Geometry,
    plan: &Plan,
    row: &RowAsked,
) -> Result<Row, AllocError>
    requires sound { IsSound geometry.now }
    requires few { length row.now.components ≤ 100 }
    requires interlace { spec_is_bad_row row.now ≡ false }
    ensures { IfOk result (λ made. made ≡ spec_row_on geometry.now plan.now row.now) }
{
    let blocks = row_blocks(geometry, plan, row);
    let bases = row.components.as_slice();
    let components = components_on(alloc, geometry, plan, blocks, bases)?;
    let interlace = row_interlace(row) as u32;
    Ok(Row {
        interlace,
        components,
    })
}

fn rows_on(
    alloc: Global,
    geometry: &Geometry,
    plan: &Plan,
    rows: &[RowAsked],
) -> Result<Listed<Row, MAX_COMPONENTS>, AllocError>
    requires sound { IsSound geometry.now }
    requires formed { AreFormed rows.now }
    ensures { IfOk result (λ made. made ≡ map (spec_row_on geometry.now plan.now) rows.now) }
{
    let mut made = Listed::new(alloc);
    for row in rows {
        made.push(row_on(alloc, geometry, plan, row)?)?;
    }
    Ok(made)
}

/// The volume that is asked for.
pub fn stripe_on(
    alloc: Global,
    geometry: &Geometry,
    plan: &Plan,
    volume: VolId,
    rows: &[RowAsked],
    spares: Option<PoolId>,
) -> Result<Volume, AllocError>
    requires sound { IsSound geometry.now }
    requires formed { AreFormed rows.now }
    ensures { IfOk result (λ made. made ≡ spec_stripe_on geometry.now plan.now volume rows.now spares) }
{
    let rows = rows_on(alloc, geometry, plan, rows)?;
    Ok(Volume {
        number: volume,
        kind: VolumeKind::Stripe(Stripe { rows, spares }),
    })
}

/// Its states.
pub fn stripe_status(
    alloc: Global,
    volume: VolId,
    rows: &[RowAsked],
) -> Result<VolumeStatus, AllocError>
    requires { AreFormed rows.now }
    ensures { IfOk result (λ status. status ≡ spec_stripe_status volume rows.now) }
{
    let bases = all_bases(alloc, rows)?;
    let parts = okay_parts(alloc, bases.as_slice())?;
    Ok(VolumeStatus {
        number: volume,
        kind: KindStatus::Stripe(parts),
    })
}
