//! The stripes that a volume has, and what is asked for behind them.
ghost use Rattle.std.specs.Prelude.{◌≡◌, ◌≤◌, IfOk, length};
ghost use Rattle.std.specs.List.{flat_map, list_any};
ghost use Rattle.mdv_rows.specs.Adding.{kind_rows as spec_kind_rows, rows_of as spec_rows_of, last_interlace as spec_last_interlace, filled as spec_filled};
ghost use Rattle.mdv_plan.specs.Slices.{IsSound};
ghost use Rattle.mdv_rows.specs.Adding.{lacks_one as spec_lacks_one, is_wrong_kind as spec_is_wrong_kind, are_slices_in_use as spec_are_slices_in_use};
ghost use Rattle.mdv_rows.specs.Adding.{are_volumes_in_use as spec_are_volumes_in_use, is_nesting as spec_is_nesting};
ghost use Rattle.mdv_rows.specs.Adding.{parts_of, is_full as spec_is_full, is_soft as spec_is_soft};

use mdv_base::VolId;
use mdv_components::{
    RowAsked, has_meeting, has_missing, has_no_leaf, has_slice_in_use, has_twice,
    has_volume_in_use, volume_of,
};
use mdv_name::Geometry;
use mdv_plan::{Base, Component, MAX_COMPONENTS, Plan, Row, Uses, VolumeKind};
use mdv_submirrors::is_no_stripe;
use std::alloc::{AllocError, Global};

fn kind_rows(kind: &VolumeKind) -> &[Row]
    ensures value { result.now ≡ spec_kind_rows kind.now }
    ensures few { length result.now ≤ 100 }
{
    match kind {
        VolumeKind::Stripe(stripe) => stripe.rows.as_slice(),
        _ => &[],
    }
}

/// The stripes of the volume, in order; none of one that isn't there or has no stripes.
pub fn rows_of(plan: &Plan, volume: VolId) -> &[Row]
    ensures value { result.now ≡ spec_rows_of plan.now volume }
    ensures few { length result.now ≤ 100 }
{
    match volume_of(plan, volume) {
        Some(volume) => kind_rows(&volume.kind),
        None => &[],
    }
}

fn last_interlace(rows: &[Row]) -> u64
    ensures { result ≡ spec_last_interlace rows.now }
{
    let mut interlace = 32;
    for row in rows {
        interlace = u64::from(row.interlace);
    }
    interlace
}

/// What is asked for, with the interlace of the volume's last stripe where none is.
pub fn filled(
    alloc: Global,
    plan: &Plan,
    volume: VolId,
    row: &RowAsked,
) -> Result<RowAsked, AllocError>
    ensures { IfOk result (λ made. made ≡ spec_filled (spec_rows_of plan.now volume) row.now) }
{
    let last = last_interlace(rows_of(plan, volume));
    Ok(RowAsked {
        components: row.components.copy(alloc)?,
        interlace: Some(row.interlace.unwrap_or(last)),
    })
}

/// The components of the stripes, one stripe after another.
pub fn components_in(alloc: Global, rows: &[Row]) -> Result<Vec<Component>, AllocError>
    ensures { IfOk result (λ parts. parts.items ≡ flat_map parts_of rows.now) }
{
    let mut parts = Vec::new(alloc);
    for row in rows {
        parts.extend_from_slice(row.components.as_slice())?;
    }
    Ok(parts)
}

// Whether the rows and so many components more are too many for a volume.
pub(crate) fn is_full(alloc: Global, rows: &[Row], new: usize) -> Result<bool, AllocError>
    requires { length rows.now ≤ 100 }
    ensures { IfOk result (λ full. full ≡ spec_is_full rows.now new) }
{
    let parts = components_in(alloc, rows)?;
    let had = parts.len();
    Ok(rows.len() >= MAX_COMPONENTS || had > MAX_COMPONENTS || MAX_COMPONENTS - had < new)
}

/// Whether the volume or one of the components isn't there.
pub fn lacks_one(plan: &Plan, volume: VolId, bases: &[Base]) -> bool
    ensures { result ≡ spec_lacks_one plan.now volume bases.now }
{
    volume_of(plan, volume).is_none() || has_missing(plan, bases)
}

pub(crate) fn is_wrong_kind(plan: &Plan, volume: VolId, bases: &[Base]) -> bool
    ensures { result ≡ spec_is_wrong_kind plan.now volume bases.now }
{
    is_no_stripe(plan, volume) || has_no_leaf(plan, bases)
}

pub(crate) fn are_slices_in_use(geometry: &Geometry, uses: &Uses, bases: &[Base]) -> bool
    requires { IsSound geometry.now }
    ensures { result ≡ spec_are_slices_in_use geometry.now uses.now bases.now }
{
    has_slice_in_use(geometry, uses, bases) || has_meeting(geometry, bases)
}

pub(crate) fn are_volumes_in_use(plan: &Plan, volume: VolId, bases: &[Base]) -> bool
    ensures { result ≡ spec_are_volumes_in_use plan.now volume bases.now }
{
    plan.is_taken(volume) || (has_volume_in_use(plan, bases) || has_twice(bases))
}

fn is_soft(base: Base) -> bool
    ensures { result ≡ spec_is_soft base }
{
    match base {
        Base::Slice(_) => false,
        Base::Volume(_) => true,
    }
}

fn has_soft(bases: &[Base]) -> bool
    ensures { result ≡ list_any spec_is_soft bases.now }
{
    bases.iter().any(|base| is_soft(*base))
}

/// Whether soft partitions lie on the volume, and one would be its component.
pub fn is_nesting(plan: &Plan, volume: VolId, bases: &[Base]) -> bool
    ensures { result ≡ spec_is_nesting plan.now volume bases.now }
{
    plan.has_parent(volume) && has_soft(bases)
}
