//! How many blocks a submirror has.
ghost use Rattle.std.specs.Prelude.{◌≡◌, ◌≤◌, ◌^◌, min, sum_by};
ghost use Rattle.std.specs.List.{list_any};
ghost use Rattle.mdv_submirrors.specs.Sizes.{part_blocks, row_blocks as spec_row_blocks, stripe_blocks as spec_stripe_blocks, blocks_of as spec_blocks_of};
ghost use Rattle.mdv_submirrors.specs.Sizes.{is_no_volume as spec_is_no_volume, is_stripe as spec_is_stripe, is_no_stripe as spec_is_no_stripe};

use mdv_base::VolId;
use mdv_components::volume_of;
use mdv_plan::{Component, Plan, Row, VolumeKind};

// No more blocks of a stripe count.
pub(crate) const MOST_BLOCKS: u64 = 1 << 63;

fn sum_of(components: &[Component]) -> u64
    ensures { result ≡ min (sum_by part_blocks components.now) (2 ^ 63) }
{
    let mut blocks: u64 = 0;
    for component in components {
        blocks = blocks.saturating_add(component.blocks).min(MOST_BLOCKS);
    }
    blocks
}

/// The blocks of one stripe. No more than 2^63 count.
pub fn row_blocks(row: &Row) -> u64
    ensures value { result ≡ spec_row_blocks row.now }
    ensures most { result ≤ 2 ^ 63 }
{
    sum_of(row.components.as_slice())
}

fn rows_blocks(rows: &[Row]) -> u64
    ensures { result ≡ min (sum_by spec_row_blocks rows.now) (2 ^ 63) }
{
    let mut blocks: u64 = 0;
    for row in rows {
        blocks = blocks.saturating_add(row_blocks(row)).min(MOST_BLOCKS);
    }
    blocks
}

/// The blocks of a stripe or concatenation; a volume of another kind has none here. No more than 2^63 count.
pub fn stripe_blocks(kind: &VolumeKind) -> u64
    ensures value { result ≡ spec_stripe_blocks kind.now }
    ensures most { result ≤ 2 ^ 63 }
{
    match kind {
        VolumeKind::Stripe(stripe) => rows_blocks(stripe.rows.as_slice()),
        _ => 0,
    }
}

/// The blocks of the stripe or concatenation of this number; a volume of another kind has none here.
pub fn blocks_of(plan: &Plan, volume: VolId) -> u64
    ensures { result ≡ spec_blocks_of plan.now volume }
{
    match volume_of(plan, volume) {
        Some(volume) => stripe_blocks(&volume.kind),
        None => 0,
    }
}

/// Whether the plan has no volume of this number.
pub fn is_no_volume(plan: &Plan, volume: VolId) -> bool
    ensures { result ≡ spec_is_no_volume plan.now volume }
{
    volume_of(plan, volume).is_none()
}

pub(crate) fn has_no_volume(plan: &Plan, volumes: &[VolId]) -> bool
    ensures { result ≡ list_any (spec_is_no_volume plan.now) volumes.now }
{
    volumes.iter().any(|volume| is_no_volume(plan, *volume))
}

fn is_stripe(kind: &VolumeKind) -> bool
    ensures { result ≡ spec_is_stripe kind.now }
{
    matches!(kind, VolumeKind::Stripe(_))
}

/// Whether the plan has no stripe or concatenation of this number.
pub fn is_no_stripe(plan: &Plan, volume: VolId) -> bool
    ensures { result ≡ spec_is_no_stripe plan.now volume }
{
    match volume_of(plan, volume) {
        Some(volume) => !is_stripe(&volume.kind),
        None => true,
    }
}

pub(crate) fn has_no_stripe(plan: &Plan, volumes: &[VolId]) -> bool
    ensures { result ≡ list_any (spec_is_no_stripe plan.now) volumes.now }
{
    volumes.iter().any(|volume| is_no_stripe(plan, *volume))
}
