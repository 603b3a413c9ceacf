//! What may lie below a volume.
ghost use Rattle.std.specs.Prelude.{◌≡◌};
ghost use Rattle.std.specs.List.{list_all};
ghost use Rattle.mdv_shape.specs.Kinds.{is_leaf_part as spec_is_leaf_part, is_leaf_row as spec_is_leaf_row, is_stripe_there as spec_is_stripe_there};
ghost use Rattle.mdv_shape.specs.Kinds.{is_kind_below as spec_is_kind_below, is_volume_below as spec_is_volume_below, are_below as spec_are_below};

use mdv_base::VolId;
use mdv_components::{is_missing, is_no_leaf, no_pool};
use mdv_plan::{Component, Plan, Row, Volume, VolumeKind};
use mdv_softs::is_nested;
use mdv_submirrors::is_no_stripe;

fn is_leaf_part(plan: &Plan, component: &Component) -> bool
    ensures { result ≡ spec_is_leaf_part plan.now component.now }
{
    !is_no_leaf(plan, component.on)
}

fn are_leaves(plan: &Plan, components: &[Component]) -> bool
    ensures { result ≡ list_all (spec_is_leaf_part plan.now) components.now }
{
    components
        .iter()
        .all(|component| is_leaf_part(plan, component))
}

fn is_leaf_row(plan: &Plan, row: &Row) -> bool
    ensures { result ≡ spec_is_leaf_row plan.now row.now }
{
    are_leaves(plan, row.components.as_slice())
}

fn are_leaf_rows(plan: &Plan, rows: &[Row]) -> bool
    ensures { result ≡ list_all (spec_is_leaf_row plan.now) rows.now }
{
    rows.iter().all(|row| is_leaf_row(plan, row))
}

fn is_stripe_there(plan: &Plan, volume: VolId) -> bool
    ensures { result ≡ spec_is_stripe_there plan.now volume }
{
    !is_no_stripe(plan, volume)
}

fn are_stripes(plan: &Plan, volumes: &[VolId]) -> bool
    ensures { result ≡ list_all (spec_is_stripe_there plan.now) volumes.now }
{
    volumes.iter().all(|volume| is_stripe_there(plan, *volume))
}

fn is_kind_below(plan: &Plan, kind: &VolumeKind) -> bool
    ensures { result ≡ spec_is_kind_below plan.now kind.now }
{
    match kind {
        VolumeKind::Stripe(stripe) => {
            are_leaf_rows(plan, stripe.rows.as_slice()) && !no_pool(plan, stripe.spares)
        }
        VolumeKind::Mirror(mirror) => are_stripes(plan, mirror.submirrors.as_slice()),
        VolumeKind::Raid(raid) => {
            are_leaves(plan, raid.columns.as_slice()) && !no_pool(plan, raid.spares)
        }
        VolumeKind::Soft(soft) => !is_missing(plan, soft.base) && !is_nested(plan, soft.base),
    }
}

fn is_volume_below(plan: &Plan, volume: &Volume) -> bool
    ensures { result ≡ spec_is_volume_below plan.now volume.now }
{
    is_kind_below(plan, &volume.kind)
}

/// Whether all that volumes name is there, and of a kind that may lie below them. The work is linear in all names, with a
/// look-up of each.
pub(crate) fn are_below(plan: &Plan) -> bool
    ensures { result ≡ spec_are_below plan.now }
{
    let volumes = plan.volumes.as_slice();
    volumes.iter().all(|volume| is_volume_below(plan, volume))
}
