//! Volumes that are soft partitions, or have one as a component.
ghost use Rattle.std.specs.Prelude.{◌≡◌};
ghost use Rattle.std.specs.List.{list_any};
ghost use Rattle.mdv_components.specs.Softs.{is_on_soft as spec_is_on_soft, is_row_on_soft as spec_is_row_on_soft, has_soft as spec_has_soft, has_soft_in as spec_has_soft_in};

use crate::bases::volume_of;
use mdv_base::VolId;
use mdv_plan::{Base, Component, Plan, Row, VolumeKind};

fn is_on_soft(component: &Component) -> bool
    ensures { result ≡ spec_is_on_soft component.now }
{
    match component.on {
        Base::Slice(_) => false,
        Base::Volume(_) => true,
    }
}

fn has_one_on_soft(components: &[Component]) -> bool
    ensures { result ≡ list_any spec_is_on_soft components.now }
{
    components.iter().any(|component| is_on_soft(component))
}

fn has_row_on_soft(rows: &[Row]) -> bool
    ensures { result ≡ list_any spec_is_row_on_soft rows.now }
{
    rows.iter()
        .any(|row| has_one_on_soft(row.components.as_slice()))
}

/// Whether it is a soft partition, or has one as a component.
pub fn has_soft(kind: &VolumeKind) -> bool
    ensures { result ≡ spec_has_soft kind.now }
{
    match kind {
        VolumeKind::Stripe(stripe) => has_row_on_soft(stripe.rows.as_slice()),
        VolumeKind::Mirror(_) => false,
        VolumeKind::Raid(raid) => has_one_on_soft(raid.columns.as_slice()),
        VolumeKind::Soft(_) => true,
    }
}

/// The same of the volume of this number, where there is one.
pub fn has_soft_in(plan: &Plan, volume: VolId) -> bool
    ensures { result ≡ spec_has_soft_in plan.now volume }
{
    match volume_of(plan, volume) {
        Some(volume) => has_soft(&volume.kind),
        None => false,
    }
}
