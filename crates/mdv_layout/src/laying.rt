ghost use Rattle.std.specs.Prelude.{◌≡◌, Some, None, IfSome, IfNone};
ghost use Rattle.mdv_components.specs.Bases.{volume_of as spec_volume_of};
ghost use Rattle.mdv_config.specs.Slices.{IsSound};
ghost use Rattle.mdv_config.specs.Table.{IsOfGeometry, IsRowsOf};
ghost use Rattle.mdv_layout_law.specs.Layout.{map_at, rows_map};
ghost use Rattle.mdv_layout.specs.Layouts.{IsLayout, layout_map};
ghost use Rattle.mdv_plan.specs.declared.plan.Plan.{Plan};

use crate::Layout;
use mdv_base::VolId;
use mdv_components::volume_of;
use mdv_name::Geometry;
use mdv_plan::{Stripe, Table, VolumeKind};

/// The volume of this number as a device, whatever uses it. There is none where the table doesn't have the volume; no table of a table of
/// drives has one of a kind that can't be laid out yet.
pub fn lay_out(geometry: &Geometry, table: &Table, volume: VolId) -> Option<Layout>
    requires sound { IsSound geometry.now }
    requires table { IsOfGeometry geometry.now table.now }
    ensures well { IfSome result IsLayout }
    ensures laid { IfSome result (λ layout. map_at geometry.now table.now (spec_volume_of table.now.plan volume) ≡ Some (layout_map layout)) }
    ensures none { IfNone result (map_at geometry.now table.now (spec_volume_of table.now.plan volume) ≡ None) }
{
    let volume = volume_of(&table.plan, volume)?;
    match &volume.kind {
        VolumeKind::Stripe(stripe) => Some(lay_rows(geometry, stripe)),
        VolumeKind::Mirror(_) | VolumeKind::Raid(_) | VolumeKind::Soft(_) => unreachable!(),
    }
}

// The rows one behind another.
fn lay_rows(geometry: &Geometry, stripe: &Stripe) -> Layout
    requires sound { IsSound geometry.now }
    requires rows { IsRowsOf geometry.now stripe.now }
    ensures well { IsLayout result }
    ensures laid { (p : Plan) → layout_map result ≡ rows_map geometry.now p stripe.now.rows }
{
    let mut layout = Layout::new();
    for row in stripe.rows.as_slice() {
        layout.add(geometry, row);
    }
    layout
}
