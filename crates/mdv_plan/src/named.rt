//! The volumes that a volume names.
ghost use Rattle.std.specs.Prelude.{◌≡◌, ◌++◌, OnOk};
ghost use Rattle.std.specs.List.{flat_map};
ghost use Rattle.mdv_plan.specs.Named.{base_below, component_below, row_below, kind_below};

use crate::volume::{Base, Component, Row, VolumeKind};
use mdv_base::VolId;
use std::alloc::AllocError;

// Adds the volume that the base is.
fn add_base(list: &mut Vec<VolId>, base: Base) -> Result<(), AllocError>
    ensures { OnOk result (list.new.items ≡ list.old.items ++ base_below base) }
{
    if let Base::Volume(volume) = base {
        list.push(volume)?;
    }
    Ok(())
}

fn add_components(list: &mut Vec<VolId>, components: &[Component]) -> Result<(), AllocError>
    ensures { OnOk result (list.new.items ≡ list.old.items ++ flat_map component_below components.now) }
{
    for component in components {
        add_base(list, component.on)?;
    }
    Ok(())
}

fn add_rows(list: &mut Vec<VolId>, rows: &[Row]) -> Result<(), AllocError>
    ensures { OnOk result (list.new.items ≡ list.old.items ++ flat_map row_below rows.now) }
{
    for row in rows {
        add_components(list, row.components.as_slice())?;
    }
    Ok(())
}

/// Adds the volumes that a volume of this kind names, in the order in which it names them. Where memory is
/// wanting some of them may have been added.
pub fn add_named(list: &mut Vec<VolId>, kind: &VolumeKind) -> Result<(), AllocError>
    ensures { OnOk result (list.new.items ≡ list.old.items ++ kind_below kind.now) }
{
    match kind {
        VolumeKind::Stripe(stripe) => add_rows(list, stripe.rows.as_slice()),
        VolumeKind::Mirror(mirror) => {
            list.extend_from_slice(mirror.submirrors.as_slice())?;
            Ok(())
        }
        VolumeKind::Raid(raid) => add_components(list, raid.columns.as_slice()),
        VolumeKind::Soft(soft) => add_base(list, soft.base),
    }
}
