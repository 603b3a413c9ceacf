//! The spares on which components lie.
ghost use Rattle.std.specs.Prelude.{◌≡◌, ◌++◌, IfOk, OnOk};
ghost use Rattle.mdv_shape.specs.Seats.{taken_at as spec_taken_at, part_taken, side_by_side, components_of as spec_components_of, volume_taken, seats_taken as spec_seats_taken};

use mdv_plan::{Component, PartStatus, Spare, SpareUse, Table, Volume, VolumeKind, VolumeStatus};
use mdv_rows::components_in;
use mdv_whole::part_states;
use std::alloc::{AllocError, Global};

fn add_taken(list: &mut Vec<Spare>, blocks: u64, on: Option<SpareUse>) -> Result<(), AllocError>
    ensures { OnOk result (list.new.items ≡ list.old.items ++ spec_taken_at blocks on) }
{
    if let Some(spare) = on {
        list.push(Spare {
            slice: spare.slice,
            start: spare.start,
            blocks,
        })?;
    }
    Ok(())
}

// Those of components, each with its state.
fn add_all_taken(
    list: &mut Vec<Spare>,
    components: &[Component],
    parts: &[PartStatus],
) -> Result<(), AllocError>
    ensures { OnOk result (list.new.items ≡ list.old.items ++ side_by_side part_taken components.now parts.now) }
{
    for i in 0..components.len().min(parts.len()) {
        add_taken(list, components[i].blocks, parts[i].spare)?;
    }
    Ok(())
}

// The components of a volume in the order of their states.
fn components_of(alloc: Global, kind: &VolumeKind) -> Result<Vec<Component>, AllocError>
    ensures { IfOk result (λ list. list.items ≡ spec_components_of kind.now) }
{
    match kind {
        VolumeKind::Stripe(stripe) => components_in(alloc, stripe.rows.as_slice()),
        VolumeKind::Raid(raid) => Vec::from_slice(alloc, raid.columns.as_slice()),
        _ => Ok(Vec::new(alloc)),
    }
}

fn add_volume(
    alloc: Global,
    list: &mut Vec<Spare>,
    volume: &Volume,
    status: &VolumeStatus,
) -> Result<(), AllocError>
    ensures { OnOk result (list.new.items ≡ list.old.items ++ volume_taken volume.now status.now) }
{
    let components = components_of(alloc, &volume.kind)?;
    add_all_taken(list, components.as_slice(), part_states(&status.kind))
}

/// The spares on which components lie, each as often as one does, with the component's blocks.
pub(crate) fn seats_taken(alloc: Global, table: &Table) -> Result<Vec<Spare>, AllocError>
    ensures { IfOk result (λ list. list.items ≡ spec_seats_taken table.now) }
{
    let volumes = table.plan.volumes.as_slice();
    let states = table.status.volumes.as_slice();
    let mut list = Vec::new(alloc);
    for i in 0..volumes.len().min(states.len()) {
        add_volume(alloc, &mut list, &volumes[i], &states[i])?;
    }
    Ok(list)
}
