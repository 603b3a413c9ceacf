//! What the volume and the states are once a component is enabled or replaced, and which spare comes free.
ghost use Rattle.std.specs.Prelude.{◌≡◌, ◌≤◌, IfOk, length, map};
ghost use Rattle.mdv_plan.specs.Slices.{IsSound};
ghost use Rattle.mdv_replacing.specs.Below.{status_at as spec_status_at};
ghost use Rattle.mdv_replacing.specs.Renewing.{renewed as spec_renewed, row_renewed as spec_row_renewed, kind_renewed as spec_kind_renewed, volume_renewed as spec_volume_renewed};
ghost use Rattle.mdv_replacing.specs.Renewing.{renewed_in as spec_renewed_in, renewed_volume as spec_renewed_volume, part_renewed as spec_part_renewed, parts_renewed as spec_parts_renewed};
ghost use Rattle.mdv_replacing.specs.Renewing.{kind_restated as spec_kind_restated, restated as spec_restated, restated_at as spec_restated_at, part_states as spec_part_states};
ghost use Rattle.mdv_replacing.specs.Renewing.{freed_at as spec_freed_at, freed_spares as spec_freed_spares};

use crate::holding::holder_of;
use crate::members::{Member, components_of, is_member, member_of, members};
use mdv_base::{SliceName, VolId};
use mdv_components::{start_of, volume_of};
use mdv_copies::is_part_on;
use mdv_name::Geometry;
use mdv_plan::{
    Base, Component, Copied, KindStatus, Listed, MAX_COMPONENTS, PartStatus, Plan, Raid,
    RaidStatus, Resync, Row, State, Status, Stripe, Table, Volume, VolumeKind, VolumeStatus,
};
use mdv_submirrors::status_at;
use std::alloc::{AllocError, Global};

type Rows = Listed<Row, MAX_COMPONENTS>;

fn renewed(old: Base, new: Base, start: u64, component: Component) -> Component
    ensures { result ≡ spec_renewed old new start component }
{
    if is_part_on(&component, old) {
        Component {
            on: new,
            start,
            blocks: component.blocks,
        }
    } else {
        component
    }
}

fn components_renewed<const MOST: usize>(
    alloc: Global,
    old: Base,
    new: Base,
    start: u64,
    components: &Listed<Component, MOST>,
) -> Result<Listed<Component, MOST>, AllocError>
    ensures { IfOk result (λ made. made ≡ map (spec_renewed old new start) components.now) }
{
    let items = components.as_slice();
    let mut made = Listed::new(alloc);
    for component in items {
        made.push(renewed(old, new, start, *component))?;
    }
    Ok(made)
}

fn row_renewed(
    alloc: Global,
    old: Base,
    new: Base,
    start: u64,
    row: &Row,
) -> Result<Row, AllocError>
    ensures { IfOk result (λ made. made ≡ spec_row_renewed old new start row.now) }
{
    Ok(Row {
        interlace: row.interlace,
        components: components_renewed(alloc, old, new, start, &row.components)?,
    })
}

fn rows_renewed(
    alloc: Global,
    old: Base,
    new: Base,
    start: u64,
    rows: &Rows,
) -> Result<Rows, AllocError>
    ensures { IfOk result (λ made. made ≡ map (spec_row_renewed old new start) rows.now) }
{
    let items = rows.as_slice();
    let mut made = Listed::new(alloc);
    for row in items {
        made.push(row_renewed(alloc, old, new, start, row)?)?;
    }
    Ok(made)
}

fn kind_renewed(
    alloc: Global,
    old: Base,
    new: Base,
    start: u64,
    kind: &VolumeKind,
) -> Result<VolumeKind, AllocError>
    ensures { IfOk result (λ made. made ≡ spec_kind_renewed old new start kind.now) }
{
    match kind {
        VolumeKind::Stripe(stripe) => Ok(VolumeKind::Stripe(Stripe {
            rows: rows_renewed(alloc, old, new, start, &stripe.rows)?,
            spares: stripe.spares,
        })),
        VolumeKind::Raid(raid) => Ok(VolumeKind::Raid(Raid {
            columns: components_renewed(alloc, old, new, start, &raid.columns)?,
            interlace: raid.interlace,
            units: raid.units,
            spares: raid.spares,
        })),
        _ => kind.copied(alloc),
    }
}

fn volume_renewed(
    alloc: Global,
    old: Base,
    new: Base,
    start: u64,
    volume: &Volume,
) -> Result<Volume, AllocError>
    ensures { IfOk result (λ made. made ≡ spec_volume_renewed old new start volume.now) }
{
    Ok(Volume {
        number: volume.number,
        kind: kind_renewed(alloc, old, new, start, &volume.kind)?,
    })
}

fn renewed_in(
    alloc: Global,
    plan: &Plan,
    old: Base,
    new: Base,
    start: u64,
    holder: Option<VolId>,
) -> Result<Option<Volume>, AllocError>
    ensures { IfOk result (λ made. made ≡ spec_renewed_in plan.now old new start holder) }
{
    match holder {
        Some(holder) => match volume_of(plan, holder) {
            Some(volume) => Ok(Some(volume_renewed(alloc, old, new, start, volume)?)),
            None => Ok(None),
        },
        None => Ok(None),
    }
}

/// The submirror or RAID-5 volume that has the old component, with the new one in its place. That has as many
/// blocks, from where a component begins on its base.
pub fn renewed_volume(
    alloc: Global,
    geometry: &Geometry,
    plan: &Plan,
    volume: VolId,
    old: Base,
    new: Base,
) -> Result<Option<Volume>, AllocError>
    requires { IsSound geometry.now }
    ensures { IfOk result (λ made. made ≡ spec_renewed_volume geometry.now plan.now volume old new) }
{
    let start = start_of(geometry, plan, new);
    let holder = holder_of(plan, volume, old);
    renewed_in(alloc, plan, old, new, start, holder)
}

fn part_renewed(base: Base, member: Member) -> PartStatus
    ensures { result ≡ spec_part_renewed base member }
{
    if is_member(base, member) {
        PartStatus {
            state: State::Resyncing(Resync::Whole),
            spare: None,
        }
    } else {
        member.part
    }
}

fn members_renewed<const MOST: usize>(
    alloc: Global,
    base: Base,
    members: &[Member],
) -> Result<Listed<PartStatus, MOST>, AllocError>
    requires { length members.now ≤ MOST }
    ensures { IfOk result (λ made. made ≡ map (spec_part_renewed base) members.now) }
{
    let mut made = Listed::new(alloc);
    for member in members {
        made.push(part_renewed(base, *member))?;
    }
    Ok(made)
}

fn parts_renewed<const MOST: usize>(
    alloc: Global,
    base: Base,
    components: &[Component],
    parts: &Listed<PartStatus, MOST>,
) -> Result<Listed<PartStatus, MOST>, AllocError>
    ensures { IfOk result (λ made. made ≡ spec_parts_renewed base components.now parts.now) }
{
    let members = members(alloc, components, parts.as_slice())?;
    members_renewed(alloc, base, members.as_slice())
}

fn kind_restated(
    alloc: Global,
    base: Base,
    components: &[Component],
    kind: &KindStatus,
) -> Result<KindStatus, AllocError>
    ensures { IfOk result (λ made. made ≡ spec_kind_restated base components.now kind.now) }
{
    match kind {
        KindStatus::Stripe(parts) => {
            let parts = parts_renewed(alloc, base, components, parts)?;
            Ok(KindStatus::Stripe(parts))
        }
        KindStatus::Raid(raid) => {
            let columns = parts_renewed(alloc, base, components, &raid.columns)?;
            Ok(KindStatus::Raid(RaidStatus {
                state: raid.state,
                columns,
            }))
        }
        _ => kind.copied(alloc),
    }
}

fn restated(
    alloc: Global,
    base: Base,
    components: &[Component],
    status: &VolumeStatus,
) -> Result<VolumeStatus, AllocError>
    ensures { IfOk result (λ made. made ≡ spec_restated base components.now status.now) }
{
    Ok(VolumeStatus {
        number: status.number,
        kind: kind_restated(alloc, base, components, &status.kind)?,
    })
}

fn restated_at(
    alloc: Global,
    base: Base,
    components: &[Component],
    status: &Status,
    volume: VolId,
) -> Result<Vec<VolumeStatus>, AllocError>
    ensures { IfOk result (λ states. states.items ≡ spec_restated_at base components.now (spec_status_at status.now volume)) }
{
    let mut states = Vec::new(alloc);
    if let Some(old) = status_at(status, volume) {
        states.push(restated(alloc, base, components, old)?)?;
    }
    Ok(states)
}

/// The states of the submirror or RAID-5 volume that has the component: this one is copied whole, to its own
/// base, and the others are as they were.
pub fn part_states(
    alloc: Global,
    table: &Table,
    volume: VolId,
    base: Base,
) -> Result<Vec<VolumeStatus>, AllocError>
    ensures { IfOk result (λ states. states.items ≡ spec_part_states table.now volume base) }
{
    match holder_of(&table.plan, volume, base) {
        Some(holder) => {
            let components = components_of(alloc, &table.plan, holder)?;
            restated_at(alloc, base, components.as_slice(), &table.status, holder)
        }
        None => Ok(Vec::new(alloc)),
    }
}

fn freed_at(alloc: Global, member: Option<Member>) -> Result<Vec<SliceName>, AllocError>
    ensures { IfOk result (λ slices. slices.items ≡ spec_freed_at member) }
{
    let mut slices = Vec::new(alloc);
    if let Some(member) = member {
        if let Some(spare) = member.part.spare {
            slices.push(spare.slice)?;
        }
    }
    Ok(slices)
}

/// The spare on which the component lay, if it lay on one.
pub fn freed_spares(
    alloc: Global,
    table: &Table,
    volume: VolId,
    base: Base,
) -> Result<Vec<SliceName>, AllocError>
    ensures { IfOk result (λ slices. slices.items ≡ spec_freed_spares table.now volume base) }
{
    let member = member_of(alloc, table, volume, base)?;
    freed_at(alloc, member)
}
