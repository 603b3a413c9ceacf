//! The components of a volume, each with its state.
ghost use Rattle.std.specs.Prelude.{◌≡◌, ◌≤◌, IfOk, length, map};
ghost use Rattle.std.specs.List.{find};
ghost use Rattle.mdv_replacing.specs.Members.{components_of as spec_components_of, kind_components as spec_kind_components, kind_states as spec_kind_states, states_at};
ghost use Rattle.mdv_replacing.specs.Members.{is_beside as spec_is_beside, is_member as spec_is_member, member_of as spec_member_of};
ghost use Rattle.mdv_replacing.specs.Members.{members as spec_members, members_of as spec_members_of, others as spec_others, part_in};
ghost use Rattle.mdv_replacing.specs.Below.{status_at as spec_status_at};

use crate::holding::holder_of;
use mdv_base::VolId;
use mdv_components::volume_of;
use mdv_copies::is_part_on;
use mdv_plan::{Base, Component, KindStatus, PartStatus, Plan, Status, Table, VolumeKind};
use mdv_rows::components_in;
use mdv_submirrors::status_at;
use std::alloc::{AllocError, Global};

/// A component of a volume, with its state.
#[derive(Clone, Copy, Debug, PartialEq, Eq)]
pub struct Member {
    pub component: Component,
    pub part: PartStatus,
}

fn kind_components(alloc: Global, kind: &VolumeKind) -> Result<Vec<Component>, AllocError>
    ensures { IfOk result (λ made. made.items ≡ spec_kind_components kind.now) }
{
    match kind {
        VolumeKind::Stripe(stripe) => components_in(alloc, stripe.rows.as_slice()),
        VolumeKind::Raid(raid) => Vec::from_slice(alloc, raid.columns.as_slice()),
        _ => Ok(Vec::new(alloc)),
    }
}

/// The volume's own components, in order.
pub(crate) fn components_of(
    alloc: Global,
    plan: &Plan,
    volume: VolId,
) -> Result<Vec<Component>, AllocError>
    ensures { IfOk result (λ made. made.items ≡ spec_components_of plan.now volume) }
{
    match volume_of(plan, volume) {
        Some(volume) => kind_components(alloc, &volume.kind),
        None => Ok(Vec::new(alloc)),
    }
}

fn kind_states(kind: &KindStatus) -> &[PartStatus]
    ensures { result.now ≡ spec_kind_states kind.now }
{
    match kind {
        KindStatus::Stripe(parts) => parts.as_slice(),
        KindStatus::Raid(raid) => raid.columns.as_slice(),
        _ => &[],
    }
}

fn states_of(status: &Status, volume: VolId) -> &[PartStatus]
    ensures { result.now ≡ states_at (spec_status_at status.now volume) }
{
    match status_at(status, volume) {
        Some(status) => kind_states(&status.kind),
        None => &[],
    }
}

/// Each component with its state, as far as there are both.
pub(crate) fn members(
    alloc: Global,
    components: &[Component],
    parts: &[PartStatus],
) -> Result<Vec<Member>, AllocError>
    ensures value { IfOk result (λ made. made.items ≡ spec_members components.now parts.now) }
    ensures few { IfOk result (λ made. length made.items ≤ length parts.now) }
{
    let mut made = Vec::new(alloc);
    let mut rest = components;
    let mut noted = parts;
    while let [component, behind @ ..] = rest {
        let [part, left @ ..] = noted else {
            return Ok(made);
        };
        made.push(Member {
            component: *component,
            part: *part,
        })?;
        rest = behind;
        noted = left;
    }
    Ok(made)
}

fn members_of(alloc: Global, table: &Table, volume: VolId) -> Result<Vec<Member>, AllocError>
    ensures { IfOk result (λ made. made.items ≡ spec_members_of table.now volume) }
{
    let components = components_of(alloc, &table.plan, volume)?;
    members(
        alloc,
        components.as_slice(),
        states_of(&table.status, volume),
    )
}

pub(crate) fn is_member(base: Base, member: Member) -> bool
    ensures { result ≡ spec_is_member base member }
{
    is_part_on(&member.component, base)
}

fn is_beside(base: Base, member: Member) -> bool
    ensures { result ≡ spec_is_beside base member }
{
    !is_member(base, member)
}

fn first_on(members: &[Member], base: Base) -> Option<Member>
    ensures { result ≡ find (spec_is_member base) members.now }
{
    members
        .iter()
        .copied()
        .find(|member| is_member(base, *member))
}

/// The component of the mirror or RAID-5 volume with this base.
pub(crate) fn member_of(
    alloc: Global,
    table: &Table,
    volume: VolId,
    base: Base,
) -> Result<Option<Member>, AllocError>
    ensures { IfOk result (λ found. found ≡ spec_member_of table.now volume base) }
{
    match holder_of(&table.plan, volume, base) {
        Some(holder) => {
            let members = members_of(alloc, table, holder)?;
            Ok(first_on(members.as_slice(), base))
        }
        None => Ok(None),
    }
}

fn parts_in(alloc: Global, members: &[Member]) -> Result<Vec<PartStatus>, AllocError>
    ensures { IfOk result (λ made. made.items ≡ map part_in members.now) }
{
    let mut made = Vec::new(alloc);
    for member in members {
        made.push(member.part)?;
    }
    Ok(made)
}

/// The states of the other columns of a RAID-5 volume; of a mirror none.
pub(crate) fn others(
    alloc: Global,
    table: &Table,
    volume: VolId,
    base: Base,
) -> Result<Vec<PartStatus>, AllocError>
    ensures { IfOk result (λ made. made.items ≡ spec_others table.now volume base) }
{
    let members = members_of(alloc, table, volume)?;
    let beside: Vec<Member> = members
        .as_slice()
        .iter()
        .copied()
        .filter(|member| is_beside(base, *member))
        .collect(alloc)?;
    parts_in(alloc, beside.as_slice())
}
