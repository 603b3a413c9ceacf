//! Which volume has a component of a mirror or a RAID-5 volume.
ghost use Rattle.std.specs.Prelude.{◌≡◌};
ghost use Rattle.std.specs.List.{find, list_any};
ghost use Rattle.mdv_replacing.specs.Below.{has_part_on as spec_has_part_on, is_part_on as spec_is_part_on};
ghost use Rattle.mdv_replacing.specs.Holding.{holder_of as spec_holder_of, is_in as spec_is_in, is_in_kind as spec_is_in_kind, kind_holder as spec_kind_holder};
ghost use Rattle.mdv_replacing.specs.Holding.{is_other_kind as spec_is_other_kind, is_redundant as spec_is_redundant};

use mdv_base::VolId;
use mdv_components::volume_of;
use mdv_copies::{has_part_on, is_part_on};
use mdv_plan::{Base, Component, Plan, Row, VolumeKind};

fn has_row_on(rows: &[Row], base: Base) -> bool
    ensures { result ≡ list_any (spec_has_part_on base) rows.now }
{
    rows.iter().any(|row| has_part_on(row, base))
}

fn has_one_on(components: &[Component], base: Base) -> bool
    ensures { result ≡ list_any (spec_is_part_on base) components.now }
{
    components
        .iter()
        .any(|component| is_part_on(component, base))
}

fn is_in_kind(kind: &VolumeKind, base: Base) -> bool
    ensures { result ≡ spec_is_in_kind base kind.now }
{
    match kind {
        VolumeKind::Stripe(stripe) => has_row_on(stripe.rows.as_slice(), base),
        VolumeKind::Raid(raid) => has_one_on(raid.columns.as_slice(), base),
        _ => false,
    }
}

fn is_in(plan: &Plan, base: Base, volume: VolId) -> bool
    ensures { result ≡ spec_is_in plan.now base volume }
{
    match volume_of(plan, volume) {
        Some(volume) => is_in_kind(&volume.kind, base),
        None => false,
    }
}

fn sub_with(plan: &Plan, subs: &[VolId], base: Base) -> Option<VolId>
    ensures { result ≡ find (spec_is_in plan.now base) subs.now }
{
    subs.iter().copied().find(|sub| is_in(plan, base, *sub))
}

fn kind_holder(plan: &Plan, volume: VolId, base: Base, kind: &VolumeKind) -> Option<VolId>
    ensures { result ≡ spec_kind_holder plan.now volume base kind.now }
{
    match kind {
        VolumeKind::Mirror(mirror) => sub_with(plan, mirror.submirrors.as_slice(), base),
        VolumeKind::Raid(raid) => {
            if has_one_on(raid.columns.as_slice(), base) {
                Some(volume)
            } else {
                None
            }
        }
        _ => None,
    }
}

/// The submirror of the mirror that has the component, or the RAID-5 volume itself.
pub(crate) fn holder_of(plan: &Plan, volume: VolId, base: Base) -> Option<VolId>
    ensures { result ≡ spec_holder_of plan.now volume base }
{
    match volume_of(plan, volume) {
        Some(found) => kind_holder(plan, volume, base, &found.kind),
        None => None,
    }
}

fn is_redundant(kind: &VolumeKind) -> bool
    ensures { result ≡ spec_is_redundant kind.now }
{
    matches!(kind, VolumeKind::Mirror(_) | VolumeKind::Raid(_))
}

/// Whether the volume is neither a mirror nor a RAID-5 volume.
pub(crate) fn is_other_kind(plan: &Plan, volume: VolId) -> bool
    ensures { result ≡ spec_is_other_kind plan.now volume }
{
    match volume_of(plan, volume) {
        Some(volume) => !is_redundant(&volume.kind),
        None => true,
    }
}
