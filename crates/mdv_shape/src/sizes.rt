//! How many blocks volumes and their components have.
ghost use Rattle.std.specs.Prelude.{◌≡◌, ◌<◌};
ghost use Rattle.std.specs.List.{list_all};
ghost use Rattle.mdv_shape.specs.Sizes.{fits_base as spec_fits_base, fits as spec_fits, has_blocks as spec_has_blocks, first_blocks as spec_first_blocks};
ghost use Rattle.mdv_shape.specs.Sizes.{is_in_units as spec_is_in_units, is_even as spec_is_even, is_row_sized as spec_is_row_sized, has_room as spec_has_room};
ghost use Rattle.mdv_shape.specs.Sizes.{is_mirror_sized as spec_is_mirror_sized, is_raid_even as spec_is_raid_even, is_kind_sized as spec_is_kind_sized};
ghost use Rattle.mdv_shape.specs.Sizes.{is_sized as spec_is_sized, are_sized as spec_are_sized};

use mdv_base::VolId;
use mdv_components::{PREWRITE_BLOCKS, soft_blocks_of};
use mdv_plan::{Base, Component, Mirror, Plan, Raid, Row, Volume, VolumeKind};
use mdv_submirrors::{blocks_of, stripe_blocks};

// All components of a volume together have fewer blocks.
const MOST_BLOCKS: u64 = 1 << 63;

fn fits_base(plan: &Plan, component: &Component, base: Base) -> bool
    ensures { result ≡ spec_fits_base plan.now component.now base }
{
    match base {
        Base::Slice(_) => true,
        Base::Volume(volume) => {
            component.start == 0 && component.blocks <= soft_blocks_of(plan, volume)
        }
    }
}

fn fits(plan: &Plan, component: &Component) -> bool
    ensures { result ≡ spec_fits plan.now component.now }
{
    fits_base(plan, component, component.on)
}

fn do_fit(plan: &Plan, components: &[Component]) -> bool
    ensures { result ≡ list_all (spec_fits plan.now) components.now }
{
    components.iter().all(|component| fits(plan, component))
}

fn has_blocks(blocks: u64, component: &Component) -> bool
    ensures { result ≡ spec_has_blocks blocks component.now }
{
    component.blocks == blocks
}

fn have_blocks(blocks: u64, components: &[Component]) -> bool
    ensures { result ≡ list_all (spec_has_blocks blocks) components.now }
{
    components
        .iter()
        .all(|component| has_blocks(blocks, component))
}

fn first_blocks(components: &[Component]) -> u64
    ensures { result ≡ spec_first_blocks components.now }
{
    match components {
        [first, ..] => first.blocks,
        [] => 0,
    }
}

fn is_in_units(width: usize, interlace: u64, blocks: u64) -> bool
    requires { 0 < interlace }
    ensures { result ≡ spec_is_in_units width interlace blocks }
{
    width == 1 || blocks % interlace == 0
}

fn is_even(row: &Row) -> bool
    ensures { result ≡ spec_is_even row.now }
{
    let components = row.components.as_slice();
    let blocks = first_blocks(components);
    let interlace = u64::from(row.interlace);
    if interlace == 0 || blocks == 0 {
        return false;
    }
    have_blocks(blocks, components) && is_in_units(components.len(), interlace, blocks)
}

fn is_row_sized(plan: &Plan, row: &Row) -> bool
    ensures { result ≡ spec_is_row_sized plan.now row.now }
{
    is_even(row) && do_fit(plan, row.components.as_slice())
}

fn are_rows_sized(plan: &Plan, rows: &[Row]) -> bool
    ensures { result ≡ list_all (spec_is_row_sized plan.now) rows.now }
{
    rows.iter().all(|row| is_row_sized(plan, row))
}

fn has_room(plan: &Plan, blocks: u64, volume: VolId) -> bool
    ensures { result ≡ spec_has_room plan.now blocks volume }
{
    blocks <= blocks_of(plan, volume)
}

fn have_room(plan: &Plan, blocks: u64, volumes: &[VolId]) -> bool
    ensures { result ≡ list_all (spec_has_room plan.now blocks) volumes.now }
{
    volumes.iter().all(|volume| has_room(plan, blocks, *volume))
}

fn is_mirror_sized(plan: &Plan, mirror: &Mirror) -> bool
    ensures { result ≡ spec_is_mirror_sized plan.now mirror.now }
{
    mirror.blocks != 0 && have_room(plan, mirror.blocks, mirror.submirrors.as_slice())
}

fn is_raid_even(raid: &Raid) -> bool
    ensures { result ≡ spec_is_raid_even raid.now }
{
    let columns = raid.columns.as_slice();
    let Some(data) = raid.units.checked_mul(u64::from(raid.interlace)) else {
        return false;
    };
    if data == 0 || data >= MOST_BLOCKS - PREWRITE_BLOCKS {
        return false;
    }
    let blocks = PREWRITE_BLOCKS + data;
    let Some(all) = blocks.checked_mul(columns.len() as u64) else {
        return false;
    };
    all < MOST_BLOCKS && have_blocks(blocks, columns)
}

fn is_kind_sized(plan: &Plan, kind: &VolumeKind) -> bool
    ensures { result ≡ spec_is_kind_sized plan.now kind.now }
{
    match kind {
        VolumeKind::Stripe(stripe) => {
            are_rows_sized(plan, stripe.rows.as_slice()) && stripe_blocks(kind) < MOST_BLOCKS
        }
        VolumeKind::Mirror(mirror) => is_mirror_sized(plan, mirror),
        VolumeKind::Raid(raid) => is_raid_even(raid) && do_fit(plan, raid.columns.as_slice()),
        VolumeKind::Soft(_) => true,
    }
}

fn is_sized(plan: &Plan, volume: &Volume) -> bool
    ensures { result ≡ spec_is_sized plan.now volume.now }
{
    is_kind_sized(plan, &volume.kind)
}

/// Whether the lengths and sizes of all volumes fit each other.
pub(crate) fn are_sized(plan: &Plan) -> bool
    ensures { result ≡ spec_are_sized plan.now }
{
    let volumes = plan.volumes.as_slice();
    volumes.iter().all(|volume| is_sized(plan, volume))
}
