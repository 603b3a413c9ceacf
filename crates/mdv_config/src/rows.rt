// Which volumes of stripes lie on a table of drives.
ghost use Rattle.std.specs.Prelude.{◌≡◌, ◌<◌, ◌↔◌, ◌⊎◌, ◌%◌, IsTrue, All};
ghost use Rattle.mdv_config.specs.Slices.{IsSound};
ghost use Rattle.mdv_config.specs.Table.{IsPart, IsPartIn, IsPartOn, IsRowOf, IsRowsOf};
ghost use Rattle.mdv_config.specs.Table.{row_depth as spec_row_depth, width, width_of as spec_width_of};

use mdv_base::SliceName;
use mdv_name::{Geometry, SliceAt};
use mdv_plan::{Base, Component, MAX_COMPONENTS, Row, Stripe, meets_db};

// The least and the greatest interlace, in blocks.
const LEAST_INTERLACE: u32 = 16;

const MOST_INTERLACE: u32 = 204800;

pub(crate) fn is_stripe_of(geometry: &Geometry, stripe: &Stripe) -> bool
    requires { IsSound geometry.now }
    ensures { IsTrue result ↔ IsRowsOf geometry.now stripe.now }
{
    let rows = stripe.rows.as_slice();
    !rows.is_empty()
        && width_of(stripe) <= MAX_COMPONENTS
        && stripe.spares.is_none()
        && rows.iter().all(|row| is_row_of(geometry, row))
}

// How many components there are over all rows.
pub(crate) fn width_of(stripe: &Stripe) -> usize
    ensures { result ≡ spec_width_of stripe.now }
{
    let mut count = 0;
    for row in stripe.rows.as_slice() {
        count += row.components.as_slice().len();
    }
    count
}

fn is_row_of(geometry: &Geometry, row: &Row) -> bool
    requires { IsSound geometry.now }
    ensures { IsTrue result ↔ IsRowOf geometry.now row.now }
{
    let depth = row_depth(row);
    LEAST_INTERLACE <= row.interlace
        && row.interlace <= MOST_INTERLACE
        && depth > 0
        && is_in_units(row, depth)
        && are_parts_of(geometry, depth, row.components.as_slice())
}

// How many blocks each component of the row has.
fn row_depth(row: &Row) -> u64
    ensures { result ≡ spec_row_depth row.now }
{
    match row.components.as_slice().first() {
        Some(component) => component.blocks,
        None => 0,
    }
}

// One component has any number of blocks, several have whole interlaces.
fn is_in_units(row: &Row, depth: u64) -> bool
    requires { 0 < row.now.interlace }
    ensures { IsTrue result ↔ (width row.now ≡ 1) ⊎ (depth % row.now.interlace ≡ 0) }
{
    row.components.as_slice().len() == 1 || depth % u64::from(row.interlace) == 0
}

fn are_parts_of(geometry: &Geometry, depth: u64, components: &[Component]) -> bool
    requires { IsSound geometry.now }
    ensures { IsTrue result ↔ All (λ c. IsPartOn geometry.now depth c c.on) components.now }
{
    components
        .iter()
        .all(|component| is_part_on(geometry, depth, component))
}

fn is_part_on(geometry: &Geometry, depth: u64, component: &Component) -> bool
    requires { IsSound geometry.now }
    ensures { IsTrue result ↔ IsPartOn geometry.now depth component.now component.now.on }
{
    match component.on {
        Base::Slice(slice) => is_part(geometry, depth, component, slice),
        Base::Volume(_) => false,
    }
}

fn is_part(geometry: &Geometry, depth: u64, component: &Component, slice: SliceName) -> bool
    requires { IsSound geometry.now }
    ensures { IsTrue result ↔ IsPart geometry.now depth component.now slice }
{
    match geometry.slices.find(slice) {
        Some(at) => is_part_in(at, depth, component) && !meets_db(geometry, slice),
        None => false,
    }
}

fn is_part_in(at: SliceAt, depth: u64, component: &Component) -> bool
    ensures { IsTrue result ↔ IsPartIn at depth component.now }
{
    !at.db && component.start == 0 && component.blocks == depth && depth <= at.blocks
}
