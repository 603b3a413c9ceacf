//! Stripes, each component with its state.
ghost use Rattle.std.specs.Prelude.{◌≡◌, drop, flat_map};
ghost use Rattle.mdv_codec.specs.Recorded.{part_text, row_text, stripe_text};
ghost use Rattle.mdv_fields.specs.Laying.{IsLaid};
ghost use Rattle.mdv_whole.specs.Sides.{beside, part_of, row_of, rows_of, stripe_of};

use crate::beside::{Beside, lay_pairs};
use crate::noted::part_states;
use mdv_codec::RecordedPart;
use mdv_fields::Spelled;
use mdv_plan::{Component, KindStatus, PartStatus, Row, Stripe};

impl Beside<PartStatus> for Component {
    ghost text = { λ c s. part_text (part_of c s) };

    fn lay_with(&self, noted: &PartStatus, out: &mut [u8], used: usize) -> usize {
        let component = *self;
        let status = *noted;
        RecordedPart { component, status }.lay(out, used)
    }
}

pub fn lay_stripe(out: &mut [u8], used: usize, stripe: &Stripe, noted: &KindStatus) -> usize
    ensures { IsLaid used out.old out.new (stripe_text (stripe_of stripe.now noted.now)) result }
{
    let rows = stripe.rows.as_slice();
    let used = stripe.spares.lay(out, used);
    let used = (rows.len() as u16).lay(out, used);
    lay_rows(out, used, rows, part_states(noted))
}

// The rows one behind another, each with the states behind those of the rows in front.
fn lay_rows(out: &mut [u8], used: usize, rows: &[Row], states: &[PartStatus]) -> usize
    ensures { IsLaid used out.old out.new (flat_map row_text (rows_of rows.now states.now)) result }
{
    let mut used = used;
    let mut rest = states;
    for row in rows {
        used = lay_row(out, used, row, rest);
        rest = behind(rest, row.components.as_slice().len());
    }
    used
}

fn lay_row(out: &mut [u8], used: usize, row: &Row, states: &[PartStatus]) -> usize
    ensures { IsLaid used out.old out.new (row_text (row_of row.now states.now)) result }
{
    let components = row.components.as_slice();
    let width = components.len().min(states.len());
    let used = (width as u16).lay(out, used);
    let used = row.interlace.lay(out, used);
    lay_parts(out, used, components, states)
}

/// Components with their states, one behind another.
pub fn lay_parts(
    out: &mut [u8],
    used: usize,
    components: &[Component],
    states: &[PartStatus],
) -> usize
    ensures { IsLaid used out.old out.new (flat_map part_text (beside part_of components.now states.now)) result }
{
    lay_pairs(out, used, components, states)
}

// What is left behind the first so many.
fn behind(states: &[PartStatus], count: usize) -> &[PartStatus]
    ensures { result.now ≡ drop count states.now }
{
    &states[count.min(states.len())..]
}
