ghost use Rattle.std.specs.Prelude.{◌≡◌, IfOk, Some, None, MatchOption};
ghost use Rattle.mdv_tab.specs.Stripe.{split_row as spec_split_row, split_rows as spec_split_rows};
ghost use Rattle.mdv_tab.specs.Stripe.{stripe_of as spec_stripe_of};

use crate::entry::{Entry, Row};
use mdv_name::VolName;
use mdv_parts::{Items, Part, number_of, split_components, split_interlace, split_pool};
use std::alloc::{AllocError, Global};

// A volume of so many stripes, by what stands behind their number.
pub(crate) fn read_stripe(
    alloc: Global,
    name: VolName,
    count: u64,
    parts: &[Part],
) -> Result<Option<Entry>, AllocError>
    ensures { IfOk result (λ o. o ≡ spec_stripe_of name count parts.now) }
{
    if count == 0 {
        return Ok(None);
    }
    let Some((rows, rest)) = split_rows(alloc, count, parts)? else {
        return Ok(None);
    };
    let Some((spares, rest)) = split_pool(rest) else {
        return Ok(None);
    };
    if !rest.is_empty() {
        return Ok(None);
    }
    Ok(Some(Entry::Stripe { name, rows, spares }))
}

fn split_rows(
    alloc: Global,
    count: u64,
    parts: &[Part],
) -> Result<Option<(Items<Row>, &[Part])>, AllocError>
    ensures { IfOk result (λ o. MatchOption o (spec_split_rows count parts.now ≡ None)
        (λ r. spec_split_rows count parts.now ≡ Some (r.0, r.1.now))) }
{
    let mut rows = Items::new(alloc);
    let mut rest = parts;
    let mut left = count;
    while left > 0 {
        let Some((row, behind)) = split_row(alloc, rest)? else {
            return Ok(None);
        };
        rows.push(row)?;
        rest = behind;
        left -= 1;
    }
    Ok(Some((rows, rest)))
}

// `width comp ..`, and `-i SIZE` where it stands there.
fn split_row(alloc: Global, parts: &[Part]) -> Result<Option<(Row, &[Part])>, AllocError>
    ensures { IfOk result (λ o. MatchOption o (spec_split_row parts.now ≡ None)
        (λ r. spec_split_row parts.now ≡ Some (r.0, r.1.now))) }
{
    let [first, rest @ ..] = parts else {
        return Ok(None);
    };
    let Some(width) = number_of(*first) else {
        return Ok(None);
    };
    let (components, rest) = split_components(alloc, rest)?;
    if components.as_slice().len() as u64 != width {
        return Ok(None);
    }
    let Some((interlace, rest)) = split_interlace(rest) else {
        return Ok(None);
    };
    let row = Row {
        components,
        interlace,
    };
    Ok(Some((row, rest)))
}
