ghost use Rattle.std.specs.Prelude.{◌≡◌, ◌≤◌, length};
ghost use Rattle.std.specs.List.{sum_by};
ghost use Rattle.mdv_fields.specs.Reading.{Reads};
ghost use Rattle.mdv_codec.specs.Recorded.{RowFits, row_text, RowBodyFits, row_body, StripeFits, stripe_text, width_of as spec_width_of};

use crate::recorded::{RecordedRow, RecordedStripe};
use mdv_base::PoolId;
use mdv_fields::{Part, Reader, RecordError, read_list, read_long};
use mdv_plan::{Listed, MAX_COMPONENTS};
use std::alloc::Global;

impl Part for RecordedRow {
    ghost fits = { RowFits };

    ghost text = { row_text };

    fn read(alloc: Global, rest: &mut Reader) -> Result<RecordedRow, RecordError> {
        let width = usize::from(u16::read(alloc, rest)?);
        if width == 0 {
            return Err(RecordError::NotARecord);
        }
        if width > MAX_COMPONENTS {
            return Err(RecordError::NotARecord);
        }
        read_row(alloc, rest, width)
    }
}

// A row of so many components, behind its width.
fn read_row(alloc: Global, rest: &mut Reader, width: usize) -> Result<RecordedRow, RecordError>
    requires { width ≤ 100 }
    ensures { Reads (RowBodyFits width) row_body rest.old result rest.new }
{
    let interlace = u32::read(alloc, rest)?;
    let parts = read_list(alloc, rest, width)?;
    Ok(RecordedRow { interlace, parts })
}

impl Part for RecordedStripe {
    ghost fits = { StripeFits };

    ghost text = { stripe_text };

    #[tactic(auto, unfolding(crate::specs::Recorded::stripe_text))]
    fn read(alloc: Global, rest: &mut Reader) -> Result<RecordedStripe, RecordError> {
        let spares = <Option<PoolId>>::read(alloc, rest)?;
        let rows: Listed<RecordedRow, MAX_COMPONENTS> = read_long(alloc, rest)?;
        if rows.as_slice().is_empty() || width_of(rows.as_slice()) > MAX_COMPONENTS {
            return Err(RecordError::NotARecord);
        }
        Ok(RecordedStripe { spares, rows })
    }
}

// How many components all rows have.
fn width_of(rows: &[RecordedRow]) -> usize
    requires { length rows.now ≤ 100 }
    ensures { result ≡ sum_by spec_width_of rows.now }
{
    let mut width = 0;
    for row in rows {
        width += row.parts.as_slice().len();
    }
    width
}
