ghost use Rattle.std.specs.Prelude.{◌≡◌, ◌<◌, ◌≤◌, length, flat_map};
ghost use Rattle.mdv_fields.specs.Laying.{IsLaid};
ghost use Rattle.mdv_fields.specs.Reading.{Reads, ListFits, ShortFits, short_text, LongFits, long_text};

use crate::fault::RecordError;
use crate::part::{Part, Spelled};
use crate::reader::Reader;
use mdv_plan::Listed;
use std::alloc::Global;

/// Reads so many parts, one behind another.
pub fn read_list<T: Part, const MOST: usize>(
    alloc: Global,
    rest: &mut Reader,
    count: usize,
) -> Result<Listed<T, MOST>, RecordError>
    requires { count ≤ MOST }
    ensures { Reads (ListFits T.fits count) (flat_map T.text) rest.old result rest.new }
{
    let mut items = Listed::with_capacity(alloc, count)?;
    for _ in 0..count {
        items.push(T::read(alloc, rest)?)?;
    }
    Ok(items)
}

/// Reads parts behind their number, a byte; at most `MOST`.
pub fn read_short<T: Part, const MOST: usize>(
    alloc: Global,
    rest: &mut Reader,
) -> Result<Listed<T, MOST>, RecordError>
    ensures { Reads (ShortFits T.fits MOST) (short_text T.text) rest.old result rest.new }
{
    let count = usize::from(u8::read(alloc, rest)?);
    if count > MOST {
        return Err(RecordError::NotARecord);
    }
    read_list(alloc, rest, count)
}

/// Reads parts behind their number, two bytes; at most `MOST`.
pub fn read_long<T: Part, const MOST: usize>(
    alloc: Global,
    rest: &mut Reader,
) -> Result<Listed<T, MOST>, RecordError>
    ensures { Reads (LongFits T.fits MOST) (long_text T.text) rest.old result rest.new }
{
    let count = usize::from(u16::read(alloc, rest)?);
    if count > MOST {
        return Err(RecordError::NotARecord);
    }
    read_list(alloc, rest, count)
}

/// Lays the parts' texts, one behind another, and tells where they end.
pub fn lay_list<T: Spelled>(out: &mut [u8], used: usize, items: &[T]) -> usize
    ensures { IsLaid used out.old out.new (flat_map T.text items.now) result }
{
    let mut used = used;
    for item in items {
        used = item.lay(out, used);
    }
    used
}

/// Lays the number of parts, a byte, and their texts.
pub fn lay_short<T: Spelled>(out: &mut [u8], used: usize, items: &[T]) -> usize
    requires { length items.now < 256 }
    ensures { IsLaid used out.old out.new (short_text T.text items.now) result }
{
    let used = (items.len() as u8).lay(out, used);
    lay_list(out, used, items)
}

/// Lays the number of parts, two bytes, and their texts.
pub fn lay_long<T: Spelled>(out: &mut [u8], used: usize, items: &[T]) -> usize
    requires { length items.now < 65536 }
    ensures { IsLaid used out.old out.new (long_text T.text items.now) result }
{
    let used = (items.len() as u16).lay(out, used);
    lay_list(out, used, items)
}
