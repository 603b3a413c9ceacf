// A record in order; numbers are big-endian:
//
//     head      MDVREC01, length of the whole u32
//     lists     how many u8, and of each how many places u8 and the places
//     set       owner, hosts u8, drives u16, mediators u8
//     pending   how many u8, and of each a name and its hosts u8
//     pools     how many u16, and of each number u16, spares u16 with their states
//     volumes   how many u16, and of each number u16, kind u8 and body
ghost use Rattle.mdv_fields.specs.Reading.{Reads, long_text};
ghost use Rattle.mdv_codec.specs.Record.{FrontFits, front_text, RisingFits, BodyFits, body_text, Any, head_text, IsRead};

use crate::recorded::{Recorded, RecordedFront};
use mdv_fields::{Ordered, Part, Reader, RecordError, are_spaced, ascend, read_long, read_short};
use mdv_plan::{Listed, Lists, MAX_PENDING, Pending, SetData};
use std::alloc::Global;

/// What a record begins with.
pub const HEAD: &[u8; 8] = b"MDVREC01";

impl Part for RecordedFront {
    ghost fits = { FrontFits };

    ghost text = { front_text };

    #[tactic(auto, unfolding(crate::specs::Record::front_text))]
    fn read(alloc: Global, rest: &mut Reader) -> Result<RecordedFront, RecordError> {
        let lists = Lists::read(alloc, rest)?;
        if !are_spaced(&lists) {
            return Err(RecordError::NotARecord);
        }
        let set = SetData::read(alloc, rest)?;
        let pending: Listed<Pending, MAX_PENDING> = read_short(alloc, rest)?;
        if !ascend(pending.as_slice()) {
            return Err(RecordError::NotARecord);
        }
        Ok(RecordedFront {
            lists,
            set,
            pending,
        })
    }
}

// Parts behind their number, which ascend.
fn read_rising<T: Part + Ordered, const MOST: usize>(
    alloc: Global,
    rest: &mut Reader,
) -> Result<Listed<T, MOST>, RecordError>
    ensures { Reads (RisingFits T.fits T.below MOST) (long_text T.text) rest.old result rest.new }
{
    let items: Listed<T, MOST> = read_long(alloc, rest)?;
    if ascend(items.as_slice()) {
        Ok(items)
    } else {
        Err(RecordError::NotARecord)
    }
}

impl Part for Recorded {
    ghost fits = { BodyFits };

    ghost text = { body_text };

    #[tactic(auto, unfolding(crate::specs::Record::body_text))]
    fn read(alloc: Global, rest: &mut Reader) -> Result<Recorded, RecordError> {
        let front = RecordedFront::read(alloc, rest)?;
        let pools = read_rising(alloc, rest)?;
        let volumes = read_rising(alloc, rest)?;
        Ok(Recorded {
            front,
            pools,
            volumes,
        })
    }
}

/// Reads the record that these bytes are.
pub fn read_record(alloc: Global, bytes: &[u8]) -> Result<Recorded, RecordError>
    ensures { IsRead bytes.now result }
{
    let mut rest = Reader::new(bytes);
    read_head(&mut rest)?;
    let size = u32::read(alloc, &mut rest)?;
    if size as usize != bytes.len() {
        return Err(RecordError::NotARecord);
    }
    let recorded = Recorded::read(alloc, &mut rest)?;
    if rest.is_empty() {
        Ok(recorded)
    } else {
        Err(RecordError::NotARecord)
    }
}

fn read_head(rest: &mut Reader) -> Result<(), RecordError>
    ensures { Reads Any head_text rest.old result rest.new }
{
    if rest.bytes(HEAD.len())? == HEAD.as_slice() {
        Ok(())
    } else {
        Err(RecordError::NotARecord)
    }
}
