// The text of a table, spelled once for all replicas.
ghost use Rattle.std.specs.Prelude.{◌≡◌, ◌<◌, ◌≤◌, ◌*◌, ◌%◌, ◌^◌, ℕ, length, slice_index, take, IfOk};
ghost use Rattle.mdv_encoding.specs.Text.{record_bytes, record_text};
ghost use Rattle.mdv_replica.specs.Replica.{slot_blocks};
ghost use Rattle.mdv_store.specs.Settled.{first_room as spec_first_room};
ghost use Rattle.mdv_store.specs.Text.{IsSpelled, blocks_for as spec_blocks_for};

use mdv_base::{BLOCK_BYTES, Block, Place, ZERO_BLOCK};
use mdv_encoding::encode;
use mdv_plan::Table;
use std::alloc::{AllocError, Global};

// The blocks of a slot of the longest place.
const MOST_ROOM: usize = 4094;

/// Room for a text of so many blocks.
pub(crate) fn room_for(alloc: Global, blocks: usize) -> Result<Vec<Block>, AllocError>
    ensures { IfOk result (λ room. length room.items ≡ blocks) }
{
    Ok(vec![in alloc; ZERO_BLOCK; blocks]?)
}

/// How many blocks a slot has of a replica of so many blocks.
pub(crate) fn slot_room(blocks: u32) -> usize
    ensures { result ≡ slot_blocks blocks }
{
    (blocks as usize).saturating_sub(4) / 2
}

/// How many blocks a slot of the first of these places has; none where there is no place.
pub(crate) fn first_room(places: &[Place]) -> usize
    ensures { result ≡ spec_first_room places.now }
{
    match places.first() {
        Some(place) => slot_room(place.blocks).min(MOST_ROOM),
        None => 0,
    }
}

/// How many blocks a text of so many bytes takes: one at least.
pub(crate) fn blocks_for(bytes: u64) -> usize
    ensures { result ≡ spec_blocks_for bytes }
{
    (bytes as usize).div_ceil(BLOCK_BYTES).max(1)
}

/// A table's text at the front of just the blocks that it takes.
#[derive(Clone, Copy)]
pub(crate) struct Spelled<'a> {
    /// How many bytes the text has.
    pub(crate) bytes: u32,
    pub(crate) body: &'a [Block],
}

/// Spells the table in front of the room, with zeros behind it to the end of a block.
pub(crate) fn spell<'a>(table: &Table, room: &'a mut [Block]) -> Spelled<'a>
    requires in_room { record_bytes table.now ≤ 512 * length room.old }
    requires some { 1 ≤ length room.old }
    requires short { 512 * length room.old < 2 ^ 32 }
    ensures spelled { IsSpelled table.now result.bytes result.body.now }
{
    let text = room.as_flattened_mut();
    let bytes = lay(table, text);
    let (blocks, _) = text.as_chunks::<512>();
    Spelled {
        bytes,
        body: &blocks[..blocks_for(u64::from(bytes))],
    }
}

// Lays the table's text in front, and zeros behind it to the end of a block. Tells how many bytes the text has.
fn lay(table: &Table, text: &mut [u8]) -> u32
    requires in_room { record_bytes table.now ≤ length text.old }
    requires some { 512 ≤ length text.old }
    requires short { length text.old < 2 ^ 32 }
    requires whole { length text.old % 512 ≡ 0 }
    ensures bytes { result ≡ record_bytes table.now }
    ensures text { take result text.new ≡ record_text table.now }
    ensures zeros { (k : ℕ) → result ≤ k → k < 512 * spec_blocks_for result → slice_index text.new k ≡ 0 }
{
    let bytes = encode(table, text).unwrap() as u32;
    let end = blocks_for(u64::from(bytes)) * BLOCK_BYTES;
    clear(&mut text[bytes as usize..end]);
    bytes
}

fn clear(bytes: &mut [u8])
    ensures { (k : ℕ) → k < length bytes.new → slice_index bytes.new k ≡ 0 }
{
    for byte in bytes.iter_mut() {
        *byte = 0;
    }
}
