// How long a text may be that each place of a table has room for.
ghost use Rattle.std.specs.Prelude.{◌≡◌, ◌≤◌, ◌↔◌, IsTrue};
ghost use Rattle.mdv_encoding.specs.Below.{places_of};
ghost use Rattle.mdv_encoding.specs.Room.{least_room as spec_least_room, least_slot_bytes, slot_room as spec_slot_room};

use mdv_base::{BLOCK_BYTES, Place};
use mdv_plan::Lists;

// The blocks of a slot of the longest place.
const MOST_ROOM: usize = 4094;

/// How many blocks the smallest slot of the listed places has.
pub fn least_room(lists: &Lists) -> usize
    ensures value { result ≡ spec_least_room (places_of lists.now) }
    ensures most { result ≤ 4094 }
{
    match lists {
        Lists::One(places) => least_of(places.as_slice()),
        Lists::Two(old, new) => least_of(old.as_slice()).min(least_of(new.as_slice())),
    }
}

// The same of one list.
fn least_of(places: &[Place]) -> usize
    ensures value { result ≡ spec_least_room places.now }
    ensures most { result ≤ 4094 }
{
    let mut least = MOST_ROOM;
    for place in places {
        least = least.min(slot_room(place.blocks));
    }
    least
}

// How many blocks a slot has of a place of so many.
fn slot_room(blocks: u32) -> usize
    ensures { result ≡ spec_slot_room blocks }
{
    (blocks as usize).saturating_sub(4) / 2
}

// Whether a text of so many bytes fits each slot of these places.
pub(crate) fn has_room(lists: &Lists, bytes: usize) -> bool
    ensures { IsTrue result ↔ (bytes ≤ least_slot_bytes (places_of lists.now)) }
{
    bytes <= BLOCK_BYTES * least_room(lists)
}
