// How a table is written to the active places of a database.
ghost use Rattle.std.specs.Prelude.{◌≤◌, ◌<◌, ◌+◌, ◌*◌, ◌^◌, length};
ghost use Rattle.mdv_shelf.specs.Drives.{KeptAmong};
ghost use Rattle.mdv_shelf.specs.Shelves.{AtEachTale, AtEnd, DriveFailures};
ghost use Rattle.mdv_replica.specs.Forms.{IsMark};
ghost use Rattle.mdv_store.specs.Seats.{AreLaid, AreLeft, HaveRoom, TakesSlot, drives_of};
ghost use Rattle.mdv_store.specs.Text.{blocks_for};
ghost use Rattle.mdv_store.specs.Writing.{WereWritten, WritingEnds, WritingMoment, text_size};

use crate::seats::{Seat, slot_all};
use crate::text::spell;
use mdv_base::{Block, Mark};
use mdv_plan::Table;
use mdv_shelf::Shelf;
use mdv_votes::Row;

/// Spells the table in this room, and writes it to each active place under the mark. What the room holds then is of no use.
pub(crate) fn write_all<S: Shelf>(
    shelf: &mut S,
    seats: &mut Row<Seat>,
    mark: Mark,
    table: &Table,
    room: &mut [Block],
)
    requires laid { AreLaid (S.sizes shelf.old) seats.old }
    requires mark { IsMark mark }
    requires in_seats { HaveRoom (blocks_for (text_size table.now)) seats.old }
    requires in_room { text_size table.now ≤ 512 * length room.old }
    requires some { 1 ≤ length room.old }
    requires short { 512 * length room.old < 2 ^ 32 }
    ensures left { AreLeft (DriveFailures S.Shelf shelf.old shelf.new) (TakesSlot mark (text_size table.now)) seats.old seats.new }
    ensures moments { AtEachTale S.Shelf (WritingMoment seats.old mark table.now) shelf.old shelf.new }
    ensures end { AtEnd S.Shelf (WritingEnds seats.old seats.new mark table.now) shelf.old shelf.new }
    ensures passed { WereWritten S.Shelf mark table.now shelf.old shelf.new seats.old seats.new }
    ensures kept { KeptAmong S.Shelf shelf.old shelf.new (drives_of seats.old) }
{
    let text = spell(table, room);
    slot_all(shelf, seats, mark, text.bytes, text.body);
}
