// How a boot finishes a change of places: the table that it wrote anew is committed with its new list alone.
ghost use Rattle.std.specs.Prelude.{◌≡◌, ◌≤◌, length, map, vec_len};
ghost use Rattle.std.specs.List.{find};
ghost use Rattle.mdv_store.specs.Opened.{IsOpen};
ghost use Rattle.mdv_store.specs.Seats.{AreLaid};
ghost use Rattle.mdv_store.specs.Settled.{again_of as spec_again_of, replica_for as spec_replica_for, seat_now as spec_seat_now};
ghost use Rattle.mdv_store.specs.Shares.{is_active_at as spec_is_active_at};
ghost use Rattle.mdv_store.specs.Settling.{IsDraft, WasSettled, opened_of};

use crate::booting::{BootEnd, Taken, lost};
use crate::seats::{Need, Seat, active, is_active_at, short};
use crate::store::Store;
use crate::writing::write_all;
use mdv_base::{Block, Identity, Key, Mark, Place};
use mdv_config::last_of;
use mdv_plan::{Lists, Table};
use mdv_shelf::Shelf;
use mdv_survey::Replica;
use mdv_votes::Row;

/// What a boot wrote anew: a database's table, under which mark and to which places; and room for its text.
#[derive(Drop)]
pub(crate) struct Draft {
    pub(crate) key: Key,
    pub(crate) identity: Identity,
    pub(crate) mark: Mark,
    pub(crate) table: Table,
    pub(crate) seats: Row<Seat>,
    pub(crate) room: Vec<Block>,
}

/// It is open as it is.
pub(crate) fn opened(draft: Draft, calm: bool) -> Taken
    requires open { IsOpen (opened_of draft) (vec_len draft.room) }
    ensures { result ≡ record { end = BootEnd.Adopted (opened_of draft); calm = calm } }
{
    let Draft {
        key,
        identity,
        mark,
        table,
        seats,
        room,
    } = draft;
    Taken {
        end: BootEnd::Adopted(Store {
            key,
            identity,
            mark,
            table,
            seats,
            room,
        }),
        calm,
    }
}

/// The places of the list that comes, where the table has two.
pub(crate) fn again_of(lists: &Lists) -> &[Place]
    ensures value { result.now ≡ spec_again_of lists.now }
    ensures few { length result.now ≤ 50 }
{
    match lists {
        Lists::One(_) => &[],
        Lists::Two(_, _) => last_of(lists),
    }
}

/// Commits the table with its new list alone, to the places of that list: it is open so, where enough of them take it.
pub(crate) fn settle<S: Shelf>(
    shelf: &mut S,
    draft: Draft,
    next: Row<Seat>,
    need: Need,
    calm: bool,
) -> Taken
    requires laid { AreLaid (S.sizes shelf.old) draft.seats }
    requires draft { IsDraft (opened_of draft) (vec_len draft.room) next }
    ensures { WasSettled S.Shelf shelf.old shelf.new need draft calm result }
{
    let Draft {
        key,
        identity,
        mark,
        table,
        seats,
        mut room,
    } = draft;
    let mut now = next;
    take_over(&mut now, seats.as_slice());
    let readable = active(now.as_slice());
    let table = mdv_config::settle(table);
    let mark = Mark {
        boot: mark.boot,
        count: mark.count + 1,
    };
    write_all(shelf, &mut now, mark, &table, &mut room);
    if let Some(share) = short(now.as_slice(), &table.plan.lists, need) {
        return lost(share);
    }
    let calm = calm && active(now.as_slice()) == readable;
    let settled = Draft {
        key,
        identity,
        mark,
        table,
        seats: now,
        room,
    };
    opened(settled, calm)
}

// Each place's replica as these seats have it.
fn take_over(now: &mut Row<Seat>, seats: &[Seat])
    ensures { now.new ≡ map (λ (s : Seat). spec_seat_now seats.now s.place) now.old }
{
    for index in 0..now.as_slice().len() {
        let seat = now.as_slice()[index];
        now.set(index, seat_now(seats, seat.place));
    }
}

fn seat_now(seats: &[Seat], place: Place) -> Seat
    ensures { result ≡ spec_seat_now seats.now place }
{
    Seat {
        place,
        replica: replica_for(seats, place),
    }
}

fn replica_for(seats: &[Seat], place: Place) -> Option<Replica>
    ensures { result ≡ spec_replica_for seats.now place }
{
    let seat = active_at(seats, place)?;
    seat.replica
}

// The place's first seat that is active.
fn active_at(seats: &[Seat], place: Place) -> Option<Seat>
    ensures { result ≡ find (spec_is_active_at place) seats.now }
{
    seats
        .iter()
        .copied()
        .find(|seat| is_active_at(seat, &place))
}
