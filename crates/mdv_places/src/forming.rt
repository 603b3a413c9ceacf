// What a change of places takes of memory before it writes, and how the places that are added are formatted.
ghost use Rattle.std.specs.Prelude.{◌≡◌, ◌≢◌, ◌≤◌, ◌<◌, ◌^◌, ◌++◌, IfOk, OnErr, OnOk, map};
ghost use Rattle.mdv_acts.specs.Acts.{HaveGone, HaveStopped, acts_asked};
ghost use Rattle.mdv_acts.specs.Asked.{AreAsked, drives_asked};
ghost use Rattle.mdv_store.specs.Create.{seats_asked as spec_seats_asked};
ghost use Rattle.mdv_places.specs.Asked.{AreAskedOn, IsShort, KeepsFirst, acts_moved, asked_of, claimed as spec_claimed, claims, drives_added};
ghost use Rattle.mdv_places.specs.Changing.{IsPrepared};

use crate::asked::Move;
use mdv_acts::{Owner, clear_all, format_all};
use mdv_base::{Block, Failed};
use mdv_name::SliceLine;
use mdv_plan::Lists;
use mdv_replica::Head;
use mdv_shelf::Shelf;
use mdv_store::{Seat, Store, room_of, seats_asked};
use mdv_survey::Replica;
use mdv_votes::Row;
use std::alloc::{AllocError, Global};

// The seats of both lists, where places are added; and room for the texts that come, where some are dropped.
#[derive(Drop)]
pub(crate) struct Hand {
    pub(crate) seats: Option<Row<Seat>>,
    pub(crate) room: Option<Vec<Block>>,
}

// Where the first place alone is left no memory is taken: the seats are there, and the room is long enough for its slot.
pub(crate) fn prepare(
    alloc: Global,
    store: &Store,
    lists: &Lists,
    asked: &Move,
) -> Result<Hand, AllocError>
    requires { IsShort (asked_of asked.now) }
    ensures made { IfOk result (IsPrepared store.now lists.now (asked_of asked.now)) }
    ensures wanting { OnErr result (asked_of asked.now ≢ KeepsFirst) }
{
    let mut hand = Hand {
        seats: None,
        room: None,
    };
    match asked {
        Move::Add {
            lines,
            count,
            blocks,
        } => hand.seats = Some(wider(alloc, store, lines, *count, *blocks)?),
        Move::Drop { .. } => hand.room = Some(room_of(alloc, lists)?),
        Move::First => {}
    }
    Ok(hand)
}

// The store's seats, and those of the places that are added behind them.
fn wider(
    alloc: Global,
    store: &Store,
    lines: &[SliceLine],
    count: u8,
    blocks: u32,
) -> Result<Row<Seat>, AllocError>
    requires few { count ≤ 50 }
    requires most { blocks ≤ 8192 }
    ensures { IfOk result (λ seats. seats ≡ store.now.seats ++ map (claims store.now.mark.boot) (spec_seats_asked store.now.key store.now.identity lines.now count blocks)) }
{
    let claim = store.mark().boot;
    let mut seats = Row::from_slice(alloc, store.seats())?;
    let added = seats_asked(alloc, &store.key(), store.identity(), lines, count, blocks)?;
    for seat in added.as_slice() {
        seats.push(with_claim(*seat, claim))?;
    }
    Ok(seats)
}

// The place with its replica as it is formatted with this claim.
fn with_claim(seat: Seat, claim: u64) -> Seat
    ensures { result ≡ claims claim seat }
{
    Seat {
        place: seat.place,
        replica: claimed(seat.replica, claim),
    }
}

fn claimed(replica: Option<Replica>, claim: u64) -> Option<Replica>
    ensures { result ≡ spec_claimed claim replica }
{
    let replica = replica?;
    let head = Head {
        claim,
        ..replica.head
    };
    Some(Replica { head, ..replica })
}

// Where places are added masters are blanked, as before a creation, and each of the places is formatted under the number of the last boot.
pub(crate) fn form<S: Shelf>(shelf: &mut S, store: &Store, asked: &Move) -> Result<(), Failed>
    requires boot { store.now.mark.boot < 2 ^ 63 }
    requires asked { AreAskedOn (S.sizes shelf.old) (asked_of asked.now) }
    ensures gone { OnOk result (HaveGone S.Shelf shelf.old shelf.new (drives_added (asked_of asked.now)) (acts_moved store.now (asked_of asked.now))) }
    ensures stopped { OnErr result (HaveStopped S.Shelf shelf.old shelf.new (drives_added (asked_of asked.now)) (acts_moved store.now (asked_of asked.now))) }
{
    match asked {
        Move::Add {
            lines,
            count,
            blocks,
        } => form_all(shelf, store, lines, *count, *blocks),
        Move::Drop { .. } | Move::First => Ok(()),
    }
}

fn form_all<S: Shelf>(
    shelf: &mut S,
    store: &Store,
    lines: &[SliceLine],
    count: u8,
    blocks: u32,
) -> Result<(), Failed>
    requires boot { store.now.mark.boot < 2 ^ 63 }
    requires asked { AreAsked (S.sizes shelf.old) lines.now count blocks }
    ensures gone { OnOk result (HaveGone S.Shelf shelf.old shelf.new (drives_asked lines.now) (acts_asked store.now.key store.now.identity store.now.mark.boot lines.now count blocks)) }
    ensures stopped { OnErr result (HaveStopped S.Shelf shelf.old shelf.new (drives_asked lines.now) (acts_asked store.now.key store.now.identity store.now.mark.boot lines.now count blocks)) }
{
    let owner = Owner {
        key: store.key(),
        identity: store.identity(),
        claim: store.mark().boot,
    };
    clear_all(shelf, lines, count, blocks)?;
    format_all(shelf, &owner, lines, count, blocks)?;
    Ok(())
}
