// The listed places of an open database, and what is written to the active ones.
ghost use Rattle.std.specs.Prelude.{◌≡◌, ◌<◌, ◌≤◌, ◌^◌, length, map, Some};
ghost use Rattle.mdv_shelf.specs.Drives.{KeptAmong};
ghost use Rattle.mdv_shelf.specs.Shelves.{AtEachTale, AtEnd, DriveFailures};
ghost use Rattle.mdv_replica.specs.Form.{with_slot as spec_with_slot};
ghost use Rattle.mdv_replica.specs.Forms.{IsMark};
ghost use Rattle.mdv_replica.specs.Replica.{slot_blocks};
ghost use Rattle.mdv_store.specs.Claims.{ClaimingEnds, ClaimingMoment};
ghost use Rattle.mdv_store.specs.Passing.{IsActiveAt, IsStep, IsWriteOf, WentOver, claiming, left_on as spec_left_on, slotting, unless_on as spec_unless_on};
ghost use Rattle.mdv_store.specs.Seats.{AreLaid, IsLaid, AreLeft, HaveRoom, TakesClaim, TakesSlot, active_of, drives_of};
ghost use Rattle.mdv_store.specs.Shares.{has_active as spec_has_active, is_active_at as spec_is_active_at, share_in as spec_share_in, short_in as spec_short_in, short_of as spec_short_of, suffices as spec_suffices};
ghost use Rattle.mdv_store.specs.Slots.{SlottingEnds, SlottingMoment};

use crate::booting::is_same;
use mdv_base::{Block, DriveNo, Failed, Mark, Place, Places};
use mdv_plan::Lists;
use mdv_replica::{Gate, Head, Slot, write_claim, write_slot};
use mdv_shelf::Shelf;
use mdv_survey::{Replica, spare_slot};
use mdv_votes::{Row, at_least_half, more_than_half};

/// A listed place, and the replica there as it is on the disk. There is none where the place isn't active: a call on its drive failed, or the
/// boot found none.
#[derive(Clone, Copy)]
pub struct Seat {
    pub place: Place,
    pub replica: Option<Replica>,
}

/// Writes this claim to each active place in order. Behind a failed call on a drive none of its places is active, and none is written.
pub(crate) fn claim_all<S: Shelf>(shelf: &mut S, seats: &mut Row<Seat>, number: u64)
    requires laid { AreLaid (S.sizes shelf.old) seats.old }
    requires small { number < 2 ^ 63 }
    ensures left { AreLeft (DriveFailures S.Shelf shelf.old shelf.new) (TakesClaim number) seats.old seats.new }
    ensures moments { AtEachTale S.Shelf (ClaimingMoment seats.old number) shelf.old shelf.new }
    ensures end { AtEnd S.Shelf (ClaimingEnds seats.old seats.new number) shelf.old shelf.new }
    ensures passed { WentOver S.Shelf (claiming number) shelf.old shelf.new seats.old seats.new }
    ensures kept { KeptAmong S.Shelf shelf.old shelf.new (drives_of seats.old) }
{
    for index in 0..seats.as_slice().len() {
        claim_at(shelf, seats, index, number);
    }
}

fn claim_at<S: Shelf>(shelf: &mut S, seats: &mut Row<Seat>, index: usize, number: u64)
    requires within { index < length seats.old }
    requires laid { (r : Replica) → IsActiveAt seats.old index r → IsLaid (S.sizes shelf.old) r }
    requires small { number < 2 ^ 63 }
    ensures { IsStep S.Shelf (claiming number) shelf.old shelf.new seats.old index seats.new }
{
    let Seat { place, replica } = seats.as_slice()[index];
    let Some(replica) = replica else {
        return;
    };
    let drive = replica.line.at.drive;
    match claim(shelf, replica, number) {
        Ok(claimed) => seats.set(index, active_seat(place, claimed)),
        Err(Failed) => leave_drive(seats, drive),
    }
}

// The replica as it is then.
fn claim<S: Shelf>(shelf: &mut S, replica: Replica, number: u64) -> Result<Replica, Failed>
    requires laid { IsLaid (S.sizes shelf.old) replica }
    requires small { number < 2 ^ 63 }
    ensures { IsWriteOf S.Shelf (claiming number) shelf.old shelf.new replica result }
{
    write_claim(shelf, replica.at(), number)?;
    let head = Head {
        claim: number,
        ..replica.head
    };
    Ok(Replica { head, ..replica })
}

/// Writes this body of a table to the spare slot of each active place in order, under this mark. Behind a failed call on a drive none of its
/// places is active, and none is written.
pub(crate) fn slot_all<S: Shelf>(
    shelf: &mut S,
    seats: &mut Row<Seat>,
    mark: Mark,
    bytes: u32,
    body: &[Block],
)
    requires laid { AreLaid (S.sizes shelf.old) seats.old }
    requires mark { IsMark mark }
    requires some { 0 < length body.now }
    requires room { HaveRoom (length body.now) seats.old }
    ensures left { AreLeft (DriveFailures S.Shelf shelf.old shelf.new) (TakesSlot mark bytes) seats.old seats.new }
    ensures moments { AtEachTale S.Shelf (SlottingMoment seats.old mark bytes body.now) shelf.old shelf.new }
    ensures end { AtEnd S.Shelf (SlottingEnds seats.old seats.new mark bytes body.now) shelf.old shelf.new }
    ensures passed { WentOver S.Shelf (slotting mark bytes body.now) shelf.old shelf.new seats.old seats.new }
    ensures kept { KeptAmong S.Shelf shelf.old shelf.new (drives_of seats.old) }
{
    for index in 0..seats.as_slice().len() {
        slot_at(shelf, seats, index, mark, bytes, body);
    }
}

fn slot_at<S: Shelf>(
    shelf: &mut S,
    seats: &mut Row<Seat>,
    index: usize,
    mark: Mark,
    bytes: u32,
    body: &[Block],
)
    requires within { index < length seats.old }
    requires laid { (r : Replica) → IsActiveAt seats.old index r → IsLaid (S.sizes shelf.old) r × (length body.now ≤ slot_blocks r.first.blocks) }
    requires mark { IsMark mark }
    requires some { 0 < length body.now }
    ensures { IsStep S.Shelf (slotting mark bytes body.now) shelf.old shelf.new seats.old index seats.new }
{
    let Seat { place, replica } = seats.as_slice()[index];
    let Some(replica) = replica else {
        return;
    };
    let drive = replica.line.at.drive;
    match fill(shelf, replica, mark, bytes, body) {
        Ok(filled) => seats.set(index, active_seat(place, filled)),
        Err(Failed) => leave_drive(seats, drive),
    }
}

fn fill<S: Shelf>(
    shelf: &mut S,
    replica: Replica,
    mark: Mark,
    bytes: u32,
    body: &[Block],
) -> Result<Replica, Failed>
    requires laid { IsLaid (S.sizes shelf.old) replica }
    requires mark { IsMark mark }
    requires some { 0 < length body.now }
    requires room { length body.now ≤ slot_blocks replica.first.blocks }
    ensures { IsWriteOf S.Shelf (slotting mark bytes body.now) shelf.old shelf.new replica result }
{
    let slot = spare_slot(&replica.head);
    write_slot(shelf, replica.at(), slot, mark, bytes, body)?;
    let head = with_slot(replica.head, slot, Gate::Open { mark, bytes });
    Ok(Replica { head, ..replica })
}

fn with_slot(head: Head, slot: Slot, gate: Gate) -> Head
    ensures { result ≡ spec_with_slot head slot gate }
{
    match slot {
        Slot::First => Head {
            first: gate,
            ..head
        },
        Slot::Second => Head {
            second: gate,
            ..head
        },
    }
}

fn active_seat(place: Place, replica: Replica) -> Seat
    ensures { result ≡ record { place = place; replica = Some replica } }
{
    Seat {
        place,
        replica: Some(replica),
    }
}

// No place of the drive is active any more.
fn leave_drive(seats: &mut Row<Seat>, drive: DriveNo)
    ensures { seats.new ≡ map (spec_left_on drive) seats.old }
{
    for index in 0..seats.as_slice().len() {
        let seat = seats.as_slice()[index];
        seats.set(index, left_on(seat, drive));
    }
}

fn left_on(seat: Seat, drive: DriveNo) -> Seat
    ensures { result ≡ spec_left_on drive seat }
{
    let Seat { place, replica } = seat;
    Seat {
        place,
        replica: unless_on(replica, drive),
    }
}

fn unless_on(replica: Option<Replica>, drive: DriveNo) -> Option<Replica>
    ensures { result ≡ spec_unless_on drive replica }
{
    let replica = replica?;
    if replica.line.at.drive == drive {
        None
    } else {
        Some(replica)
    }
}

/// How many places are active.
pub(crate) fn active(seats: &[Seat]) -> usize
    ensures { result ≡ active_of seats.now }
{
    seats.iter().filter(|seat| seat.replica.is_some()).count()
}

/// How much of each list has to be active.
#[derive(Clone, Copy)]
pub enum Need {
    /// At least half of it.
    Half,
    /// More than half of it.
    More,
}

/// Of a list so many places are active, and so many it has.
#[derive(Clone, Copy)]
pub struct Share {
    pub active: u32,
    pub listed: u32,
}

/// The share of the first list of which not enough is active, the old one first. There is none where of each list enough is.
pub fn short(seats: &[Seat], lists: &Lists, need: Need) -> Option<Share>
    ensures { result ≡ spec_short_of need seats.now lists.now }
{
    match lists {
        Lists::One(list) => short_in(seats, list, need),
        Lists::Two(old, new) => short_in(seats, old, need).or(short_in(seats, new, need)),
    }
}

fn short_in(seats: &[Seat], list: &Places, need: Need) -> Option<Share>
    ensures { result ≡ spec_short_in need seats.now list.now }
{
    let share = share_in(seats, list);
    if suffices(share, need) {
        None
    } else {
        Some(share)
    }
}

fn suffices(share: Share, need: Need) -> bool
    ensures { result ≡ spec_suffices need share }
{
    match need {
        Need::Half => at_least_half(share.active, share.listed),
        Need::More => more_than_half(share.active, share.listed),
    }
}

fn share_in(seats: &[Seat], list: &Places) -> Share
    ensures { result ≡ spec_share_in seats.now list.now }
{
    let _few = list.is_full();
    let places = list.as_slice();
    let active = places
        .iter()
        .filter(|place| has_active(seats, place))
        .count();
    Share {
        active: active as u32,
        listed: places.len() as u32,
    }
}

// Whether a seat of the place is active.
fn has_active(seats: &[Seat], place: &Place) -> bool
    ensures { result ≡ spec_has_active seats.now place.now }
{
    seats.iter().any(|seat| is_active_at(seat, place))
}

pub(crate) fn is_active_at(seat: &Seat, place: &Place) -> bool
    ensures { result ≡ spec_is_active_at place.now seat.now }
{
    is_same(seat.place, *place) && seat.replica.is_some()
}
