// How a second list of places comes beside an open database's only one, and how it is the only one then.
ghost use Rattle.std.specs.Prelude.{◌≡◌, ◌≤◌, ◌<◌, ◌^◌, length, vec_len, IfOk, MatchOption, MatchResult};
ghost use Rattle.mdv_encoding.specs.Room.{least_slot_bytes};
ghost use Rattle.mdv_encoding.specs.Text.{record_bytes};
ghost use Rattle.mdv_config.specs.Lists.{with_lists};
ghost use Rattle.mdv_config.specs.Lists.{places_of};
ghost use Rattle.mdv_store.specs.Commit.{next_mark};
ghost use Rattle.mdv_store.specs.Listing.{IsLast, IsRoomFor, IsRoomy, IsSecond, MayList, MayNotList, WasListed, is_listed_in as spec_is_listed_in, last_by, list_room, listed_by, seats_in, seats_then};
ghost use Rattle.mdv_store.specs.Seats.{AreLaid};

use crate::booting::is_same;
use crate::seats::{Need, Seat, Share, short};
use crate::store::{CommitFault, Store, lost};
use crate::text::{first_room, room_for};
use crate::writing::write_all;
use mdv_base::{BLOCK_BYTES, Block, Key, Mark, NUMBER_LIMIT, Place, Places};
use mdv_config::last_of;
use mdv_encoding::{bytes_with, least_room};
use mdv_plan::Lists;
use mdv_shelf::Shelf;
use mdv_votes::Row;
use mdv_whole::TooLong;
use std::alloc::{AllocError, Global};

impl Store {
    /// Whose database it is.
    pub fn key(&self) -> Key
        ensures { result ≡ self.now.key }
    {
        self.key
    }

    /// The listed places in order, each with its replica while it is active.
    pub fn seats(&self) -> &[Seat]
        ensures { result.now ≡ self.now.seats }
    {
        self.seats.as_slice()
    }

    /// Whether a change of places may be written: at least half of each list is active, the text of the table with these lists fits the smallest slot of
    /// their places, and the counts of two records are below 2^63. The first that isn't so is told.
    pub fn check_lists(&self, lists: &Lists) -> Result<(), CommitFault>
        ensures { MatchResult result (λ done. MayList self.now lists.now) (MayNotList self.now lists.now) }
    {
        if let Some(share) = self.shortage() {
            return Err(lost(share));
        }
        self.check_slots(lists)?;
        if self.mark.count + 2 >= NUMBER_LIMIT {
            return Err(CommitFault::Spent);
        }
        Ok(())
    }

    fn check_slots(&self, lists: &Lists) -> Result<(), TooLong>
        ensures { MatchResult result (λ done. record_bytes (with_lists self.now.table lists.now) ≤ least_slot_bytes (places_of lists.now))
            (λ fault. (fault.bytes ≡ record_bytes (with_lists self.now.table lists.now)) × (fault.room ≡ least_slot_bytes (places_of lists.now)) × (fault.room < fault.bytes)) }
    {
        let bytes = bytes_with(&self.table, lists);
        let room = (least_room(lists) * BLOCK_BYTES) as u64;
        if room < bytes {
            return Err(TooLong { bytes, room });
        }
        Ok(())
    }

    /// Writes the table with a second list beside its only one, as a commit does: to each active place, and to those that are added. Seats that are handed
    /// over take the place of those that there are, and so does room: it is for the longest text that the store may have to spell then, and
    /// none has to be handed over where there is enough. It takes no memory. Where fewer than half of a list take the table the store is
    /// lost: it has both lists then, and nothing more is written.
    pub fn list_both<S: Shelf>(
        &mut self,
        shelf: &mut S,
        lists: Lists,
        seats: Option<Row<Seat>>,
        room: Option<Vec<Block>>,
    ) -> Result<(), Share>
        requires laid { AreLaid (S.sizes shelf.old) (seats_then seats self.old.seats) }
        requires second { IsSecond self.old lists (seats_then seats self.old.seats) }
        requires room { MatchOption room (IsRoomy self.old lists) (λ (r : _). IsRoomFor lists (vec_len r)) }
        ensures { WasListed S.Shelf shelf.old shelf.new (listed_by self.old lists (seats_then seats self.old.seats)) self.new result }
    {
        if let Some(seats) = seats {
            self.seats = seats;
        }
        if let Some(room) = room {
            self.room = room;
        }
        self.table.plan.lists = lists;
        let mark = after(self.mark);
        write_all(shelf, &mut self.seats, mark, &self.table, &mut self.room);
        if let Some(share) = short(self.seats.as_slice(), &self.table.plan.lists, Need::Half) {
            return Err(share);
        }
        self.mark = mark;
        Ok(())
    }

    /// Writes the table with its second list alone, as a commit does, to the active places of that list. It takes no memory. Where fewer than half of the list
    /// take the table the store is lost, and nothing more is written.
    pub fn list_last<S: Shelf>(&mut self, shelf: &mut S) -> Result<(), Share>
        requires laid { AreLaid (S.sizes shelf.old) self.old.seats }
        requires last { IsLast self.old }
        ensures { WasListed S.Shelf shelf.old shelf.new (last_by self.old) self.new result }
    {
        let list = copy_of(last_of(&self.table.plan.lists));
        keep_listed(&mut self.seats, list.as_slice());
        self.table.plan.lists = Lists::One(list);
        let mark = after(self.mark);
        write_all(shelf, &mut self.seats, mark, &self.table, &mut self.room);
        if let Some(share) = short(self.seats.as_slice(), &self.table.plan.lists, Need::Half) {
            return Err(share);
        }
        self.mark = mark;
        Ok(())
    }
}

fn after(mark: Mark) -> Mark
    requires { mark.count < 2 ^ 63 }
    ensures { result ≡ next_mark mark }
{
    Mark {
        boot: mark.boot,
        count: mark.count + 1,
    }
}

/// Room for the longest text that a store with these lists may have to spell: as long as the smallest slot of their places, and as the first slot of the
/// list that comes, or of the only one.
pub fn room_of(alloc: Global, lists: &Lists) -> Result<Vec<Block>, AllocError>
    ensures { IfOk result (λ room. length room.items ≡ list_room lists.now) }
{
    room_for(alloc, least_room(lists).max(first_room(last_of(lists))))
}

fn copy_of(places: &[Place]) -> Places
    requires { length places.now ≤ 50 }
    ensures { result ≡ places.now }
{
    let mut copy = Places::new();
    for place in places {
        copy.push(*place);
    }
    copy
}

// The seats of a list's places alone.
fn keep_listed(seats: &mut Row<Seat>, list: &[Place])
    ensures { seats.new ≡ seats_in list.now seats.old }
{
    seats.retain(|seat| is_listed_in(seat, list));
}

fn is_listed_in(seat: &Seat, list: &[Place]) -> bool
    ensures { result ≡ spec_is_listed_in list.now seat.now }
{
    list.iter().any(|place| is_same(seat.place, *place))
}
