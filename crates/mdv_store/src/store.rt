// An open database, and how the next table is committed to it.
ghost use Rattle.std.specs.Prelude.{◌≡◌, ◌≤◌, ◌<◌, ◌↔◌, Contains, IfErr, IsSome, OnOk};
ghost use Rattle.mdv_encoding.specs.Text.{record_bytes};
ghost use Rattle.mdv_shelf.specs.Drives.{KeptAmong};
ghost use Rattle.mdv_shelf.specs.Shelves.{AtEachTale, AtEnd};
ghost use Rattle.mdv_config.specs.Lists.{places_of};
ghost use Rattle.mdv_store.specs.Commit.{CommitAnswer, CommitDone, CommitMoment, room_in};
ghost use Rattle.mdv_store.specs.Counts.{IsCommitCounted};
ghost use Rattle.mdv_store.specs.Letters.{flags_at as spec_flags_at, places_seen};
ghost use Rattle.mdv_store.specs.Opened.{shortage as spec_shortage};
ghost use Rattle.mdv_store.specs.Seats.{AreLaid, drives_of};

use crate::letters::{Letters, flags_at};
use crate::seats::{Need, Seat, Share, short};
use crate::writing::write_all;
use mdv_base::{BLOCK_BYTES, Block, Flags, Identity, Key, Mark, NUMBER_LIMIT, Place};
use mdv_encoding::{least_room, text_bytes};
use mdv_plan::Table;
use mdv_shelf::Shelf;
use mdv_votes::Row;
use mdv_whole::TooLong;
use std::marker::Model;

/// An open database: whose it is, the identity of its creation, the mark under which its newest table was written, that table, its listed
/// places, and room for the text of the next one.
#[derive(Drop)]
pub struct Store {
    pub(crate) key: Key,
    pub(crate) identity: Identity,
    pub(crate) mark: Mark,
    pub(crate) table: Table,
    pub(crate) seats: Row<Seat>,
    pub(crate) room: Vec<Block>,
}

impl Model for Store {
    ghost use Rattle.std.specs.Prelude.{vec_len};
    ghost use Rattle.mdv_store.specs.Opened.{IsOpen, Opened};

    ghost Value = { Opened };

    ghost view = { λ s. record { key = s.key; identity = s.identity; mark = s.mark; table = s.table; seats = s.seats } };

    ghost invariant = { λ s. IsOpen (record { key = s.key; identity = s.identity; mark = s.mark; table = s.table; seats = s.seats }) (vec_len s.room) };
}

/// Why a table isn't committed.
#[derive(Clone, Copy, Debug, PartialEq, Eq)]
pub enum CommitFault {
    /// Of a list, the first one of which that is so, fewer than half of the places are active, because calls on their drives failed: a crash may leave
    /// the old table or the new one. From then on each commit is answered so, and does nothing.
    Lost { active: u32, listed: u32 },
    /// Its text is longer than the smallest slot of the listed places; nothing was done.
    TooLong(TooLong),
    /// The count of the next mark would reach 2^63; nothing was done.
    Spent,
}

impl From<TooLong> for CommitFault {
    ghost use Rattle.mdv_store.specs.declared.store.CommitFault.TheVariants.{TooLong as AsTooLong};

    ghost from_gives = { λ fault made. made ≡ AsTooLong fault };

    fn from(fault: TooLong) -> CommitFault {
        CommitFault::TooLong(fault)
    }
}

impl Store {
    /// The newest table.
    pub fn table(&self) -> &Table
        ensures { result.now ≡ self.now.table }
    {
        &self.table
    }

    /// The mark under which it was written. Its boot number is that of the last boot.
    pub fn mark(&self) -> Mark
        ensures { result ≡ self.now.mark }
    {
        self.mark
    }

    /// The identity of the database's creation.
    pub fn identity(&self) -> Identity
        ensures { result ≡ self.now.identity }
    {
        self.identity
    }

    /// A place's nine letters, by what was seen of the listed places as the database was opened; none where the place isn't listed. It is active and
    /// up to date as long as no call on its drive failed; one that was active then and isn't now has a write error. `Letters::are_of` tells whether the
    /// letters are of these places; that they are of this boot, and of no other one of the same list, is the caller's care.
    pub fn flags(&self, letters: &Letters, place: &Place) -> Option<Flags>
        requires of { places_seen letters.now ≡ places_of self.now.table.plan.lists }
        ensures is { result ≡ spec_flags_at self.now.seats letters.now place.now }
        ensures listed { IsSome result ↔ Contains (places_of self.now.table.plan.lists) place.now }
    {
        flags_at(self.seats.as_slice(), letters.as_slice(), *place)
    }

    /// Writes the next table, with the lists of this one, to each active place: three writes and three syncs at each. Its text is spelled once. It takes
    /// no memory.
    pub fn commit<S: Shelf>(&mut self, shelf: &mut S, next: Table) -> Result<(), CommitFault>
        requires laid { AreLaid (S.sizes shelf.old) self.old.seats }
        requires lists { next.plan.lists ≡ self.old.table.plan.lists }
        ensures answer { CommitAnswer S.Shelf shelf.old shelf.new self.old self.new next result }
        ensures moments { AtEachTale S.Shelf (CommitMoment self.old next) shelf.old shelf.new }
        ensures end { OnOk result (AtEnd S.Shelf (CommitDone self.old self.new next) shelf.old shelf.new) }
        ensures counted { IsCommitCounted S.Shelf shelf.old shelf.new (record_bytes next) self.old self.new.seats result }
        ensures kept { KeptAmong S.Shelf shelf.old shelf.new (drives_of self.old.seats) }
    {
        if let Some(share) = self.shortage() {
            return Err(lost(share));
        }
        self.check_room(&next)?;
        let count = self.mark.count + 1;
        if count >= NUMBER_LIMIT {
            return Err(CommitFault::Spent);
        }
        let mark = Mark {
            boot: self.mark.boot,
            count,
        };
        write_all(shelf, &mut self.seats, mark, &next, &mut self.room);
        if let Some(share) = short(self.seats.as_slice(), &self.table.plan.lists, Need::Half) {
            return Err(lost(share));
        }
        self.mark = mark;
        self.table = next;
        Ok(())
    }

    // The share of the first list of which fewer than half is active.
    pub(crate) fn shortage(&self) -> Option<Share>
        ensures { result ≡ spec_shortage self.now }
    {
        short(self.seats.as_slice(), &self.table.plan.lists, Need::Half)
    }

    fn check_room(&self, next: &Table) -> Result<(), TooLong>
        ensures ok { OnOk result (record_bytes next.now ≤ room_in self.now.table) }
        ensures err { IfErr result (λ fault. (fault.bytes ≡ record_bytes next.now) × (fault.room ≡ room_in self.now.table) × (fault.room < fault.bytes)) }
    {
        let bytes = text_bytes(next);
        let room = (least_room(&self.table.plan.lists) * BLOCK_BYTES) as u64;
        if room < bytes {
            return Err(TooLong { bytes, room });
        }
        Ok(())
    }
}

pub(crate) fn lost(share: Share) -> CommitFault
    ensures { result ≡ CommitFault.Lost share.active share.listed }
{
    CommitFault::Lost {
        active: share.active,
        listed: share.listed,
    }
}
