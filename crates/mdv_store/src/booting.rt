// How a boot finds the database and writes it anew.
ghost use Rattle.std.specs.Prelude.{◌≡◌, ◌≤◌, ◌<◌, ◌+◌, ◌/◌, ◌&&◌, [], not, true, false, length, Contains, IfOk};
ghost use Rattle.std.specs.List.{find};
ghost use Rattle.mdv_name.specs.Sound.{IsSound};
ghost use Rattle.mdv_shelf.specs.Drives.{AreDrives, KeptAmong};
ghost use Rattle.mdv_shelf.specs.Shelves.{AtEachTale, AtEnd, DriveFailures};
ghost use Rattle.mdv_shown.specs.Sites.{site_of};
ghost use Rattle.mdv_survey.specs.Choice.{is_of as spec_is_of, place_of as spec_place_of};
ghost use Rattle.mdv_survey.specs.Newest.{IsGreatest};
ghost use Rattle.mdv_survey.specs.Replica.{IsOnShelf, IsSeated};
ghost use Rattle.mdv_survey.specs.Survey.{IsSurvey};
ghost use Rattle.mdv_config.specs.Lists.{same_place};
ghost use Rattle.mdv_store.specs.Adopting.{AdoptEnds, AdoptMoment, AreAllIn, IsAdoptAnswer};
ghost use Rattle.mdv_store.specs.Booted.{IsBooted};
ghost use Rattle.mdv_store.specs.Boot.{IfAdopted, WasChosen, greatest_number as spec_greatest_number, is_memory, is_seated as spec_is_seated, need_of as spec_need_of, seats_of as spec_seats_of};
ghost use Rattle.mdv_store.specs.BootCounts.{IsBootCounted};
ghost use Rattle.mdv_store.specs.Booting.{BootEnds, BootMoment};
ghost use Rattle.mdv_store.specs.Seats.{AreLaid, drives_of};
ghost use Rattle.mdv_store.specs.Taking.{AreNumbered, IsHandOf, IsReadied, IsRewriteAnswer, IsTaken, IsTakingCounted, RewriteEnds, RewriteMoment, StaySynced, TakingEnds, TakingMoment, drives_read};

use crate::letters::{Letters, letters_of};
use crate::seats::{Need, Seat, Share, active, claim_all, short, slot_all};
use crate::settling::{Draft, again_of, opened, settle};
use crate::store::Store;
use crate::text::{blocks_for, first_room, room_for, slot_room, spell};
use mdv_base::{Block, DriveNo, DriveSet, Identity, Key, Mark, NUMBER_LIMIT, Place};
use mdv_config::{each_of, last_of};
use mdv_encoding::{least_room, text_bytes};
use mdv_look::{Looked, bring_up, look};
use mdv_name::Geometry;
use mdv_plan::{Lists, Table};
use mdv_shelf::Shelf;
use mdv_shown::Site;
use mdv_survey::{Choice, Newest, Replica, Survey, choose, greatest_of};
use mdv_votes::Row;
use std::alloc::{AllocError, Global};

/// What a boot came to.
#[derive(Drop)]
pub enum BootEnd {
    /// A table was found at more than half of the places of each of its lists, and written anew under the drawn number; and where it had two lists, once
    /// more with the one that comes alone.
    Adopted(Store),
    /// No readable replica shows a table.
    Empty,
    /// Replicas that show tables have different identities: that of the first one in the order of the slices, and the first other one.
    TwoDatabases { a: Identity, b: Identity },
    /// Not more than half of the places of a list of the newest table were found, the first one of which that is so: so many were, and so many are needed.
    NoQuorum { readable: u32, needed: u32 },
    /// A table was found, and of a list of it, the first one of which that is so, not enough places took the claim, or then the table, or of the one that
    /// comes then the table with it alone: fewer than half, or of a set's no more than half.
    Lost { active: u32, listed: u32 },
    /// The number to draw would reach 2^63; nothing was written.
    Spent,
    /// Memory was refused; nothing was written.
    Memory,
}

/// A boot's end, and what it found of the drives.
#[derive(Drop)]
pub struct Booted {
    pub end: BootEnd,
    /// Those of the site's drives of which the first block was read, and which were synced then.
    pub up: DriveSet,
    /// No call of the boot failed, on any drive. It isn't told of a boot that was refused memory.
    pub clean: bool,
    /// What was seen of the places that the newest table lists, of two lists of those of the one that comes; of none where no table was found. It isn't
    /// told of a boot that was refused memory.
    pub letters: Letters,
}

/// Brings the site's drives up: it reads the first block of each and syncs it, whatever came of those before. It looks at the site's slices on those
/// that are up. A drive on which a read fails has no readable replica. Where one database shows tables, and of each list of the newest one more than
/// half of the places were found, it draws one more than the greatest number there, writes it to each of these places as a claim, and then the table
/// under it to each that took the claim. At least half of each list has to take both, and of a set's lists more than half. Where the table has two lists
/// it is then written with the one that comes alone, under the next count, to those of its places that took it, and as many of them have to take that.
pub fn boot<S: Shelf>(shelf: &mut S, alloc: Global, geometry: &Geometry, site: &Site) -> Booted
    requires sound { IsSound geometry.now }
    requires on_shelf { IsOnShelf (S.sizes shelf.old) site.now }
    requires of { site.now ≡ site_of geometry.now site.now.key }
    ensures answer { IsBooted S.Shelf shelf.old shelf.new geometry.now site.now result }
    ensures moments { AtEachTale S.Shelf (BootMoment (λ drive. (DriveFailures S.Shelf shelf.old shelf.new drive).some) geometry.now site.now result.end) shelf.old shelf.new }
    ensures end { AtEnd S.Shelf (BootEnds (λ drive. (DriveFailures S.Shelf shelf.old shelf.new drive).some) geometry.now site.now result) shelf.old shelf.new }
    ensures counted { IsBootCounted S.Shelf shelf.old shelf.new geometry.now site.now result }
    ensures kept { KeptAmong S.Shelf shelf.old shelf.new site.now.drives }
{
    let drives = site.drives.as_slice();
    let up = bring_up(shelf, drives);
    let looked = match look(shelf, alloc, geometry, site, &up) {
        Ok(looked) => looked,
        Err(AllocError) => return wanting(alloc, up),
    };
    let letters = match letters_of(alloc, site, &looked) {
        Ok(letters) => letters,
        Err(AllocError) => return wanting(alloc, up),
    };
    let calm = are_all(drives, &looked.calm);
    let taken = take(shelf, alloc, site, looked);
    Booted {
        clean: is_clean(&taken, calm),
        end: taken.end,
        up,
        letters,
    }
}

// Memory was wanting.
fn wanting(alloc: Global, up: DriveSet) -> Booted
    ensures { result ≡ record { end = BootEnd.Memory; up = up; clean = false; letters = [] } }
{
    Booted {
        end: BootEnd::Memory,
        up,
        clean: false,
        letters: Letters::none(alloc),
    }
}

// What a boot made of what it had read, and that no call failed meanwhile.
#[derive(Drop)]
pub(crate) struct Taken {
    pub(crate) end: BootEnd,
    pub(crate) calm: bool,
}

// What an adoption writes: under which identity and number, to which places, and to which again, where the table has two lists; and the room for its text.
#[derive(Drop)]
struct Hand {
    identity: Identity,
    number: u64,
    seats: Row<Seat>,
    next: Row<Seat>,
    room: Vec<Block>,
}

fn quiet(end: BootEnd) -> Taken
    ensures end { result.end ≡ end }
    ensures calm { result.calm ≡ true }
{
    Taken { end, calm: true }
}

// No call failed, and memory wasn't wanting.
fn is_clean(taken: &Taken, calm: bool) -> bool
    ensures { result ≡ (calm && (taken.now.calm && not (is_memory taken.now.end))) }
{
    calm && taken.calm && !matches!(taken.end, BootEnd::Memory)
}

fn are_all(drives: &[DriveNo], set: &DriveSet) -> bool
    ensures { AreAllIn result drives.now set.now }
{
    drives.iter().all(|drive| set.contains(*drive))
}

// Adopts the newest table, where there is one, and it may be.
fn take<S: Shelf>(shelf: &mut S, alloc: Global, site: &Site, looked: Looked) -> Taken
    requires on_shelf { IsOnShelf (S.sizes shelf.old) site.now }
    requires survey { IsSurvey site.now looked.calm looked.survey }
    ensures answer { IsTaken S.Shelf shelf.old shelf.new site.now looked result }
    ensures moments { AtEachTale S.Shelf (TakingMoment site.now looked result.end) shelf.old shelf.new }
    ensures end { AtEnd S.Shelf (TakingEnds site.now looked result.end) shelf.old shelf.new }
    ensures synced { AtEnd S.Shelf (StaySynced S.Shelf shelf.old shelf.new) shelf.old shelf.new }
    ensures counted { IsTakingCounted S.Shelf shelf.old shelf.new result × KeptAmong S.Shelf shelf.old shelf.new (drives_read looked.survey.replicas) }
{
    let choice = choose(&looked.survey);
    match choice {
        Choice::Empty => quiet(BootEnd::Empty),
        Choice::TwoDatabases { a, b } => quiet(BootEnd::TwoDatabases { a, b }),
        Choice::NoQuorum { readable, needed } => quiet(BootEnd::NoQuorum { readable, needed }),
        Choice::Newest(_) => take_newest(shelf, alloc, site, looked),
    }
}

fn take_newest<S: Shelf>(shelf: &mut S, alloc: Global, site: &Site, looked: Looked) -> Taken
    requires on_shelf { IsOnShelf (S.sizes shelf.old) site.now }
    requires survey { IsSurvey site.now looked.calm looked.survey }
    requires chosen { WasChosen looked.survey }
    ensures answer { IsTaken S.Shelf shelf.old shelf.new site.now looked result }
    ensures moments { AtEachTale S.Shelf (TakingMoment site.now looked result.end) shelf.old shelf.new }
    ensures end { AtEnd S.Shelf (TakingEnds site.now looked result.end) shelf.old shelf.new }
    ensures synced { AtEnd S.Shelf (StaySynced S.Shelf shelf.old shelf.new) shelf.old shelf.new }
    ensures counted { IsTakingCounted S.Shelf shelf.old shelf.new result × KeptAmong S.Shelf shelf.old shelf.new (drives_read looked.survey.replicas) }
{
    let Looked { survey, calm: _ } = looked;
    let Survey {
        replicas,
        newest,
        others: _,
        failed: _,
    } = survey;
    match newest {
        Some(newest) => adopt(shelf, alloc, site, replicas.as_slice(), newest),
        None => quiet(BootEnd::Empty),
    }
}

fn adopt<S: Shelf>(
    shelf: &mut S,
    alloc: Global,
    site: &Site,
    replicas: &[Replica],
    newest: Newest,
) -> Taken
    requires on_shelf { IsOnShelf (S.sizes shelf.old) site.now }
    requires seated { (r : Replica) → Contains replicas.now r → IsSeated site.now r }
    requires newest { IsGreatest replicas.now newest }
    ensures answer { IsAdoptAnswer S.Shelf shelf.old shelf.new site.now replicas.now newest result }
    ensures moments { AtEachTale S.Shelf (AdoptMoment site.now replicas.now newest result.end) shelf.old shelf.new }
    ensures end { AtEnd S.Shelf (AdoptEnds site.now replicas.now newest result.end) shelf.old shelf.new }
    ensures synced { AtEnd S.Shelf (StaySynced S.Shelf shelf.old shelf.new) shelf.old shelf.new }
    ensures counted { IsTakingCounted S.Shelf shelf.old shelf.new result × KeptAmong S.Shelf shelf.old shelf.new (drives_read replicas.now) }
{
    let hand = match in_hand(alloc, replicas, &newest) {
        Ok(hand) => hand,
        Err(AllocError) => return quiet(BootEnd::Memory),
    };
    if let Some(share) = short(hand.seats.as_slice(), &newest.table.plan.lists, Need::More) {
        return quiet(unread(share));
    }
    if hand.number >= NUMBER_LIMIT {
        return quiet(BootEnd::Spent);
    }
    rewrite(shelf, &site.key, hand, newest.table)
}

// The listed places of the newest table, and what is drawn for it.
fn in_hand(alloc: Global, replicas: &[Replica], newest: &Newest) -> Result<Hand, AllocError>
    requires numbered { AreNumbered replicas.now }
    requires within { newest.now.replica < length replicas.now }
    ensures { IfOk result (IsHandOf replicas.now newest.now) }
{
    let identity = replicas[newest.replica].head.master.identity;
    let lists = &newest.table.plan.lists;
    let places = each_of(lists);
    let again = again_of(lists);
    let text = blocks_for(text_bytes(&newest.table));
    let most = least_room(lists).max(first_room(last_of(lists))).max(text);
    Ok(Hand {
        identity,
        number: greatest_number(replicas, identity) + 1,
        seats: seats_of(alloc, places.as_slice(), replicas, identity, text)?,
        next: seats_of(alloc, again, replicas, identity, text)?,
        room: room_for(alloc, most)?,
    })
}

// Writes the number, and then the table under it; and where that has two lists, it again with the new one alone.
fn rewrite<S: Shelf>(shelf: &mut S, key: &Key, hand: Hand, table: Table) -> Taken
    requires laid { AreLaid (S.sizes shelf.old) hand.seats }
    requires ready { IsReadied hand table }
    ensures answer { IsRewriteAnswer S.Shelf shelf.old shelf.new key.now hand table result }
    ensures moments { AtEachTale S.Shelf (RewriteMoment key.now hand table) shelf.old shelf.new }
    ensures end { AtEnd S.Shelf (λ t u. IfAdopted result.end (λ o. RewriteEnds key.now hand table o t u)) shelf.old shelf.new }
    ensures synced { AtEnd S.Shelf (StaySynced S.Shelf shelf.old shelf.new) shelf.old shelf.new }
    ensures counted { IsTakingCounted S.Shelf shelf.old shelf.new result × KeptAmong S.Shelf shelf.old shelf.new (drives_of hand.seats) }
{
    let Hand {
        identity,
        number,
        mut seats,
        next,
        mut room,
    } = hand;
    let readable = active(seats.as_slice());
    let need = need_of(key);
    claim_all(shelf, &mut seats, number);
    if let Some(share) = short(seats.as_slice(), &table.plan.lists, need) {
        return lost(share);
    }
    let mark = Mark {
        boot: number,
        count: 0,
    };
    let text = spell(&table, &mut room);
    slot_all(shelf, &mut seats, mark, text.bytes, text.body);
    if let Some(share) = short(seats.as_slice(), &table.plan.lists, need) {
        return lost(share);
    }
    let calm = active(seats.as_slice()) == readable;
    let draft = Draft {
        key: *key,
        identity,
        mark,
        table,
        seats,
        room,
    };
    match &draft.table.plan.lists {
        Lists::One(_) => opened(draft, calm),
        Lists::Two(_, _) => settle(shelf, draft, next, need, calm),
    }
}

// At least half of each list has to take what a boot writes; of a set's more than half.
fn need_of(key: &Key) -> Need
    ensures { result ≡ spec_need_of key.now }
{
    match key {
        Key::Local(_) => Need::Half,
        Key::Set(_) => Need::More,
    }
}

pub(crate) fn lost(share: Share) -> Taken
    ensures end { result.end ≡ BootEnd.Lost share.active share.listed }
    ensures calm { result.calm ≡ false }
{
    Taken {
        end: BootEnd::Lost {
            active: share.active,
            listed: share.listed,
        },
        calm: false,
    }
}

// Not more than half of a list was found: so much of it.
fn unread(share: Share) -> BootEnd
    ensures { result ≡ BootEnd.NoQuorum share.active (share.listed / 2 + 1) }
{
    BootEnd::NoQuorum {
        readable: share.active,
        needed: share.listed / 2 + 1,
    }
}

// The greatest claim or boot number that the replicas of this identity have.
fn greatest_number(replicas: &[Replica], identity: Identity) -> u64
    ensures { result ≡ spec_greatest_number identity replicas.now }
{
    let mut greatest = 0;
    for replica in replicas {
        if is_of(replica, identity) {
            greatest = greatest.max(greatest_of(&replica.head));
        }
    }
    greatest
}

// The listed places, each with the replica of this identity that lies just there, where its slots have room for a text of so many blocks.
fn seats_of(
    alloc: Global,
    places: &[Place],
    replicas: &[Replica],
    identity: Identity,
    text: usize,
) -> Result<Row<Seat>, AllocError>
    ensures { IfOk result (λ seats. seats ≡ spec_seats_of replicas.now identity text places.now) }
{
    let mut seats = Row::new(alloc);
    for place in places {
        let replica = replica_at(replicas, identity, *place, text);
        seats.push(Seat {
            place: *place,
            replica,
        })?;
    }
    Ok(seats)
}

pub(crate) fn replica_at(
    replicas: &[Replica],
    identity: Identity,
    place: Place,
    text: usize,
) -> Option<Replica>
    ensures { result ≡ find (spec_is_seated identity place text) replicas.now }
{
    replicas
        .iter()
        .copied()
        .find(|replica| is_seated(replica, identity, place, text))
}

pub(crate) fn is_of(replica: &Replica, identity: Identity) -> bool
    ensures { result ≡ spec_is_of identity replica.now }
{
    let its = replica.head.master.identity;
    its.fresh == identity.fresh && its.number == identity.number
}

fn is_seated(replica: &Replica, identity: Identity, place: Place, text: usize) -> bool
    ensures { result ≡ spec_is_seated identity place text replica.now }
{
    is_of(replica, identity)
        && is_same(place_of(replica), place)
        && text <= slot_room(replica.first.blocks)
}

pub(crate) fn is_same(one: Place, other: Place) -> bool
    ensures { result ≡ same_place one other }
{
    one == other
}

pub(crate) fn place_of(replica: &Replica) -> Place
    ensures { result ≡ spec_place_of replica.now }
{
    let master = &replica.head.master;
    Place {
        slice: master.slice,
        start: master.start,
        blocks: master.blocks,
    }
}
