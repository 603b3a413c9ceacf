// The nine letters of the listed places: what a boot's look found there, or a creation made, and what came since.
ghost use Rattle.std.specs.Prelude.{◌≡◌, ◌<◌, ◌↔◌, [], length, IfOk, IsTrue};
ghost use Rattle.std.specs.List.{find, list_any};
ghost use Rattle.mdv_survey.specs.Survey.{IsSurvey};
ghost use Rattle.mdv_store.specs.Letters.{AreLettersOf, AreRead, flags_at as spec_flags_at, is_lettered_at, is_seat_at, is_under as spec_is_under, letters_made, letters_now as spec_letters_now, made_flags as spec_made_flags, places_seen, seen_at as spec_seen_at, shows_at as spec_shows_at};

use crate::booting::{is_of, is_same, place_of, replica_at};
use crate::seats::Seat;
use crate::text::blocks_for;
use mdv_base::{Flags, Identity, Mark, Place};
use mdv_config::last_of;
use mdv_encoding::text_bytes;
use mdv_look::Looked;
use mdv_replica::Gate;
use mdv_shown::Site;
use mdv_survey::{Newest, Replica, letters};
use mdv_votes::Row;
use std::alloc::{AllocError, Global};
use std::marker::Model;

/// What was seen of a place.
#[derive(Clone, Copy)]
pub struct Lettered {
    pub place: Place,
    pub flags: Flags,
}

/// What was seen of each listed place as its database was opened, in the order of the list: at a boot what its look found, with `active` where
/// the place had a replica to write to, and at a creation that the place was formatted. `Store::flags` tells by it how a place is now.
#[derive(Drop)]
pub struct Letters {
    seen: Row<Lettered>,
}

impl Model for Letters {
    ghost use Rattle.std.specs.Prelude.{List};
    ghost use Rattle.mdv_store.specs.declared.letters.Lettered.{Lettered};

    ghost Value = { List Lettered };

    ghost view = { λ l. l.seen };
}

impl Letters {
    /// Those of no place.
    pub fn none(alloc: Global) -> Letters
        ensures { result ≡ [] }
    {
        Letters {
            seen: Row::new(alloc),
        }
    }

    pub(crate) fn as_slice(&self) -> &[Lettered]
        ensures { result.now ≡ self.now }
    {
        self.seen.as_slice()
    }

    /// Those behind a creation that formatted these places. They are to be made before `create`: where memory is refused behind it, the database is made
    /// all the same.
    pub fn made(alloc: Global, places: &[Place]) -> Result<Letters, AllocError>
        ensures are { IfOk result (λ letters. letters ≡ letters_made places.now) }
        ensures of { IfOk result (λ letters. places_seen letters ≡ places.now) }
    {
        let mut seen = Row::new(alloc);
        let mut was = false;
        for place in places {
            seen.push(Lettered {
                place: *place,
                flags: made_flags(was),
            })?;
            was = true;
        }
        Ok(Letters { seen })
    }

    /// Whether these are letters of just the places of this list, in its order.
    pub fn are_of(&self, places: &[Place]) -> bool
        ensures { IsTrue result ↔ (places_seen self.now ≡ places.now) }
    {
        let seen = self.seen.as_slice();
        if seen.len() != places.len() {
            return false;
        }
        for index in 0..seen.len() {
            if !is_same(seen[index].place, places[index]) {
                return false;
            }
        }
        true
    }
}

// Of a place that was just formatted; whether one before it was the master.
fn made_flags(was: bool) -> Flags
    ensures { result ≡ spec_made_flags was }
{
    Flags {
        active: true,
        master: !was,
        located: true,
        ..Flags::default()
    }
}

/// The letters of the places that the newest table lists, of its new list where it has two, as the look found them. There are none where no table was found.
pub(crate) fn letters_of(alloc: Global, site: &Site, looked: &Looked) -> Result<Letters, AllocError>
    requires { IsSurvey site.now looked.now.calm looked.now.survey }
    ensures { IfOk result (AreLettersOf site.now looked.now.survey looked.now.calm) }
{
    match &looked.survey.newest {
        Some(newest) => letters_read(alloc, site, looked, newest),
        None => Ok(Letters::none(alloc)),
    }
}

// Whose replicas are looked for: those of this identity, the newest of which shows a table under this mark whose text takes so many blocks.
#[derive(Clone, Copy)]
struct Sought {
    identity: Identity,
    mark: Mark,
    text: usize,
}

fn letters_read(
    alloc: Global,
    site: &Site,
    looked: &Looked,
    newest: &Newest,
) -> Result<Letters, AllocError>
    requires { newest.now.replica < length looked.now.survey.replicas }
    ensures { IfOk result (AreRead site.now looked.now.survey looked.now.calm newest.now) }
{
    let replicas = looked.survey.replicas.as_slice();
    let sought = Sought {
        identity: replicas[newest.replica].head.master.identity,
        mark: newest.mark,
        text: blocks_for(text_bytes(&newest.table)),
    };
    let mut seen = Row::new(alloc);
    let mut was = false;
    for place in last_of(&newest.table.plan.lists) {
        let flags = seen_at(site, looked, sought, *place, was);
        seen.push(Lettered {
            place: *place,
            flags,
        })?;
        was = was || flags.master;
    }
    Ok(Letters { seen })
}

// What was seen of a place. It isn't the master where one before it was.
fn seen_at(site: &Site, looked: &Looked, sought: Sought, place: Place, was: bool) -> Flags
    ensures { result ≡ spec_seen_at site.now looked.now.survey looked.now.calm sought.identity sought.mark sought.text was place }
{
    let Sought {
        identity,
        mark,
        text,
    } = sought;
    let replicas = looked.survey.replicas.as_slice();
    let others = looked.survey.others.as_slice();
    let flags = letters(site, replicas, others, &looked.calm, &place);
    let newest = is_newest(replicas, identity, mark, place);
    Flags {
        active: replica_at(replicas, identity, place, text).is_some(),
        master: newest && !was,
        ..flags
    }
}

/// A listed place's letters now: those of its seat, beside what was seen of it; none where no seat has the place.
pub(crate) fn flags_at(seats: &[Seat], seen: &[Lettered], place: Place) -> Option<Flags>
    ensures { result ≡ spec_flags_at seats.now seen.now place }
{
    let seat = seat_at(seats, place)?;
    let lettered = lettered_at(seen, place)?;
    Some(letters_now(&seat, lettered.flags))
}

fn seat_at(seats: &[Seat], place: Place) -> Option<Seat>
    ensures { result ≡ find (is_seat_at place) seats.now }
{
    seats
        .iter()
        .copied()
        .find(|seat| is_same(seat.place, place))
}

fn lettered_at(seen: &[Lettered], place: Place) -> Option<Lettered>
    ensures { result ≡ find (is_lettered_at place) seen.now }
{
    seen.iter()
        .copied()
        .find(|lettered| is_same(lettered.place, place))
}

fn letters_now(seat: &Seat, was: Flags) -> Flags
    ensures { result ≡ spec_letters_now seat.now was }
{
    let active = seat.replica.is_some();
    Flags {
        active,
        updated: active,
        write_error: was.active && !active,
        ..was
    }
}

// Whether a replica of the database lies just there, and shows the newest table.
fn is_newest(replicas: &[Replica], identity: Identity, mark: Mark, place: Place) -> bool
    ensures { result ≡ list_any (spec_shows_at identity mark place) replicas.now }
{
    replicas
        .iter()
        .any(|replica| shows_at(replica, identity, mark, place))
}

fn shows_at(replica: &Replica, identity: Identity, mark: Mark, place: Place) -> bool
    ensures { result ≡ spec_shows_at identity mark place replica.now }
{
    let head = &replica.head;
    is_of(replica, identity)
        && is_same(place_of(replica), place)
        && (is_under(head.first, mark) || is_under(head.second, mark))
}

fn is_under(gate: Gate, mark: Mark) -> bool
    ensures { result ≡ spec_is_under mark gate }
{
    match gate {
        Gate::Closed => false,
        Gate::Open {
            mark: own,
            bytes: _,
        } => own.boot == mark.boot && own.count == mark.count,
    }
}
