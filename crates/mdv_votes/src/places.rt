//! What is known of each place.

ghost use Rattle.std.specs.Prelude.{◌≡◌, OnOk, OnErr, map, length, IsTrue};
ghost use Rattle.mdv_votes.specs.Spots.{is_in as spec_is_in};
ghost use Rattle.mdv_votes.specs.Family.{place_at as spec_place_at, blank_place as spec_blank_place, replaced_at, index_at, changed_at, wiped as spec_wiped, formatted as spec_formatted, put_at, with_claim, with_newest, with_since, since_after as spec_since_after, raised as spec_raised};

use crate::spots::{is_in, same_spot};
use crate::{Row, Since, Spot, SpotState};
use std::alloc::AllocError;

fn blank_place(spot: Spot) -> SpotState
    ensures { result ≡ spec_blank_place spot }
{
    SpotState {
        spot,
        holds: false,
        claim: 0,
        newest: None,
        since: Since::Never,
        floor: 0,
    }
}

/// What is known of a place; nothing, where it was never told of.
pub fn place_at(places: &[SpotState], p: Spot) -> SpotState
    ensures { result ≡ spec_place_at places.now p }
{
    for place in places {
        if same_spot(place.spot, p) {
            return *place;
        }
    }
    blank_place(p)
}

/// Where the place stands in the list, or the list's length.
fn index_of(places: &[SpotState], p: Spot) -> usize
    ensures { result ≡ index_at places.now p }
{
    let mut index = 0;
    for place in places {
        if same_spot(place.spot, p) {
            return index;
        }
        index += 1;
    }
    index
}

/// Puts a place in for the one that is known of this spot, or at the end of the list.
fn put(places: &mut Row<SpotState>, p: Spot, place: SpotState) -> Result<(), AllocError>
    ensures ok { OnOk result (places.new ≡ replaced_at places.old p place) }
    ensures err { OnErr result (places.new ≡ places.old) }
{
    let index = index_of(places.as_slice(), p);
    if index < places.as_slice().len() {
        places.set(index, place);
        Ok(())
    } else {
        places.push(place)
    }
}

/// The same for a place that is known.
fn change(places: &mut Row<SpotState>, p: Spot, place: SpotState)
    requires { IsTrue (spec_place_at places.old p).holds }
    ensures { places.new ≡ replaced_at places.old p place }
{
    let index = index_of(places.as_slice(), p);
    places.set(index, place);
}

/// A place is claimed. It is known, so this takes no memory.
pub fn set_claim(places: &mut Row<SpotState>, p: Spot, claim: u64)
    requires { IsTrue (spec_place_at places.old p).holds }
    ensures { places.new ≡ put_at places.old p (with_claim claim) }
{
    let place = place_at(places.as_slice(), p);
    change(places, p, SpotState { claim, ..place });
}

/// A place took the table of this number. It is known, so this takes no memory.
pub fn set_newest(places: &mut Row<SpotState>, p: Spot, number: usize)
    requires { IsTrue (spec_place_at places.old p).holds }
    ensures { places.new ≡ put_at places.old p (with_newest number) }
{
    let place = place_at(places.as_slice(), p);
    let newest = Some(number);
    change(places, p, SpotState { newest, ..place });
}

/// The floor of a place once it is formatted.
fn raised(floor: usize, since: Since) -> usize
    ensures { result ≡ spec_raised floor since }
{
    match since {
        Since::Dropped(table) => floor.max(table),
        Since::Never => floor,
        Since::Listed => floor,
    }
}

/// A place is formatted with this claim, a seat also with the mark of a table. Memory is taken only
/// for a place that is new to the list.
pub fn format_spot(
    places: &mut Row<SpotState>,
    p: Spot,
    claim: u64,
    newest: Option<usize>,
) -> Result<(), AllocError>
    ensures ok { OnOk result (places.new ≡ put_at places.old p (spec_formatted claim newest)) }
    ensures err { OnErr result (places.new ≡ places.old) }
{
    let place = place_at(places.as_slice(), p);
    let formatted = SpotState {
        spot: place.spot,
        holds: true,
        claim,
        newest,
        since: place.since,
        floor: raised(place.floor, place.since),
    };
    put(places, p, formatted)
}

fn wiped(p: Spot, place: SpotState) -> SpotState
    ensures { result ≡ changed_at p spec_wiped place }
{
    if same_spot(place.spot, p) {
        SpotState {
            holds: false,
            ..place
        }
    } else {
        place
    }
}

/// A place is blanked. Its claim and its newest table stay known.
pub fn wipe_spot(places: &mut Row<SpotState>, p: Spot)
    ensures { places.new ≡ map (changed_at p spec_wiped) places.old }
{
    for i in 0..places.as_slice().len() {
        let place = places.as_slice()[i];
        places.set(i, wiped(p, place));
    }
}

fn since_after(table: usize, listed: bool, since: Since) -> Since
    ensures { result ≡ spec_since_after table listed since }
{
    if listed {
        return Since::Listed;
    }
    match since {
        Since::Never => Since::Never,
        Since::Listed => Since::Dropped(table),
        Since::Dropped(first) => Since::Dropped(first),
    }
}

fn settled(table: usize, list: &[Spot], place: SpotState) -> SpotState
    ensures { result ≡ with_since table list.now place }
{
    SpotState {
        since: since_after(table, is_in(list, place.spot), place.since),
        ..place
    }
}

/// A table is firm whose last list this is.
pub fn note_list(places: &mut Row<SpotState>, table: usize, list: &[Spot])
    ensures { places.new ≡ map (with_since table list.now) places.old }
{
    for i in 0..places.as_slice().len() {
        let place = places.as_slice()[i];
        places.set(i, settled(table, list, place));
    }
}
