// What is asked of the places of an open database, and the list that comes then.
ghost use Rattle.std.specs.Prelude.{◌≡◌, ◌<◌, ◌≤◌, ◌+◌, ◌*◌, ◌^◌, ◌++◌, flat_map, length, take};
ghost use Rattle.std.specs.List.{list_any};
ghost use Rattle.mdv_config.specs.Lists.{beside, same_place};
ghost use Rattle.mdv_places.specs.Asked.{IsShort, asked_of, is_on as spec_is_on, list_after as spec_list_after, list_less as spec_list_less, places_on};

use mdv_base::{Place, Places, SliceName};
use mdv_name::SliceLine;
use mdv_plan::same_slice;

/// What is asked of the places of an open database.
#[derive(Clone, Copy)]
pub enum Move<'a> {
    /// So many places more on each of these slices, each of so many blocks, one behind another from block 16 on.
    Add {
        lines: &'a [SliceLine],
        count: u8,
        blocks: u32,
    },
    /// None any more on these slices.
    Drop {
        slices: &'a [SliceName],
    },
    /// The first place alone.
    First,
}

// The list that comes.
pub(crate) fn list_after(places: &[Place], asked: &Move) -> Places
    requires old { length places.now ≤ 50 }
    requires few { length (spec_list_after (asked_of asked.now) places.now) ≤ 50 }
    requires short { IsShort (asked_of asked.now) }
    ensures { result ≡ spec_list_after (asked_of asked.now) places.now }
{
    match asked {
        Move::Add {
            lines,
            count,
            blocks,
        } => list_more(places, lines, *count, *blocks),
        Move::Drop { slices } => list_less(places, slices),
        Move::First => list_first(places),
    }
}

/// The same places once more.
pub fn copy_of(places: &[Place]) -> Places
    requires { length places.now ≤ 50 }
    ensures { result ≡ places.now }
{
    let mut copy = Places::new();
    for place in places {
        copy.push(*place);
    }
    copy
}

fn list_more(places: &[Place], lines: &[SliceLine], count: u8, blocks: u32) -> Places
    requires few { length (places.now ++ flat_map (λ (line : SliceLine). places_on count blocks line.name) lines.now) ≤ 50 }
    requires count { count ≤ 50 }
    requires blocks { blocks ≤ 8192 }
    ensures { result ≡ places.now ++ flat_map (λ (line : SliceLine). places_on count blocks line.name) lines.now }
{
    let mut list = copy_of(places);
    for line in lines {
        add_places(&mut list, line.name, count, blocks);
    }
    list
}

/// So many places of a slice behind the others.
pub fn add_places(list: &mut Places, slice: SliceName, count: u8, blocks: u32)
    requires few { length (list.old ++ places_on count blocks slice) ≤ 50 }
    requires count { count ≤ 50 }
    requires blocks { blocks ≤ 8192 }
    ensures { list.new ≡ list.old ++ places_on count blocks slice }
{
    for number in 0..count {
        list.push(place_on(slice, blocks, number));
    }
}

fn place_on(slice: SliceName, blocks: u32, number: u8) -> Place
    requires { 16 + number * blocks < 2 ^ 32 }
    ensures { result ≡ record { slice = slice; start = 16 + number * blocks; blocks = blocks } }
{
    Place {
        slice,
        start: 16 + u32::from(number) * blocks,
        blocks,
    }
}

/// Those that don't lie on these slices.
pub fn list_less(places: &[Place], slices: &[SliceName]) -> Places
    requires { length places.now ≤ 50 }
    ensures { result ≡ spec_list_less slices.now places.now }
{
    let mut list = Places::new();
    for place in places {
        if !is_on(slices, place) {
            list.push(*place);
        }
    }
    list
}

fn is_on(slices: &[SliceName], place: &Place) -> bool
    ensures { result ≡ spec_is_on slices.now place.now }
{
    slices.iter().any(|slice| same_slice(place.slice, *slice))
}

/// The first one alone, where there is one.
pub fn list_first(places: &[Place]) -> Places
    ensures { result ≡ take 1 places.now }
{
    let mut list = Places::new();
    if let Some(place) = places.first() {
        list.push(*place);
    }
    list
}

// Those of the one list that the other lacks.
pub(crate) fn list_beside(other: &[Place], places: &[Place]) -> Places
    requires { length places.now ≤ 50 }
    ensures { result ≡ beside other.now places.now }
{
    let mut list = Places::new();
    for place in places {
        if !has_place(other, place) {
            list.push(*place);
        }
    }
    list
}

pub(crate) fn has_place(places: &[Place], place: &Place) -> bool
    ensures { result ≡ list_any (same_place place.now) places.now }
{
    places.iter().any(|other| *place == *other)
}
