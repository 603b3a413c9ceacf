// Whether a change of places, or the end, may be asked of what is open.
ghost use Rattle.std.specs.Prelude.{◌≡◌, ◌++◌, ℕ, not, All, AllPairs, IsTrue, None};
ghost use Rattle.std.specs.List.{list_any};
ghost use Rattle.mdv_name.specs.Sound.{IsSound};
ghost use Rattle.mdv_shelf.specs.MemShelf.{shelf_sizes};
ghost use Rattle.mdv_acts.specs.Wipes.{IsLaidOn};
ghost use Rattle.mdv_places.specs.Asked.{AreAskedOn, asked_of, is_on as spec_is_on, list_after, list_less, places_asked};
ghost use Rattle.mdv_places.specs.Changing.{AreFree, IsEnough, MayMove};
ghost use Rattle.mdv_places.specs.Ending.{IsSole};
ghost use Rattle.mdv_store.specs.Shares.{short_in};
ghost use Rattle.mdv_store.specs.declared.seats.Need.TheVariants.{Half};
ghost use Rattle.mdv_places_tests.specs.Few.{AreFew, IsBare, IsOnly};

use mdv_base::{Place, Places, SliceName};
use mdv_config::last_of;
use mdv_name::{Geometry, SliceLine};
use mdv_places::{Move, list_first, list_less};
use mdv_plan::{Lists, same_slice};
use mdv_shelf::{MemShelf, Shelf};
use mdv_store::{Need, Seat, Store, short};
use mdv_store_tests::may_ask;

// Whether the change may be asked of the open database on these drives.
pub(crate) fn may_move(shelf: &MemShelf, geometry: &Geometry, store: &Store, asked: &Move) -> bool
    requires { IsSound geometry.now }
    ensures { IsTrue result → MayMove (shelf_sizes shelf.now) geometry.now store.now (asked_of asked.now) }
{
    let Lists::One(places) = &store.table().plan.lists else {
        return false;
    };
    let places = places.as_slice();
    if shelf.drives() > 256 || !are_once(places) || !are_laid_on(shelf, geometry, places) {
        return false;
    }
    if !is_within(shelf, asked) || !is_free(asked, places) || !is_enough(store, asked) {
        return false;
    }
    is_few(asked, places)
}

fn are_once(places: &[Place]) -> bool
    ensures { IsTrue result → AllPairs (λ p q. p ≡ q → ⊥) places.now }
{
    for index in 0..places.len() {
        if places[..index].contains(&places[index]) {
            return false;
        }
    }
    true
}

fn are_laid_on(shelf: &MemShelf, geometry: &Geometry, places: &[Place]) -> bool
    requires { IsSound geometry.now }
    ensures { IsTrue result → All (IsLaidOn (shelf_sizes shelf.now) geometry.now) places.now }
{
    places
        .iter()
        .all(|place| is_laid_on(shelf, geometry, *place))
}

fn is_laid_on(shelf: &MemShelf, geometry: &Geometry, place: Place) -> bool
    requires { IsSound geometry.now }
    ensures { IsTrue result → IsLaidOn (shelf_sizes shelf.now) geometry.now place }
{
    let Some(at) = geometry.slice(place.slice) else {
        return false;
    };
    if at.drive.0 >= shelf.drives() || at.start >= 1 << 40 || place.blocks < 16 {
        return false;
    }
    at.start + u64::from(place.start) + u64::from(place.blocks) <= shelf.blocks(at.drive)
}

fn is_within(shelf: &MemShelf, asked: &Move) -> bool
    ensures { IsTrue result → AreAskedOn (shelf_sizes shelf.now) (asked_of asked.now) }
{
    match asked {
        Move::Add {
            lines,
            count,
            blocks,
        } => may_ask(shelf, lines, *count, *blocks),
        Move::Drop { .. } | Move::First => true,
    }
}

fn is_free(asked: &Move, places: &[Place]) -> bool
    ensures { IsTrue result → AreFree (asked_of asked.now) places.now }
{
    match asked {
        Move::Add { lines, .. } => are_bare(lines, places),
        Move::Drop { .. } | Move::First => true,
    }
}

fn are_bare(lines: &[SliceLine], places: &[Place]) -> bool
    ensures { IsTrue result → All (IsBare places.now) lines.now }
{
    lines.iter().all(|line| is_bare(line, places))
}

fn is_bare(line: &SliceLine, places: &[Place]) -> bool
    ensures { IsTrue result → IsBare places.now line.now }
{
    places.iter().all(|place| place.slice != line.name)
}

// At least half of the list that comes is active.
fn is_enough(store: &Store, asked: &Move) -> bool
    ensures { IsTrue result → IsEnough store.now (asked_of asked.now) }
{
    let places = last_of(&store.table().plan.lists);
    match asked {
        Move::Add { .. } => true,
        Move::Drop { slices } => is_half_active(store, list_less(places, slices)),
        Move::First => is_half_active(store, list_first(places)),
    }
}

fn is_half_active(store: &Store, list: Places) -> bool
    ensures { IsTrue result → short_in Half store.now.seats list ≡ None }
{
    short(store.seats(), &Lists::One(list), Need::Half).is_none()
}

fn is_few(asked: &Move, places: &[Place]) -> bool
    ensures { IsTrue result → AreFew (list_after (asked_of asked.now) places.now) }
{
    match asked {
        Move::Add { lines, count, .. } => has_room_for(places, lines, *count),
        Move::Drop { slices } => leaves_some(places, slices),
        Move::First => 1 <= places.len(),
    }
}

fn has_room_for(places: &[Place], lines: &[SliceLine], count: u8) -> bool
    ensures { IsTrue result → (blocks : ℕ) → AreFew (places.now ++ places_asked lines.now count blocks) }
{
    if places.is_empty() || places.len() > 50 || lines.len() > 50 {
        return false;
    }
    places.len() + lines.len() * usize::from(count) <= 50
}

fn leaves_some(places: &[Place], slices: &[SliceName]) -> bool
    ensures { IsTrue result → AreFew (list_less slices.now places.now) }
{
    if places.len() > 50 {
        return false;
    }
    has_one_left(places, slices)
}

fn has_one_left(places: &[Place], slices: &[SliceName]) -> bool
    ensures { result ≡ list_any (λ p. not (spec_is_on slices.now p)) places.now }
{
    places.iter().any(|place| !is_on(slices, place))
}

fn is_on(slices: &[SliceName], place: &Place) -> bool
    ensures { result ≡ spec_is_on slices.now place.now }
{
    slices.iter().any(|slice| same_slice(place.slice, *slice))
}

// Whether its only place is active.
pub(crate) fn may_end(store: &Store) -> bool
    ensures { IsTrue result → IsSole store.now }
{
    match &store.table().plan.lists {
        Lists::One(places) => is_sole(places.as_slice(), store.seats()),
        Lists::Two(_, _) => false,
    }
}

fn is_sole(places: &[Place], seats: &[Seat]) -> bool
    ensures { IsTrue result → IsOnly places.now seats.now }
{
    match (places, seats) {
        ([place], [seat]) => *place == seat.place && seat.replica.is_some(),
        _ => false,
    }
}
