// How the masters of dropped places are blanked.
ghost use Rattle.std.specs.Prelude.{◌≡◌, ◌<◌, ◌≤◌, ◌+◌, ◌^◌, length};
ghost use Rattle.mdv_name.specs.SliceIndex.{HasSlice};
ghost use Rattle.mdv_name.specs.declared.slice_lines.SliceAt.{SliceAt};
ghost use Rattle.mdv_acts.specs.Wipes.{AreLaidOn, IsFoundAt, IsLaidOn, IsWipedAt, WereWiped, in_front as spec_in_front, wipe_order as spec_wipe_order};

use crate::clearing::blank;
use mdv_base::{DriveSet, Failed, Place, Places};
use mdv_name::Geometry;
use mdv_plan::same_slice;
use mdv_replica::PlaceAt;
use mdv_shelf::Shelf;

/// The order in which dropped places are wiped: slice after slice, in the order in which the list comes to them, and of each slice the last place first.
pub fn wipe_order(places: &[Place]) -> Places
    requires { length places.now ≤ 50 }
    ensures { result ≡ spec_wipe_order places.now }
{
    let mut ordered = Places::new();
    for place in places {
        ordered = in_front(ordered.as_slice(), *place);
    }
    ordered
}

// With the place in front of the first one of its slice, or behind all.
fn in_front(ordered: &[Place], place: Place) -> Places
    requires { length ordered.now < 50 }
    ensures { result ≡ spec_in_front place ordered.now }
{
    let mut next = Places::new();
    let mut is_in = false;
    for other in ordered {
        if !is_in && same_slice(other.slice, place.slice) {
            next.push(place);
            is_in = true;
        }
        next.push(*other);
    }
    if !is_in {
        next.push(place);
    }
    next
}

/// Blanks the masters of these places in their order, and syncs each, whatever came of those before. A place on a drive on which a call has failed is passed
/// over: `lost` has those drives, and behind this call also the ones on which one failed in it. Tells whether all masters were blanked.
pub fn wipe_each<S: Shelf>(
    shelf: &mut S,
    geometry: &Geometry,
    places: &[Place],
    lost: &mut DriveSet,
) -> bool
    requires few { length (S.sizes shelf.old) ≤ 256 }
    requires laid { AreLaidOn (S.sizes shelf.old) geometry.now places.now }
    ensures { WereWiped S.Shelf geometry.now shelf.old shelf.new places.now lost.old lost.new result }
{
    let mut clean = true;
    for dropped in places {
        let wiped = wipe_place(shelf, geometry, *dropped, lost);
        clean = clean && wiped;
    }
    clean
}

// Whether its master was blanked.
fn wipe_place<S: Shelf>(
    shelf: &mut S,
    geometry: &Geometry,
    place: Place,
    lost: &mut DriveSet,
) -> bool
    requires few { length (S.sizes shelf.old) ≤ 256 }
    requires laid { IsLaidOn (S.sizes shelf.old) geometry.now place }
    ensures { IsWipedAt S.Shelf geometry.now shelf.old shelf.new place lost.old lost.new result }
{
    let at = place_in(geometry, place);
    if lost.contains(at.drive) {
        return false;
    }
    match blank(shelf, at) {
        Ok(()) => true,
        Err(Failed) => {
            lost.insert(at.drive);
            false
        }
    }
}

// Where the place lies. Its number on the slice, and how many lie there, are no matter to a wipe.
fn place_in(geometry: &Geometry, place: Place) -> PlaceAt
    requires listed { (at : SliceAt) × HasSlice geometry.now.slices place.slice at }
    requires short { (at : SliceAt) → HasSlice geometry.now.slices place.slice at → at.start + place.start < 2 ^ 64 }
    ensures { IsFoundAt geometry.now place result }
{
    let at = geometry.slice(place.slice).unwrap();
    PlaceAt {
        place,
        drive: at.drive,
        first: at.start + u64::from(place.start),
        index: 0,
        count: 1,
    }
}
