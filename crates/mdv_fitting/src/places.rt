//! Where the replicas of a table lie.
ghost use Rattle.std.specs.Prelude.{◌≡◌};
ghost use Rattle.std.specs.List.{list_all};
ghost use Rattle.mdv_fitting.specs.Below.{IsSound};
ghost use Rattle.mdv_fitting.specs.Places.{lies_at as spec_lies_at, is_placed as spec_is_placed, are_placed as spec_are_placed};

use mdv_base::{Place, Places};
use mdv_name::{Geometry, SliceAt};
use mdv_plan::{Lists, meets_db, slice_at};

const LEAST_BLOCKS: u32 = 16;

const MOST_BLOCKS: u32 = 8192;

fn lies_at(place: &Place, at: Option<SliceAt>) -> bool
    ensures { result ≡ spec_lies_at place.now at }
{
    match at {
        Some(at) => at.db && u64::from(place.start) + u64::from(place.blocks) <= at.blocks,
        None => false,
    }
}

fn is_placed(geometry: &Geometry, place: &Place) -> bool
    requires { IsSound geometry.now }
    ensures { result ≡ spec_is_placed geometry.now place.now }
{
    if place.blocks < LEAST_BLOCKS || MOST_BLOCKS < place.blocks {
        return false;
    }
    lies_at(place, slice_at(geometry, place.slice)) && !meets_db(geometry, place.slice)
}

fn all_placed(geometry: &Geometry, places: &Places) -> bool
    requires { IsSound geometry.now }
    ensures { result ≡ list_all (spec_is_placed geometry.now) places.now }
{
    places
        .as_slice()
        .iter()
        .all(|place| is_placed(geometry, place))
}

/// Whether each replica has 16 to 8192 blocks within a slice that is set aside for replicas, and that no other such slice
/// overlaps.
pub(crate) fn are_placed(geometry: &Geometry, lists: &Lists) -> bool
    requires { IsSound geometry.now }
    ensures { result ≡ spec_are_placed geometry.now lists.now }
{
    match lists {
        Lists::One(places) => all_placed(geometry, places),
        Lists::Two(from, to) => all_placed(geometry, from) && all_placed(geometry, to),
    }
}
