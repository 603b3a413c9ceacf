ghost use Rattle.std.specs.Prelude.{◌≡◌, ◌≤◌, length};
ghost use Rattle.mdv_config.specs.Lists.{places_of, first_of as spec_first_of, last_of as spec_last_of};

use crate::each::EachPlace;
use mdv_base::{Place, Places};
use mdv_plan::Lists;

/// The places of the list that was, where places change, and else of the one list, in order.
pub fn first_of(lists: &Lists) -> &[Place]
    ensures value { result.now ≡ spec_first_of lists.now }
    ensures few { length result.now ≤ 50 }
{
    match lists {
        Lists::One(places) => all_of(places),
        Lists::Two(old, _) => all_of(old),
    }
}

/// The places of the list that comes, where places change, and else of the one list, in order.
pub fn last_of(lists: &Lists) -> &[Place]
    ensures value { result.now ≡ spec_last_of lists.now }
    ensures few { length result.now ≤ 50 }
{
    match lists {
        Lists::One(places) => all_of(places),
        Lists::Two(_, new) => all_of(new),
    }
}

/// Each listed place once: the first list, and what the other one has beside it.
pub fn each_of(lists: &Lists) -> EachPlace
    ensures value { result ≡ places_of lists.now }
    ensures few { length result ≤ 100 }
{
    let mut each = EachPlace::of(first_of(lists));
    if let Lists::Two(old, new) = lists {
        each.add_beside(all_of(old), all_of(new));
    }
    each
}

// The places, and that they are few.
pub(crate) fn all_of(places: &Places) -> &[Place]
    ensures value { result.now ≡ places.now }
    ensures few { length result.now ≤ 50 }
{
    let _few = places.is_full();
    places.as_slice()
}

pub(crate) fn copy_of(places: &Places) -> Places
    ensures { result ≡ places.now }
{
    let mut copy = Places::new();
    for place in all_of(places) {
        copy.push(*place);
    }
    copy
}
