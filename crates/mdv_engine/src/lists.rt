// The list of an open database's places, and the lists that may come of it.
ghost use Rattle.std.specs.Prelude.{◌≡◌, ◌≤◌, ◌+◌, ◌*◌, length};
ghost use Rattle.mdv_engine_law.specs.Places.{list_left as spec_list_left, list_more as spec_list_more, list_of as spec_list_of};

use mdv_base::{Place, Places, SliceName};
use mdv_config::last_of;
use mdv_places::{add_places, copy_of, list_first, list_less};
use mdv_store::Store;

pub(crate) fn list_of(store: &Store) -> &[Place]
    ensures value { result.now ≡ spec_list_of store.now }
    ensures few { length result.now ≤ 50 }
{
    last_of(&store.table().plan.lists)
}

// So many places more on each of these slices, behind the others.
pub(crate) fn list_more(places: &[Place], slices: &[SliceName], count: u8, blocks: u32) -> Places
    requires few { length places.now + length slices.now * count ≤ 50 }
    requires count { count ≤ 50 }
    requires blocks { blocks ≤ 8192 }
    ensures { result ≡ spec_list_more slices.now count blocks places.now }
{
    let mut list = copy_of(places);
    for slice in slices {
        add_places(&mut list, *slice, count, blocks);
    }
    list
}

// Those that don't lie on these slices; the first one alone, where all do.
pub(crate) fn list_left(places: &[Place], slices: &[SliceName]) -> Places
    requires { length places.now ≤ 50 }
    ensures { result ≡ spec_list_left slices.now places.now }
{
    let list = list_less(places, slices);
    if list.as_slice().is_empty() {
        list_first(places)
    } else {
        list
    }
}
