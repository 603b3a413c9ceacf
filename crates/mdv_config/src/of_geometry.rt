// Which tables are of a geometry: what a record may say beside the drives that there are.
ghost use Rattle.std.specs.Prelude.{◌≡◌, ◌↔◌, IsTrue, All, AllPairs};
ghost use Rattle.mdv_base.specs.declared.place.Place.{Place};
ghost use Rattle.mdv_config.specs.Below.{no_set, One as OneList, Two as TwoLists, are_spaced as spec_are_spaced};
ghost use Rattle.mdv_config.specs.Lists.{component_slices};
ghost use Rattle.mdv_config.specs.Slices.{IsSound};
ghost use Rattle.mdv_config.specs.Table.{IsOfGeometry, IsListsOf, IsPlacesOf, IsPlaceOf, IsPlaceIn, IsKindOf, IsApart, IsLocal};

use crate::each::is_among;
use crate::lists::{all_of, copy_of, each_of};
use crate::rows::is_stripe_of;
use crate::status::is_quiet;
use crate::uses::Uses;
use mdv_base::{Place, Places};
use mdv_fields::are_spaced;
use mdv_name::{Geometry, SliceAt};
use mdv_plan::{Lists, Plan, SetData, Table, Volume, VolumeKind, meets_db};

// How many blocks a replica has at least and at most.
const LEAST_REPLICA: u32 = 16;

const MOST_REPLICA: u32 = 8192;

/// Whether the table may be one of a database on these drives: its replicas lie where replicas may,
/// each volume is one that a command could have made, with no block in use twice, and nothing ever
/// failed. No memory is taken, and the work is linear in the components.
pub fn is_of_geometry(table: &Table, geometry: &Geometry) -> bool
    requires { IsSound geometry.now }
    ensures { IsTrue result ↔ IsOfGeometry geometry.now table.now }
{
    let lists = &table.plan.lists;
    let volumes = table.plan.volumes.as_slice();
    are_lists_of(geometry, lists)
        && is_local(&table.plan)
        && are_volumes_of(geometry, volumes)
        && are_apart(geometry, each_of(lists).as_slice(), volumes)
        && is_quiet(table)
}

fn is_local(plan: &Plan) -> bool
    ensures { IsTrue result ↔ IsLocal plan.now }
{
    is_no_set(&plan.set) && plan.pending.as_slice().is_empty() && plan.pools.as_slice().is_empty()
}

fn is_no_set(set: &SetData) -> bool
    ensures { IsTrue result ↔ (set.now ≡ no_set) }
{
    set.owner.is_none()
        && set.hosts.as_slice().is_empty()
        && set.drives.as_slice().is_empty()
        && set.mediators.as_slice().is_empty()
}

fn are_lists_of(geometry: &Geometry, lists: &Lists) -> bool
    requires { IsSound geometry.now }
    ensures { IsTrue result ↔ IsListsOf geometry.now lists.now }
{
    match lists {
        Lists::One(places) => are_places_of(geometry, places),
        Lists::Two(old, new) => {
            are_places_of(geometry, old)
                && are_places_of(geometry, new)
                && are_both_in_step(old, new)
        }
    }
}

fn are_places_of(geometry: &Geometry, places: &Places) -> bool
    requires { IsSound geometry.now }
    ensures { IsTrue result ↔ IsPlacesOf geometry.now places.now }
{
    let all = all_of(places);
    !all.is_empty()
        && are_in_step(places)
        && do_differ(all)
        && all.iter().all(|place| is_place_of(geometry, place))
}

// Whether no place stands there twice.
fn do_differ(places: &[Place]) -> bool
    ensures { IsTrue result ↔ AllPairs (λ (p q : Place). p ≡ q → ⊥) places.now }
{
    for index in 0..places.len() {
        if is_among(&places[index], &places[..index]) {
            return false;
        }
    }
    true
}

// Whether all places of a slice have one number b of blocks and start at 16 + k * b.
fn are_in_step(places: &Places) -> bool
    ensures { result ≡ spec_are_spaced (OneList places.now) }
{
    are_spaced(&Lists::One(copy_of(places)))
}

// The same of two lists, all places of a slice in both.
fn are_both_in_step(old: &Places, new: &Places) -> bool
    ensures { result ≡ spec_are_spaced (TwoLists old.now new.now) }
{
    are_spaced(&Lists::Two(copy_of(old), copy_of(new)))
}

fn is_place_of(geometry: &Geometry, place: &Place) -> bool
    requires { IsSound geometry.now }
    ensures { IsTrue result ↔ IsPlaceOf geometry.now place.now }
{
    match geometry.slices.find(place.slice) {
        Some(at) => is_place_in(at, place) && !meets_db(geometry, place.slice),
        None => false,
    }
}

fn is_place_in(at: SliceAt, place: &Place) -> bool
    ensures { IsTrue result ↔ IsPlaceIn at place.now }
{
    at.db
        && LEAST_REPLICA <= place.blocks
        && place.blocks <= MOST_REPLICA
        && u64::from(place.start) + u64::from(place.blocks) <= at.blocks
}

fn are_volumes_of(geometry: &Geometry, volumes: &[Volume]) -> bool
    requires { IsSound geometry.now }
    ensures { IsTrue result ↔ All (λ v. IsKindOf geometry.now v.kind) volumes.now }
{
    volumes.iter().all(|volume| is_volume_of(geometry, volume))
}

fn is_volume_of(geometry: &Geometry, volume: &Volume) -> bool
    requires { IsSound geometry.now }
    ensures { IsTrue result ↔ IsKindOf geometry.now volume.now.kind }
{
    match &volume.kind {
        VolumeKind::Stripe(stripe) => is_stripe_of(geometry, stripe),
        _ => false,
    }
}

// Whether no two uses overlap.
fn are_apart(geometry: &Geometry, places: &[Place], volumes: &[Volume]) -> bool
    requires { IsSound geometry.now }
    ensures { IsTrue result ↔ IsApart geometry.now places.now (component_slices volumes.now) }
{
    let mut uses = Uses::new();
    uses.mark_places(geometry, places);
    for volume in volumes {
        let free = uses.take_volume(geometry, &volume.kind);
        if !free {
            return false;
        }
    }
    true
}
