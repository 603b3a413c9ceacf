ghost use Rattle.std.specs.Prelude.{◌≡◌, ◌≤◌, ◌++◌, length, IfOk, OnOk};
ghost use Rattle.std.specs.List.{filter_map};
ghost use Rattle.mdv_tab.specs.Index.{IsIndexOf, number_of};
ghost use Rattle.mdv_tab.specs.Need.{IsPlaceOf, ArePlacesOf};
ghost use Rattle.mdv_tab.specs.Order.{IsOrderOfNeed, volumes_of, volumes_of_rows, submirror_names, pool_names, stands_on as spec_stands_on};

use crate::entry::{Entry, Row};
use crate::graph::{Graph, Place, users_of};
use crate::index::{Index, index_of, made_by, set_of_entry};
use crate::making::order_of;
use mdv_base::{Name, Named, PoolId, VolId};
use mdv_parts::Component;
use std::alloc::{AllocError, Global};

fn add_volumes(names: &mut Vec<Named>, components: &[Component]) -> Result<(), AllocError>
    ensures { OnOk result (names.new.items ≡ names.old.items ++ volumes_of components.now) }
{
    for component in components {
        if let Component::Volume(volume) = component {
            names.push(Named::Volume(*volume))?;
        }
    }
    Ok(())
}

fn add_rows(names: &mut Vec<Named>, rows: &[Row]) -> Result<(), AllocError>
    ensures { OnOk result (names.new.items ≡ names.old.items ++ volumes_of_rows rows.now) }
{
    for row in rows {
        add_volumes(names, row.components.as_slice())?;
    }
    Ok(())
}

fn add_submirrors(names: &mut Vec<Named>, submirrors: &[VolId]) -> Result<(), AllocError>
    ensures { OnOk result (names.new.items ≡ names.old.items ++ submirror_names submirrors.now) }
{
    for volume in submirrors {
        names.push(Named::Volume(*volume))?;
    }
    Ok(())
}

fn add_pool(names: &mut Vec<Named>, pool: Option<PoolId>) -> Result<(), AllocError>
    ensures { OnOk result (names.new.items ≡ names.old.items ++ pool_names pool) }
{
    if let Some(pool) = pool {
        names.push(Named::Pool(pool))?;
    }
    Ok(())
}

// The volumes and the pools that the entry is to stand on.
fn stands_on(alloc: Global, entry: &Entry) -> Result<Vec<Named>, AllocError>
    ensures { IfOk result (λ v. v.items ≡ spec_stands_on entry.now) }
{
    let mut names = Vec::new(alloc);
    match entry {
        Entry::Stripe { rows, spares, .. } => {
            add_rows(&mut names, rows.as_slice())?;
            add_pool(&mut names, *spares)?;
        }
        Entry::Mirror { submirrors, .. } => add_submirrors(&mut names, submirrors.as_slice())?,
        Entry::Raid {
            columns,
            options,
            ..
        } => {
            add_volumes(&mut names, columns.as_slice())?;
            add_pool(&mut names, options.spares)?;
        }
        Entry::Soft { base, .. } => add_volumes(&mut names, &[*base])?,
        Entry::Pool { .. } | Entry::Replicas { .. } => {}
    }
    Ok(names)
}

// The numbers of the names that entries make, among those of the set.
fn numbers_of(
    alloc: Global,
    index: &Index,
    set: &Option<Name>,
    names: &[Named],
) -> Result<Vec<u32>, AllocError>
    ensures { IfOk result (λ v. v.items ≡ filter_map (λ n. number_of index.now set.now n) names.now) }
{
    names
        .iter()
        .filter_map(|named| index.find(set, *named))
        .collect(alloc)
}

// The entry by numbers.
fn place_of(alloc: Global, index: &Index, entry: &Entry) -> Result<Place, AllocError>
    ensures { IfOk result (IsPlaceOf index.now entry.now) }
{
    let set = set_of_entry(entry);
    let makes = match made_by(entry) {
        Some(named) => index.find(&set, named),
        None => None,
    };
    let names = stands_on(alloc, entry)?;
    let stands = numbers_of(alloc, index, &set, names.as_slice())?;
    Ok(Place { makes, stands })
}

// The entries by numbers.
fn places_of(alloc: Global, index: &Index, entries: &[Entry]) -> Result<Vec<Place>, AllocError>
    ensures { IfOk result (λ v. ArePlacesOf index.now entries.now v.items) }
{
    let mut places = Vec::new(alloc);
    for entry in entries {
        places.push(place_of(alloc, index, entry)?)?;
    }
    Ok(places)
}

/// The places of the entries, from 0, each behind those of the entries that it needs: the order in
/// which they are to be made. Where entries need each other, the first of them comes first.
pub fn order_of_need(alloc: Global, entries: &[Entry]) -> Result<Vec<u32>, AllocError>
    requires { length entries.now ≤ 1024 }
    ensures { IfOk result (λ order. IsOrderOfNeed entries.now order.items) }
{
    let index = index_of(alloc, entries)?;
    let places = places_of(alloc, &index, entries)?;
    let users = users_of(alloc, index.len(), places.as_slice())?;
    order_of(alloc, &Graph { places, users })
}
