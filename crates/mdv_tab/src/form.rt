ghost use Rattle.std.specs.Prelude.{◌≡◌, IfOk};
ghost use Rattle.mdv_tab.specs.Form.{mirror_of, raid_of, soft_of, extent_of, extents, room_of, replicas_of};
ghost use Rattle.mdv_tab.specs.Form.{lettered_of, volume_entry, entry_of, ends_pool};
ghost use Rattle.mdv_parts.specs.Runs.{slice_of, front, behind};

use crate::entry::{Entry, Extent, Room};
use crate::options::{pass_of, split_mirror_options, split_raid_options};
use crate::stripe::read_stripe;
use mdv_base::Name;
use mdv_name::{PoolName, VolName};
use mdv_parts::{
    Items, Part, component_of, has_letter, number_of, size_of, split_components,
    split_replica_options, split_slices, split_volumes,
};
use std::alloc::{AllocError, Global};

/// The entry that the parts are, all names of the set or of none; None where they are no entry. Want
/// of memory is the only error.
pub fn read_entry(
    alloc: Global,
    set: &Option<Name>,
    parts: &[Part],
) -> Result<Option<Entry>, AllocError>
    ensures { IfOk result (λ o. o ≡ entry_of set.now parts.now) }
{
    let [first, rest @ ..] = parts else {
        return Ok(None);
    };
    match *first {
        Part::Volume(volume) => read_volume_entry(alloc, VolName { set: *set, volume }, rest),
        Part::Pool(pool) => read_pool_entry(alloc, PoolName { set: *set, pool }, rest),
        Part::Replicas(number) if set.is_none() => read_replicas(alloc, number, rest),
        _ => Ok(None),
    }
}

fn read_volume_entry(
    alloc: Global,
    name: VolName,
    parts: &[Part],
) -> Result<Option<Entry>, AllocError>
    ensures { IfOk result (λ o. o ≡ volume_entry name parts.now) }
{
    let [first, rest @ ..] = parts else {
        return Ok(None);
    };
    match *first {
        Part::Number(count) => read_stripe(alloc, name, count, rest),
        part => read_lettered(alloc, name, part, rest),
    }
}

fn read_lettered(
    alloc: Global,
    name: VolName,
    part: Part,
    parts: &[Part],
) -> Result<Option<Entry>, AllocError>
    ensures { IfOk result (λ o. o ≡ lettered_of name part parts.now) }
{
    if has_letter(b'm', part) {
        return read_mirror(alloc, name, parts);
    }
    if has_letter(b'r', part) {
        return read_raid(alloc, name, parts);
    }
    if has_letter(b'p', part) {
        return read_soft(alloc, name, parts);
    }
    Ok(None)
}

fn read_mirror(alloc: Global, name: VolName, parts: &[Part]) -> Result<Option<Entry>, AllocError>
    ensures { IfOk result (λ o. o ≡ mirror_of name parts.now) }
{
    let (submirrors, rest) = split_volumes(alloc, parts)?;
    if submirrors.as_slice().is_empty() {
        return Ok(None);
    }
    let (options, rest) = split_mirror_options(rest);
    let Some(pass) = pass_of(rest) else {
        return Ok(None);
    };
    Ok(Some(Entry::Mirror {
        name,
        submirrors,
        options,
        pass,
    }))
}

fn read_raid(alloc: Global, name: VolName, parts: &[Part]) -> Result<Option<Entry>, AllocError>
    ensures { IfOk result (λ o. o ≡ raid_of name parts.now) }
{
    let (columns, rest) = split_components(alloc, parts)?;
    if columns.as_slice().is_empty() {
        return Ok(None);
    }
    let Some((options, rest)) = split_raid_options(rest) else {
        return Ok(None);
    };
    if !rest.is_empty() {
        return Ok(None);
    }
    Ok(Some(Entry::Raid {
        name,
        columns,
        options,
    }))
}

fn read_soft(alloc: Global, name: VolName, parts: &[Part]) -> Result<Option<Entry>, AllocError>
    ensures { IfOk result (λ o. o ≡ soft_of name parts.now) }
{
    let [first, rest @ ..] = parts else {
        return Ok(None);
    };
    let Some(base) = component_of(*first) else {
        return Ok(None);
    };
    let Some(room) = read_room(alloc, rest)? else {
        return Ok(None);
    };
    Ok(Some(Entry::Soft { name, base, room }))
}

fn read_room(alloc: Global, parts: &[Part]) -> Result<Option<Room>, AllocError>
    ensures { IfOk result (λ o. o ≡ room_of parts.now) }
{
    match parts {
        [] => Ok(None),
        [part] => match size_of(*part) {
            Some(blocks) if blocks >= 1 => Ok(Some(Room::Size(blocks))),
            _ => Ok(None),
        },
        _ => match read_extents(alloc, parts)? {
            Some(list) => Ok(Some(Room::Extents(list))),
            None => Ok(None),
        },
    }
}

fn read_extents(alloc: Global, parts: &[Part]) -> Result<Option<Items<Extent>>, AllocError>
    ensures { IfOk result (λ o. o ≡ extents parts.now) }
{
    let mut list = Items::new(alloc);
    let mut rest = parts;
    while let [first, offset, third, blocks, behind @ ..] = rest {
        let Some(extent) = read_extent(*first, *offset, *third, *blocks) else {
            return Ok(None);
        };
        list.push(extent)?;
        rest = behind;
    }
    if !rest.is_empty() {
        return Ok(None);
    }
    Ok(Some(list))
}

// `-o number -b number`.
fn read_extent(first: Part, offset: Part, third: Part, blocks: Part) -> Option<Extent>
    ensures { result ≡ extent_of first offset third blocks }
{
    if !has_letter(b'o', first) || !has_letter(b'b', third) {
        return None;
    }
    let offset = number_of(offset)?;
    let blocks = number_of(blocks)?;
    Some(Extent { offset, blocks })
}

fn read_pool_entry(
    alloc: Global,
    name: PoolName,
    parts: &[Part],
) -> Result<Option<Entry>, AllocError>
    ensures { IfOk result (λ o.
        o ≡ ends_pool name (front slice_of parts.now) (behind slice_of parts.now)) }
{
    let (slices, rest) = split_slices(alloc, parts)?;
    if !rest.is_empty() {
        return Ok(None);
    }
    Ok(Some(Entry::Pool { name, slices }))
}

fn read_replicas(alloc: Global, number: u8, parts: &[Part]) -> Result<Option<Entry>, AllocError>
    ensures { IfOk result (λ o. o ≡ replicas_of number parts.now) }
{
    let Some((options, rest)) = split_replica_options(parts) else {
        return Ok(None);
    };
    let (slices, rest) = split_slices(alloc, rest)?;
    if slices.as_slice().is_empty() || !rest.is_empty() {
        return Ok(None);
    }
    Ok(Some(Entry::Replicas {
        number,
        options,
        slices,
    }))
}
