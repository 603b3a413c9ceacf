ghost use Rattle.std.specs.Prelude.{◌≡◌, None, Some, IfOk, MatchOption};
ghost use Rattle.mdv_command.specs.Below.{front, behind, component_of as spec_component_of, late_interlace};
ghost use Rattle.mdv_command.specs.Volumes.{some_slices as spec_some_slices, named_of as spec_named_of, some_of, all_of};
ghost use Rattle.mdv_command.specs.Volumes.{added_of, metadb_of, made_of, metainit_of, metaclear_of, attached_of, deleted_of};
ghost use Rattle.mdv_command.specs.Volumes.{attach_of, only_size as spec_only_size, metattach_of, submirror_of as spec_submirror_of, metadetach_of, metaoffline_of, metaonline_of};
ghost use Rattle.mdv_command.specs.Volumes.{enabled_of, replaced_of, metareplace_of, metastat_of};

use crate::command::Command;
use crate::given::{Given, count_given, has, interlace_given, length_given, only};
use mdv_base::{Name, Named, SliceName, VolId};
use mdv_name::VolName;
use mdv_parts::{
    Items, Part, ReplicaOptions, component_of, size_of, split_components, split_interlace,
    split_slices,
};
use mdv_tab::read_entry;
use std::alloc::{AllocError, Global};

// The slices that the parts are, one or more. Want of memory is the only error, here and below.
pub(crate) fn some_slices(
    alloc: Global,
    parts: &[Part],
) -> Result<Option<Items<SliceName>>, AllocError>
    ensures { IfOk result (λ o. o ≡ spec_some_slices parts.now) }
{
    let (slices, rest) = split_slices(alloc, parts)?;
    if slices.as_slice().is_empty() || !rest.is_empty() {
        return Ok(None);
    }
    Ok(Some(slices))
}

fn named_of(part: Part) -> Option<Named>
    ensures { result ≡ spec_named_of part }
{
    match part {
        Part::Volume(volume) => Some(Named::Volume(volume)),
        Part::Pool(pool) => Some(Named::Pool(pool)),
        _ => None,
    }
}

// The volumes and pools at the list's front, and what stands behind the last.
fn split_named(alloc: Global, parts: &[Part]) -> Result<(Items<Named>, &[Part]), AllocError>
    ensures named { IfOk result (λ r. r.0 ≡ front spec_named_of parts.now) }
    ensures rest { IfOk result (λ r. r.1.now ≡ behind spec_named_of parts.now) }
{
    let mut list = Items::new(alloc);
    let mut rest = parts;
    while let [first, on @ ..] = rest {
        let Some(named) = named_of(*first) else {
            return Ok((list, rest));
        };
        list.push(named)?;
        rest = on;
    }
    Ok((list, rest))
}

fn read_added(alloc: Global, given: &[Given], parts: &[Part]) -> Result<Option<Command>, AllocError>
    ensures { IfOk result (λ o. o ≡ added_of given.now parts.now) }
{
    let force = has(b'f', given);
    if let [Part::Replicas(number)] = parts {
        if !only(b"af", given) {
            return Ok(None);
        }
        return Ok(Some(Command::AddListed {
            number: *number,
            force,
        }));
    }
    let Some(slices) = some_slices(alloc, parts)? else {
        return Ok(None);
    };
    let options = ReplicaOptions {
        count: count_given(given),
        blocks: length_given(given),
    };
    Ok(Some(Command::AddReplicas {
        slices,
        options,
        force,
    }))
}

fn read_deleted(
    alloc: Global,
    given: &[Given],
    parts: &[Part],
) -> Result<Option<Command>, AllocError>
    ensures { IfOk result (λ o. o ≡ deleted_of given.now parts.now) }
{
    let Some(slices) = some_slices(alloc, parts)? else {
        return Ok(None);
    };
    Ok(Some(Command::DeleteReplicas {
        slices,
        force: has(b'f', given),
    }))
}

/// What stands behind `metadb`; None where it isn't of the form, here and below. Want of memory is the only
/// error.
pub fn read_metadb(
    alloc: Global,
    given: &[Given],
    set: &Option<Name>,
    parts: &[Part],
) -> Result<Option<Command>, AllocError>
    ensures { IfOk result (λ o. o ≡ metadb_of given.now set.now parts.now) }
{
    if has(b'a', given) {
        if !only(b"afcl", given) {
            return Ok(None);
        }
        return read_added(alloc, given, parts);
    }
    if has(b'd', given) {
        if !only(b"df", given) {
            return Ok(None);
        }
        return read_deleted(alloc, given, parts);
    }
    if !only(b"is", given) || !parts.is_empty() {
        return Ok(None);
    }
    Ok(Some(Command::ListReplicas {
        set: *set,
        legend: has(b'i', given),
    }))
}

fn read_made(
    alloc: Global,
    force: bool,
    set: &Option<Name>,
    parts: &[Part],
) -> Result<Option<Command>, AllocError>
    ensures { IfOk result (λ o. o ≡ made_of force set.now parts.now) }
{
    match parts {
        [Part::Volume(volume)] => Ok(Some(Command::MakeNamed {
            set: *set,
            named: Named::Volume(*volume),
            force,
        })),
        [Part::Pool(pool)] => Ok(Some(Command::MakeNamed {
            set: *set,
            named: Named::Pool(*pool),
            force,
        })),
        [Part::Replicas(_), ..] => Ok(None),
        _ => match read_entry(alloc, set, parts)? {
            Some(entry) => Ok(Some(Command::Make { entry, force })),
            None => Ok(None),
        },
    }
}

/// What stands behind `metainit`.
pub fn read_metainit(
    alloc: Global,
    given: &[Given],
    set: &Option<Name>,
    parts: &[Part],
) -> Result<Option<Command>, AllocError>
    ensures { IfOk result (λ o. o ≡ metainit_of given.now set.now parts.now) }
{
    if !has(b'a', given) {
        return read_made(alloc, has(b'f', given), set, parts);
    }
    if !only(b"a", given) || !parts.is_empty() {
        return Ok(None);
    }
    Ok(Some(Command::MakeAll))
}

/// What stands behind `metaclear`.
pub fn read_metaclear(
    alloc: Global,
    given: &[Given],
    set: &Option<Name>,
    parts: &[Part],
) -> Result<Option<Command>, AllocError>
    ensures { IfOk result (λ o. o ≡ metaclear_of given.now set.now parts.now) }
{
    if has(b'a', given) {
        if !only(b"afs", given) || !parts.is_empty() {
            return Ok(None);
        }
        return Ok(Some(Command::ClearAll { set: *set }));
    }
    let (names, rest) = split_named(alloc, parts)?;
    if names.as_slice().is_empty() || !rest.is_empty() {
        return Ok(None);
    }
    Ok(Some(Command::Clear {
        set: *set,
        names,
        below: has(b'r', given),
    }))
}

fn split_late_interlace(given: Option<u64>, parts: &[Part]) -> Option<(Option<u64>, &[Part])>
    ensures { MatchOption result (late_interlace given parts.now ≡ None)
        (λ r. late_interlace given parts.now ≡ Some (r.0, r.1.now)) }
{
    match given {
        Some(blocks) => Some((Some(blocks), parts)),
        None => split_interlace(parts),
    }
}

fn read_attached(
    alloc: Global,
    volume: VolName,
    interlace: Option<u64>,
    parts: &[Part],
) -> Result<Option<Command>, AllocError>
    ensures { IfOk result (λ o. o ≡ attached_of volume interlace parts.now) }
{
    let (components, rest) = split_components(alloc, parts)?;
    if components.as_slice().is_empty() {
        return Ok(None);
    }
    let Some((interlace, rest)) = split_late_interlace(interlace, rest) else {
        return Ok(None);
    };
    if !rest.is_empty() {
        return Ok(None);
    }
    Ok(Some(Command::Attach {
        volume,
        components,
        interlace,
    }))
}

// The blocks that the only part says.
fn only_size(parts: &[Part]) -> Option<u64>
    ensures { result ≡ spec_only_size parts.now }
{
    match parts {
        [part] => size_of(*part),
        _ => None,
    }
}

fn read_attach(
    alloc: Global,
    volume: VolName,
    given: &[Given],
    parts: &[Part],
) -> Result<Option<Command>, AllocError>
    ensures { IfOk result (λ o. o ≡ attach_of volume given.now parts.now) }
{
    let Some(blocks) = only_size(parts) else {
        return read_attached(alloc, volume, interlace_given(given), parts);
    };
    if !only(b"s", given) || blocks == 0 {
        return Ok(None);
    }
    Ok(Some(Command::Grow { volume, blocks }))
}

/// What stands behind `metattach`.
pub fn read_metattach(
    alloc: Global,
    given: &[Given],
    set: &Option<Name>,
    parts: &[Part],
) -> Result<Option<Command>, AllocError>
    ensures { IfOk result (λ o. o ≡ metattach_of given.now set.now parts.now) }
{
    match parts {
        [Part::Volume(volume), rest @ ..] => read_attach(
            alloc,
            VolName {
                set: *set,
                volume: *volume,
            },
            given,
            rest,
        ),
        _ => Ok(None),
    }
}

// A mirror and a submirror of it.
fn submirror_of(set: &Option<Name>, parts: &[Part]) -> Option<(VolName, VolId)>
    ensures { result ≡ spec_submirror_of set.now parts.now }
{
    match parts {
        [Part::Volume(mirror), Part::Volume(submirror)] => {
            let mirror = VolName {
                set: *set,
                volume: *mirror,
            };
            Some((mirror, *submirror))
        }
        _ => None,
    }
}

/// What stands behind `metadetach`.
pub fn read_metadetach(given: &[Given], set: &Option<Name>, parts: &[Part]) -> Option<Command>
    ensures { result ≡ metadetach_of given.now set.now parts.now }
{
    let (mirror, submirror) = submirror_of(set, parts)?;
    Some(Command::Detach {
        mirror,
        submirror,
        force: has(b'f', given),
    })
}

/// What stands behind `metaoffline`.
pub fn read_metaoffline(set: &Option<Name>, parts: &[Part]) -> Option<Command>
    ensures { result ≡ metaoffline_of set.now parts.now }
{
    let (mirror, submirror) = submirror_of(set, parts)?;
    Some(Command::Offline { mirror, submirror })
}

/// What stands behind `metaonline`.
pub fn read_metaonline(set: &Option<Name>, parts: &[Part]) -> Option<Command>
    ensures { result ≡ metaonline_of set.now parts.now }
{
    let (mirror, submirror) = submirror_of(set, parts)?;
    Some(Command::Online { mirror, submirror })
}

fn read_enabled(set: &Option<Name>, parts: &[Part]) -> Option<Command>
    ensures { result ≡ enabled_of set.now parts.now }
{
    match parts {
        [Part::Volume(volume), part] => {
            let component = component_of(*part)?;
            let volume = VolName {
                set: *set,
                volume: *volume,
            };
            Some(Command::Enable { volume, component })
        }
        _ => None,
    }
}

fn read_replaced(set: &Option<Name>, parts: &[Part]) -> Option<Command>
    ensures { result ≡ replaced_of set.now parts.now }
{
    match parts {
        [Part::Volume(volume), old, new] => {
            let old = component_of(*old)?;
            let new = component_of(*new)?;
            let volume = VolName {
                set: *set,
                volume: *volume,
            };
            Some(Command::Replace { volume, old, new })
        }
        _ => None,
    }
}

/// What stands behind `metareplace`.
pub fn read_metareplace(given: &[Given], set: &Option<Name>, parts: &[Part]) -> Option<Command>
    ensures { result ≡ metareplace_of given.now set.now parts.now }
{
    if has(b'e', given) {
        read_enabled(set, parts)
    } else {
        read_replaced(set, parts)
    }
}

/// What stands behind `metastat`.
pub fn read_metastat(
    alloc: Global,
    given: &[Given],
    set: &Option<Name>,
    parts: &[Part],
) -> Result<Option<Command>, AllocError>
    ensures { IfOk result (λ o. o ≡ metastat_of given.now set.now parts.now) }
{
    let (names, rest) = split_named(alloc, parts)?;
    if !rest.is_empty() {
        return Ok(None);
    }
    Ok(Some(Command::Status {
        set: *set,
        names,
        printed: has(b'p', given),
    }))
}
