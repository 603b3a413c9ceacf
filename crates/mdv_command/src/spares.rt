ghost use Rattle.std.specs.Prelude.{◌≡◌, None, Some, IfOk, MatchOption};
ghost use Rattle.mdv_command.specs.Below.{front, behind, pool_of as spec_pool_of};
ghost use Rattle.mdv_command.specs.Spares.{pools_of as spec_pools_of, added_spares_of, deleted_spares_of, replaced_spare_of};
ghost use Rattle.mdv_command.specs.Spares.{enabled_spares_of, listed_pools_of, metahs_of};

use crate::command::{Command, Pools};
use crate::given::{Given, has, only};
use crate::volumes::some_slices;
use mdv_base::{Name, PoolId};
use mdv_parts::{Items, Part, pool_of};
use std::alloc::{AllocError, Global};

// `POOL` or `all`, and the parts behind it.
fn split_pools(all: bool, parts: &[Part]) -> Option<(Pools, &[Part])>
    ensures { MatchOption result (spec_pools_of all parts.now ≡ None)
        (λ r. spec_pools_of all parts.now ≡ Some (r.0, r.1.now)) }
{
    if all {
        return Some((Pools::All, parts));
    }
    match parts {
        [Part::Pool(pool), rest @ ..] => Some((Pools::One(*pool), rest)),
        _ => None,
    }
}

// The pools at the list's front, and what stands behind the last.
fn split_names(alloc: Global, parts: &[Part]) -> Result<(Items<PoolId>, &[Part]), AllocError>
    ensures named { IfOk result (λ r. r.0 ≡ front spec_pool_of parts.now) }
    ensures rest { IfOk result (λ r. r.1.now ≡ behind spec_pool_of parts.now) }
{
    let mut list = Items::new(alloc);
    let mut rest = parts;
    while let [first, on @ ..] = rest {
        let Some(pool) = pool_of(*first) else {
            return Ok((list, rest));
        };
        list.push(pool)?;
        rest = on;
    }
    Ok((list, rest))
}

fn read_added(
    alloc: Global,
    set: &Option<Name>,
    all: bool,
    parts: &[Part],
) -> Result<Option<Command>, AllocError>
    ensures { IfOk result (λ o. o ≡ added_spares_of set.now (spec_pools_of all parts.now)) }
{
    let Some((pools, rest)) = split_pools(all, parts) else {
        return Ok(None);
    };
    let Some(slices) = some_slices(alloc, rest)? else {
        return Ok(None);
    };
    Ok(Some(Command::AddSpares {
        set: *set,
        pools,
        slices,
    }))
}

fn read_deleted(
    alloc: Global,
    set: &Option<Name>,
    all: bool,
    parts: &[Part],
) -> Result<Option<Command>, AllocError>
    ensures { IfOk result (λ o. o ≡ deleted_spares_of set.now (spec_pools_of all parts.now)) }
{
    let Some((pools, rest)) = split_pools(all, parts) else {
        return Ok(None);
    };
    let Some(slices) = some_slices(alloc, rest)? else {
        return Ok(None);
    };
    Ok(Some(Command::DeleteSpares {
        set: *set,
        pools,
        slices,
    }))
}

fn read_replaced(set: &Option<Name>, all: bool, parts: &[Part]) -> Option<Command>
    ensures { result ≡ replaced_spare_of set.now (spec_pools_of all parts.now) }
{
    let Some((pools, rest)) = split_pools(all, parts) else {
        return None;
    };
    match rest {
        [Part::Slice(old), Part::Slice(new)] => Some(Command::ReplaceSpare {
            set: *set,
            pools,
            old: *old,
            new: *new,
        }),
        _ => None,
    }
}

fn read_enabled(
    alloc: Global,
    set: &Option<Name>,
    all: bool,
    parts: &[Part],
) -> Result<Option<Command>, AllocError>
    ensures { IfOk result (λ o. o ≡ enabled_spares_of set.now all parts.now) }
{
    if all {
        return Ok(None);
    }
    let Some(slices) = some_slices(alloc, parts)? else {
        return Ok(None);
    };
    Ok(Some(Command::EnableSpares { set: *set, slices }))
}

fn read_listed(
    alloc: Global,
    set: &Option<Name>,
    all: bool,
    parts: &[Part],
) -> Result<Option<Command>, AllocError>
    ensures { IfOk result (λ o. o ≡ listed_pools_of set.now all parts.now) }
{
    if all {
        return Ok(None);
    }
    let (pools, rest) = split_names(alloc, parts)?;
    if !rest.is_empty() {
        return Ok(None);
    }
    Ok(Some(Command::ListPools { set: *set, pools }))
}

/// What stands behind `metahs`, with `all` in front or without; None where it isn't of the form.
pub fn read_metahs(
    alloc: Global,
    given: &[Given],
    set: &Option<Name>,
    all: bool,
    parts: &[Part],
) -> Result<Option<Command>, AllocError>
    ensures { IfOk result (λ o. o ≡ metahs_of given.now set.now all parts.now) }
{
    if has(b'a', given) {
        return if only(b"as", given) {
            read_added(alloc, set, all, parts)
        } else {
            Ok(None)
        };
    }
    if has(b'd', given) {
        return if only(b"ds", given) {
            read_deleted(alloc, set, all, parts)
        } else {
            Ok(None)
        };
    }
    if has(b'r', given) {
        return Ok(if only(b"rs", given) {
            read_replaced(set, all, parts)
        } else {
            None
        });
    }
    if has(b'e', given) {
        return if only(b"es", given) {
            read_enabled(alloc, set, all, parts)
        } else {
            Ok(None)
        };
    }
    if !has(b'i', given) || !only(b"is", given) {
        return Ok(None);
    }
    read_listed(alloc, set, all, parts)
}
