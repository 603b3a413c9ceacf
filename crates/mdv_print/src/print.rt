ghost use Rattle.std.specs.Prelude.{◌≡◌, ◌++◌, OnOk, OnErr};
ghost use Rattle.std.specs.List.{flat_map};
ghost use Rattle.mdv_print.specs.Text.{named_text, names_text, pool_line, set_of as spec_set_of, tab_text};

use crate::line::add_pool;
use crate::walk::{add_volumes, uppermost};
use mdv_base::{Key, Name, Named};
use mdv_plan::{Plan, Pool, Table};
use std::alloc::AllocError;

/// Appends all volumes and pools of the database as the text of an md.tab: each volume that none
/// uses, in ascending order, with those below it behind it in the order in which they are named, each
/// once; then the pools. In a set each name has the set's.
pub fn print_tab(key: &Key, table: &Table, out: &mut Vec<u8>) -> Result<(), AllocError>
    ensures ok { OnOk result (out.new.items ≡ out.old.items ++ tab_text (spec_set_of key.now) table.now.plan) }
    ensures err { OnErr result (out.new.items ≡ out.old.items) }
{
    let alloc = *out.allocator();
    let set = set_of(key);
    let first = uppermost(alloc, &table.plan)?;
    let mut text = Vec::new(alloc);
    add_volumes(&mut text, &set, &table.plan, first.as_slice())?;
    add_pools(&mut text, &set, table.plan.pools.as_slice())?;
    out.extend_from_slice(text.as_slice())?;
    Ok(())
}

/// Appends the same of these names alone, in their order: each volume with those below it behind it,
/// and each pool. A name that the table doesn't have adds nothing.
pub fn print_named(
    key: &Key,
    table: &Table,
    names: &[Named],
    out: &mut Vec<u8>,
) -> Result<(), AllocError>
    ensures ok { OnOk result (out.new.items ≡ out.old.items ++ names_text (spec_set_of key.now) table.now.plan names.now) }
    ensures err { OnErr result (out.new.items ≡ out.old.items) }
{
    let set = set_of(key);
    let mut text = Vec::new(*out.allocator());
    for name in names {
        add_named(&mut text, &set, &table.plan, *name)?;
    }
    out.extend_from_slice(text.as_slice())?;
    Ok(())
}

fn set_of(key: &Key) -> Option<Name>
    ensures { result ≡ spec_set_of key.now }
{
    match key {
        Key::Local(_) => None,
        Key::Set(name) => Some(*name),
    }
}

fn add_pools(text: &mut Vec<u8>, set: &Option<Name>, pools: &[Pool]) -> Result<(), AllocError>
    ensures { OnOk result (text.new.items ≡ text.old.items ++ flat_map (pool_line set.now) pools.now) }
{
    for pool in pools {
        add_pool(text, set, pool)?;
    }
    Ok(())
}

fn add_named(
    text: &mut Vec<u8>,
    set: &Option<Name>,
    plan: &Plan,
    name: Named,
) -> Result<(), AllocError>
    ensures { OnOk result (text.new.items ≡ text.old.items ++ named_text set.now plan.now name) }
{
    match name {
        Named::Volume(volume) => add_volumes(text, set, plan, &[volume]),
        Named::Pool(pool) => match plan.pools.find(u32::from(pool.0)) {
            Some(pool) => add_pool(text, set, pool),
            None => Ok(()),
        },
    }
}
