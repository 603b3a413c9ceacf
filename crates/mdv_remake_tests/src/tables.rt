//! Tables by their texts: made entry by entry, and printed.
ghost use Rattle.std.specs.Prelude.{IfOk};
ghost use Rattle.mdv_plan.specs.Slices.{IsSound};

use mdv_base::{DriveName, DriveNo, Key, Name, Named, Place, Places, SliceName};
use mdv_change::{ApplyFault, apply};
use mdv_name::Geometry;
use mdv_plan::{Table, read_geometries_are_sound};
use mdv_print::{print_named, print_tab};
use mdv_remake::{change_of, is_within};
use mdv_tab::{Entry, MAX_ENTRIES, order_of_need, read_tab};
use mdv_whole::{encode, text_bytes};
use std::alloc::Global;
use std::test::Fail;

const DRIVES: &[u8] = b"host hostA
drive c0t0d0 40000 hostA d0.img
slice c0t0d0s0 0 1000
slice c0t0d0s1 1000 990
slice c0t0d0s3 2000 4000
slice c0t0d0s4 6000 900
slice c0t0d0s6 7000 900
slice c0t0d0s7 12000 28000 db
";

// Of slice 7, which is set aside for replicas.
const REPLICAS: SliceName = SliceName {
    drive: DriveName {
        controller: 0,
        target: 0,
        disk: 0,
    },
    slice: 7,
};

/// The table of drives.
pub(crate) fn drives(alloc: Global) -> Result<Geometry, Fail>
    ensures { IfOk result IsSound }
{
    let geometry = Geometry::read(alloc, DRIVES)?;
    read_geometries_are_sound();
    Ok(geometry)
}

// One replica of 16 blocks, and nothing else.
fn empty(alloc: Global) -> Table {
    let mut places = Places::new();
    places.push(Place {
        slice: REPLICAS,
        start: 16,
        blocks: 16,
    });
    Table::empty(alloc, places)
}

// The number of the refusal, or 0 where the entry was made, or is of replicas.
fn make(alloc: Global, table: &mut Table, entry: &Entry) -> Result<u8, Fail> {
    let geometry = drives(alloc)?;
    if !is_within(entry) {
        Err::<(), _>("past the limits")?;
    }
    let Some(change) = change_of(alloc, entry)? else {
        return Ok(0);
    };
    match apply(alloc, &geometry, &[DriveNo(0)], table, &change) {
        Ok(()) => Ok(0),
        Err(ApplyFault::Refused(refusal)) => Ok(refusal.number()),
        Err(ApplyFault::Memory) => Err("memory")?,
    }
}

// The first refusal, or 0.
fn make_all(alloc: Global, table: &mut Table, entries: &[Entry]) -> Result<u8, Fail> {
    if entries.len() > MAX_ENTRIES {
        Err::<(), _>("too many")?;
    }
    let order = order_of_need(alloc, entries)?;
    for place in order.as_slice() {
        let Some(entry) = entries.get(*place as usize) else {
            return Err("no entry")?;
        };
        let refusal = make(alloc, table, entry)?;
        if refusal != 0 {
            return Ok(refusal);
        }
    }
    Ok(0)
}

/// The first refusal of the text's entries in their order of need, or 0.
pub(crate) fn refusal(alloc: Global, text: &[u8]) -> Result<u8, Fail> {
    let entries = read_tab(alloc, text)?;
    let mut table = empty(alloc);
    make_all(alloc, &mut table, entries.as_slice())
}

/// The table of a text none of whose entries is refused.
pub(crate) fn made(alloc: Global, text: &[u8]) -> Result<Table, Fail> {
    let entries = read_tab(alloc, text)?;
    let mut table = empty(alloc);
    if make_all(alloc, &mut table, entries.as_slice())? != 0 {
        Err::<(), _>("refused")?;
    }
    Ok(table)
}

fn name(text: &[u8]) -> Result<Name, Fail> {
    match Name::new(text) {
        Some(name) => Ok(name),
        None => Err("no name")?,
    }
}

/// What is printed of it, local or of the set `blue`.
pub(crate) fn printed(alloc: Global, table: &Table, local: bool) -> Result<Vec<u8>, Fail> {
    let key = if local {
        Key::Local(name(b"hostA")?)
    } else {
        Key::Set(name(b"blue")?)
    };
    let mut out = Vec::new(alloc);
    print_tab(&key, table, &mut out)?;
    Ok(out)
}

/// What is printed of these names in the set `blue`.
pub(crate) fn printed_named(
    alloc: Global,
    table: &Table,
    names: &[Named],
) -> Result<Vec<u8>, Fail> {
    let key = Key::Set(name(b"blue")?);
    let mut out = Vec::new(alloc);
    print_named(&key, table, names, &mut out)?;
    Ok(out)
}

/// The bytes of its record.
pub(crate) fn record(alloc: Global, table: &Table) -> Result<Vec<u8>, Fail> {
    let mut out = vec![in alloc; 0; text_bytes(table)]?;
    if encode(table, &mut out).is_err() {
        Err::<(), _>("too long")?;
    }
    Ok(out)
}
