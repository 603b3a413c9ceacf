ghost use Rattle.std.specs.Prelude.{◌<◌, IfOk};
ghost use Rattle.mdv_keeping.specs.Built.{IsBuilt};

use crate::drives::{both, lies, place, slice, sound};
use mdv_base::{DriveNo, Places, Refusal, SliceName, VolId};
use mdv_change::{ApplyFault, Change};
use mdv_components::RowAsked;
use mdv_config::{each_of, first_of, is_of_geometry, last_of, settle};
use mdv_keeping::next_table;
use mdv_plan::{
    Base, Component, KindStatus, Listed, Lists, PartStatus, Row, State, Stripe, Table, Volume,
    VolumeKind, VolumeStatus,
};
use std::alloc::Global;
use std::test::Fail;

// Slice 2 is the whole drive, slice 3 the last block of slice 0, slice 4 the block behind it. On the last drive two slices
// for replicas share a block.
const DRIVES: &[u8] = b"host hostA
drive c0t0d0 40000 hostA d0.img
slice c0t0d0s0 0 1000
slice c0t0d0s1 1001 990
slice c0t0d0s2 0 40000
slice c0t0d0s3 999 1
slice c0t0d0s4 1000 1
slice c0t0d0s7 12000 28000 db
drive c0t1d0 40000 hostA d1.img
slice c0t1d0s0 0 1000
slice c0t1d0s7 12000 28000 db
drive c0t3d0 40000 hostA d3.img
slice c0t3d0s5 0 1000 db
slice c0t3d0s6 999 1000 db
slice c0t3d0s7 1999 1000 db
";

fn number(number: u16) -> VolId
    ensures { result.0 < 8192 }
{
    VolId(number % 8192)
}

// The drives of the database.
const DATABASE: &[DriveNo] = &[DriveNo(0), DriveNo(1), DriveNo(2)];

// A volume of one stripe of this slice.
fn stripe_of(alloc: Global, volume: VolId, slice: SliceName) -> Result<Change, Fail>
    requires { volume.0 < 8192 }
    ensures { IfOk result IsBuilt }
{
    let mut components = Listed::new(alloc);
    components.push(Base::Slice(slice))?;
    let mut rows = Listed::new(alloc);
    rows.push(RowAsked {
        components,
        interlace: None,
    })?;
    Ok(Change::MakeStripe {
        volume,
        rows,
        spares: None,
    })
}

// The number of the refusal, or 0 where the stripe was made.
pub(crate) fn told(
    alloc: Global,
    drives: &[u8],
    table: &mut Table,
    volume: u16,
    text: &[u8],
) -> Result<u8, Fail> {
    let geometry = sound(alloc, drives)?;
    let change = stripe_of(alloc, number(volume), slice(text)?)?;
    if !is_of_geometry(table, &geometry) {
        return Err(Fail::from("a table of other drives"));
    }
    Ok(
        match next_table(alloc, &geometry, DATABASE, table, &change) {
            Ok(next) => {
                *table = next;
                0
            }
            Err(ApplyFault::Refused(refusal)) => refusal.number(),
            Err(ApplyFault::Memory) => Refusal::OutOfMemory.number(),
        },
    )
}

type Line = (u16, &'static [u8], u8);

// The place of the first stripe that isn't told so.
fn first_wrong(alloc: Global, table: &mut Table, lines: &[Line]) -> Result<Option<usize>, Fail> {
    for place in 0..lines.len() {
        let (volume, text, want) = lines[place];
        if told(alloc, DRIVES, table, volume, text)? != want {
            return Ok(Some(place));
        }
    }
    Ok(None)
}

// No such slice is 6, name taken 5, wrong kind 12, slice in use 7.
const REFUSED: &[Line] = &[
    (10, b"c0t0d0s0", 0),
    (10, b"c0t2d0s0", 6),
    (10, b"c0t0d0s7", 5),
    (10, b"c0t0d0s0", 5),
    (11, b"c0t0d0s7", 12),
    (11, b"c0t1d0s7", 12),
    (11, b"c0t0d0s0", 7),
    (11, b"c0t0d0s2", 7),
    (11, b"c0t0d0s3", 7),
    (11, b"c0t0d0s4", 0),
    (8191, b"c0t1d0s0", 0),
    (0, b"c0t0d0s1", 0),
];

#[test]
fn refuses_in_one_order(rt: HostRuntime) -> Result<(), Fail> {
    let mut table = Table::empty(rt.alloc(), place(b"c0t0d0s7", 16, 8192)?);
    assert_eq!(rt; first_wrong(rt.alloc(), &mut table, REFUSED)?, None);
    Ok(())
}

const KEPT: &[Line] = &[(8191, b"c0t0d0s0", 0), (0, b"c0t0d0s1", 0)];

// Whether the volume is one stripe of all so many blocks of the slice.
fn is_on(volume: &Volume, text: &[u8], blocks: u64) -> Result<bool, Fail> {
    let VolumeKind::Stripe(stripe) = &volume.kind else {
        return Ok(false);
    };
    let [row] = stripe.rows.as_slice() else {
        return Ok(false);
    };
    let want = Component {
        on: Base::Slice(slice(text)?),
        start: 0,
        blocks,
    };
    Ok(row.interlace == 32 && row.components.as_slice() == [want].as_slice())
}

// The stripes in the order of their numbers, and each found by its number.
fn has_both(table: &Table) -> Result<bool, Fail> {
    let [first, second] = table.plan.volumes.as_slice() else {
        return Ok(false);
    };
    let found = table.plan.volumes.find(8191).ok_or("no d8191")?;
    let is_found = found.number == second.number && is_on(found, b"c0t0d0s0", 1000)?;
    Ok(first.number == VolId(0) && is_on(first, b"c0t0d0s1", 990)? && is_found)
}

#[test]
fn keeps_volumes_in_order(rt: HostRuntime) -> Result<(), Fail> {
    let mut table = Table::empty(rt.alloc(), place(b"c0t0d0s7", 16, 8192)?);
    assert_eq!(rt; first_wrong(rt.alloc(), &mut table, KEPT)?, None);
    assert!(rt; has_both(&table)?);
    assert!(rt; is_of_drives(rt.alloc(), &table)?);
    Ok(())
}

fn is_of_drives(alloc: Global, table: &Table) -> Result<bool, Fail> {
    let geometry = sound(alloc, DRIVES)?;
    Ok(is_of_geometry(table, &geometry))
}

// Where the place lies, where d2 lies beside d1 on slice 0, and whether the table is one of the drives.
const TABLES: &[(Lies, Option<(&[u8], u64)>, bool)] = &[
    ((b"c0t0d0s7", 16, 16), None, true),
    ((b"c0t0d0s7", 16, 8192), None, true),
    ((b"c0t0d0s7", 16, 15), None, false),
    ((b"c0t0d0s7", 16, 8193), None, false),
    ((b"c0t0d0s7", 17, 16), None, false),
    ((b"c0t0d0s7", 32, 16), None, true),
    ((b"c0t0d0s7", 8208, 8192), None, true),
    ((b"c0t0d0s7", 24592, 8192), None, false),
    ((b"c0t3d0s5", 16, 16), None, false),
    ((b"c0t3d0s6", 16, 16), None, false),
    ((b"c0t3d0s7", 16, 16), None, true),
    ((b"c0t0d0s0", 16, 16), None, false),
    ((b"c0t0d0s5", 16, 16), None, false),
    ((b"c0t2d0s7", 16, 16), None, false),
    ((b"c0t0d0s7", 16, 8192), Some((b"c0t0d0s4", 1)), true),
    ((b"c0t0d0s7", 16, 8192), Some((b"c0t0d0s4", 2)), false),
    ((b"c0t0d0s7", 16, 8192), Some((b"c0t0d0s0", 1000)), false),
    ((b"c0t0d0s7", 16, 8192), Some((b"c0t0d0s3", 1)), false),
    ((b"c0t0d0s7", 16, 8192), Some((b"c0t1d0s7", 28000)), false),
];

// The first place stays, the second goes, and the third comes.
#[test]
fn tells_each_place_of_two_lists_once(rt: HostRuntime) -> Result<(), Fail> {
    let stays = lies(b"c0t0d0s7", 16, 16)?;
    let goes = lies(b"c0t1d0s7", 16, 16)?;
    let comes = lies(b"c0t0d0s7", 32, 16)?;
    let mut table = Table::empty(rt.alloc(), Places::new());
    table.plan.lists = Lists::Two(both(stays, goes), both(stays, comes));
    assert!(rt; is_of_drives(rt.alloc(), &table)?);
    assert!(rt; first_of(&table.plan.lists) == [stays, goes].as_slice());
    assert!(rt; last_of(&table.plan.lists) == [stays, comes].as_slice());
    assert!(rt; each_of(&table.plan.lists).as_slice() == [stays, goes, comes].as_slice());
    let table = settle(table);
    assert!(rt; first_of(&table.plan.lists) == [stays, comes].as_slice());
    assert!(rt; each_of(&table.plan.lists).as_slice() == [stays, comes].as_slice());
    Ok(())
}

// A slice, the first block and how many.
type Lies = (&'static [u8], u32, u32);

// d1 on slice 0 and d2 on so many blocks of another.
fn two_stripes(alloc: Global, lies: Lies, text: &[u8], blocks: u64) -> Result<Table, Fail> {
    let mut table = Table::empty(alloc, place(lies.0, lies.1, lies.2)?);
    add_stripe(alloc, &mut table, VolId(1), slice(b"c0t0d0s0")?, 1000)?;
    add_stripe(alloc, &mut table, VolId(2), slice(text)?, blocks)?;
    Ok(table)
}

// A stripe of one component, of which nothing failed, whatever else there is.
fn add_stripe(
    alloc: Global,
    table: &mut Table,
    number: VolId,
    slice: SliceName,
    blocks: u64,
) -> Result<(), Fail>
    requires { number.0 < 8192 }
{
    let kind = VolumeKind::Stripe(stripe_on(alloc, slice, blocks)?);
    table.plan.volumes.put(Volume { number, kind })?;
    let okay = PartStatus {
        state: State::Okay,
        spare: None,
    };
    let kind = KindStatus::Stripe(Listed::from_slice(alloc, &[okay])?);
    table.status.volumes.put(VolumeStatus { number, kind })?;
    Ok(())
}

fn stripe_on(alloc: Global, slice: SliceName, blocks: u64) -> Result<Stripe, Fail> {
    let component = Component {
        on: Base::Slice(slice),
        start: 0,
        blocks,
    };
    let row = Row {
        interlace: 32,
        components: Listed::from_slice(alloc, &[component])?,
    };
    let mut rows = Listed::new(alloc);
    rows.push(row)?;
    Ok(Stripe { rows, spares: None })
}

fn is_allowed(alloc: Global, lies: Lies, second: Option<(&[u8], u64)>) -> Result<bool, Fail> {
    let table = match second {
        Some((text, blocks)) => two_stripes(alloc, lies, text, blocks)?,
        None => Table::empty(alloc, place(lies.0, lies.1, lies.2)?),
    };
    is_of_drives(alloc, &table)
}

#[test]
fn tells_tables_of_a_geometry(rt: HostRuntime) -> Result<(), Fail> {
    for (lies, second, want) in TABLES {
        assert!(rt;
            is_allowed(rt.alloc(), *lies, *second)? == *want,
            "{lies:?} {second:?}"
        );
    }
    Ok(())
}
