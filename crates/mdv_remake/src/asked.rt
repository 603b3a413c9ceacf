//! What an entry asks of a table.
ghost use Rattle.std.specs.Prelude.{◌≡◌, ◌≤◌, true, nat_lt, flat_map, length, map, IfOk, IfSome};
ghost use Rattle.std.specs.List.{list_all};
ghost use Rattle.mdv_change.specs.Apply.{IsNumbered};
ghost use Rattle.mdv_remake.specs.Asked.{clearing_of as spec_clearing_of, pool_named, volume_named};
ghost use Rattle.mdv_remake.specs.Asked.{asked_of, base_of as spec_base_of, is_few as spec_is_few, is_short_room as spec_is_short_room, is_short_row as spec_is_short_row, is_within as spec_is_within};
ghost use Rattle.mdv_remake.specs.Asked.{mirror_of as spec_mirror_of, raid_of as spec_raid_of, read_of as spec_read_of, room_of as spec_room_of, row_of as spec_row_of, run_of as spec_run_of, soft_of as spec_soft_of, write_of as spec_write_of};

use mdv_base::{Named, PoolId, VolId};
use mdv_change::Change;
use mdv_components::{MAX_NAMES, RaidAsked, RowAsked};
use mdv_extent::Run;
use mdv_parts::{Component, Items};
use mdv_plan::{Base, Listed, MAX_POOLS, MAX_VOLUMES, ReadOption, WriteOption};
use mdv_softs::{RoomAsked, SoftAsked};
use mdv_submirrors::MirrorAsked;
use mdv_tab::{Entry, Extent, MirrorOptions, RaidOptions, ReadFrom, Room, Row};
use std::alloc::{AllocError, Global};

fn base_of(component: Component) -> Base
    ensures { result ≡ spec_base_of component }
{
    match component {
        Component::Slice(slice) => Base::Slice(slice),
        Component::Volume(volume) => Base::Volume(volume),
    }
}

fn listed<T: Copy + Drop>(alloc: Global, items: &[T]) -> Result<Listed<T, MAX_NAMES>, AllocError>
    requires { length items.now ≤ 65536 }
    ensures { IfOk result (λ list. list ≡ items.now) }
{
    Listed::from_slice(alloc, items)
}

fn all_bases(alloc: Global, components: &[Component]) -> Result<Vec<Base>, AllocError>
    ensures { IfOk result (λ bases. bases.items ≡ map spec_base_of components.now) }
{
    components
        .iter()
        .map(|component| base_of(*component))
        .collect(alloc)
}

fn bases(
    alloc: Global,
    components: &Items<Component>,
) -> Result<Listed<Base, MAX_NAMES>, AllocError>
    requires { length components.now ≤ 65536 }
    ensures { IfOk result (λ bases. bases ≡ map spec_base_of components.now) }
{
    let bases = all_bases(alloc, components.as_slice())?;
    listed(alloc, bases.as_slice())
}

/// The row that one of an entry asks for.
///
/// One that isn't `is_short_row` can't be told as a row of a change.
pub fn row_of(alloc: Global, row: &Row) -> Result<RowAsked, AllocError>
    requires { spec_is_short_row row.now ≡ true }
    ensures { IfOk result (λ asked. asked ≡ spec_row_of row.now) }
{
    Ok(RowAsked {
        components: bases(alloc, &row.components)?,
        interlace: row.interlace,
    })
}

fn rows_of(alloc: Global, rows: &[Row]) -> Result<Listed<RowAsked, MAX_NAMES>, AllocError>
    requires few { length rows.now ≤ 65536 }
    requires short { list_all spec_is_short_row rows.now ≡ true }
    ensures { IfOk result (λ asked. asked ≡ map spec_row_of rows.now) }
{
    let mut asked = Listed::new(alloc);
    for row in rows {
        asked.push(row_of(alloc, row)?)?;
    }
    Ok(asked)
}

fn read_of(read: Option<ReadFrom>) -> ReadOption
    ensures { result ≡ spec_read_of read }
{
    match read {
        None => ReadOption::InTurn,
        Some(ReadFrom::Geometric) => ReadOption::Geometric,
        Some(ReadFrom::First) => ReadOption::First,
    }
}

fn write_of(serial: bool) -> WriteOption
    ensures { result ≡ spec_write_of serial }
{
    if serial {
        WriteOption::Serial
    } else {
        WriteOption::Parallel
    }
}

fn mirror_of(
    alloc: Global,
    submirrors: &Items<VolId>,
    options: MirrorOptions,
    pass: u8,
) -> Result<MirrorAsked, AllocError>
    requires { length submirrors.now ≤ 65536 }
    ensures { IfOk result (λ asked. asked ≡ spec_mirror_of submirrors.now options pass) }
{
    Ok(MirrorAsked {
        submirrors: listed(alloc, submirrors.as_slice())?,
        read: read_of(options.read),
        write: write_of(options.serial),
        pass,
    })
}

fn raid_of(
    alloc: Global,
    columns: &Items<Component>,
    options: RaidOptions,
) -> Result<RaidAsked, AllocError>
    requires { length columns.now ≤ 65536 }
    ensures { IfOk result (λ asked. asked ≡ spec_raid_of columns.now options) }
{
    Ok(RaidAsked {
        columns: bases(alloc, columns)?,
        interlace: options.interlace,
        spares: options.spares,
        keep: options.keep,
    })
}

fn run_of(extent: Extent) -> Run
    ensures { result ≡ spec_run_of extent }
{
    Run {
        at: extent.offset,
        blocks: extent.blocks,
    }
}

fn all_runs(alloc: Global, extents: &[Extent]) -> Result<Vec<Run>, AllocError>
    ensures { IfOk result (λ runs. runs.items ≡ map spec_run_of extents.now) }
{
    extents.iter().map(|extent| run_of(*extent)).collect(alloc)
}

fn room_of(alloc: Global, room: &Room) -> Result<RoomAsked, AllocError>
    requires { spec_is_short_room room.now ≡ true }
    ensures { IfOk result (λ asked. asked ≡ spec_room_of room.now) }
{
    let extents = match room {
        Room::Size(blocks) => return Ok(RoomAsked::Blocks(*blocks)),
        Room::Extents(extents) => extents,
    };
    let runs = all_runs(alloc, extents.as_slice())?;
    Ok(RoomAsked::Extents(listed(alloc, runs.as_slice())?))
}

fn soft_of(alloc: Global, base: Component, room: &Room) -> Result<SoftAsked, AllocError>
    requires { spec_is_short_room room.now ≡ true }
    ensures { IfOk result (λ asked. asked ≡ spec_soft_of base room.now) }
{
    Ok(SoftAsked {
        base: base_of(base),
        room: room_of(alloc, room)?,
    })
}

/// The change that the entry asks: a volume or a pool is made. None of an entry of replicas, which no change of
/// a table makes. Which names there are, and what they are, is for the change to judge.
///
/// An entry that isn't `is_within` can't be told as a change.
pub fn change_of(alloc: Global, entry: &Entry) -> Result<Option<Change>, AllocError>
    requires { spec_is_within entry.now ≡ true }
    ensures value { IfOk result (λ change. change ≡ asked_of entry.now) }
    ensures numbered { IfOk result (λ change. IfSome change IsNumbered) }
{
    Ok(Some(match entry {
        Entry::Stripe { name, rows, spares } => Change::MakeStripe {
            volume: name.volume,
            rows: rows_of(alloc, rows.as_slice())?,
            spares: *spares,
        },
        Entry::Mirror {
            name,
            submirrors,
            options,
            pass,
        } => Change::MakeMirror {
            volume: name.volume,
            mirror: mirror_of(alloc, submirrors, *options, *pass)?,
        },
        Entry::Raid {
            name,
            columns,
            options,
        } => Change::MakeRaid {
            volume: name.volume,
            raid: raid_of(alloc, columns, *options)?,
        },
        Entry::Soft { name, base, room } => Change::MakeSoft {
            volume: name.volume,
            soft: soft_of(alloc, *base, room)?,
        },
        Entry::Pool { name, slices } => Change::AddSpares {
            pool: name.pool,
            new: true,
            spares: listed(alloc, slices.as_slice())?,
        },
        Entry::Replicas { .. } => return Ok(None),
    }))
}

// The volumes among the names.
fn volumes_in(alloc: Global, names: &[Named]) -> Result<Listed<VolId, MAX_NAMES>, AllocError>
    requires { length names.now ≤ 65536 }
    ensures { IfOk result (λ volumes. volumes ≡ flat_map volume_named names.now) }
{
    let mut volumes = Listed::new(alloc);
    for name in names {
        if let Named::Volume(volume) = *name {
            volumes.push(volume)?;
        }
    }
    Ok(volumes)
}

// The pools among them.
fn pools_in(alloc: Global, names: &[Named]) -> Result<Listed<PoolId, MAX_NAMES>, AllocError>
    requires { length names.now ≤ 65536 }
    ensures { IfOk result (λ pools. pools ≡ flat_map pool_named names.now) }
{
    let mut pools = Listed::new(alloc);
    for name in names {
        if let Named::Pool(pool) = *name {
            pools.push(pool)?;
        }
    }
    Ok(pools)
}

/// The change by which volumes and pools of these names go, all or none; or with each volume below them that nothing
/// else uses. There may be `MAX_NAMES` of them.
pub fn clearing_of(alloc: Global, names: &[Named], below: bool) -> Result<Change, AllocError>
    requires { spec_is_few names.now ≡ true }
    ensures { IfOk result (λ change. change ≡ spec_clearing_of names.now below) }
{
    let volumes = volumes_in(alloc, names)?;
    let pools = pools_in(alloc, names)?;
    Ok(if below {
        Change::ClearBelow { volumes, pools }
    } else {
        Change::Clear { volumes, pools }
    })
}

/// Whether a change can have a list of so many: `MAX_NAMES` at most.
pub fn is_few<T>(items: &[T]) -> bool
    ensures { result ≡ spec_is_few items.now }
{
    items.len() <= MAX_NAMES
}

fn is_volume(volume: VolId) -> bool
    ensures { result ≡ nat_lt volume.0 8192 }
{
    usize::from(volume.0) < MAX_VOLUMES
}

fn is_pool(pool: PoolId) -> bool
    ensures { result ≡ nat_lt pool.0 1000 }
{
    usize::from(pool.0) < MAX_POOLS
}

/// Whether a change can have a row of so many components: `MAX_NAMES` at most.
pub fn is_short_row(row: &Row) -> bool
    ensures { result ≡ spec_is_short_row row.now }
{
    is_few(row.components.as_slice())
}

fn has_short_rows(rows: &[Row]) -> bool
    ensures { result ≡ list_all spec_is_short_row rows.now }
{
    rows.iter().all(is_short_row)
}

fn is_short_room(room: &Room) -> bool
    ensures { result ≡ spec_is_short_room room.now }
{
    match room {
        Room::Size(_) => true,
        Room::Extents(extents) => is_few(extents.as_slice()),
    }
}

/// Whether a change can have the numbers and lists of the entry: numbers of volumes and pools below the limits,
/// and no list of more than `MAX_NAMES`.
pub fn is_within(entry: &Entry) -> bool
    ensures { result ≡ spec_is_within entry.now }
{
    match entry {
        Entry::Stripe { name, rows, .. } => {
            let rows = rows.as_slice();
            is_volume(name.volume) && is_few(rows) && has_short_rows(rows)
        }
        Entry::Mirror {
            name,
            submirrors,
            ..
        } => is_volume(name.volume) && is_few(submirrors.as_slice()),
        Entry::Raid { name, columns, .. } => {
            is_volume(name.volume) && is_few(columns.as_slice())
        }
        Entry::Soft { name, room, .. } => is_volume(name.volume) && is_short_room(room),
        Entry::Pool { name, slices } => is_pool(name.pool) && is_few(slices.as_slice()),
        Entry::Replicas { .. } => true,
    }
}
