//! Where a boot looks for the replicas of a database, by the table of drives.
ghost use Rattle.std.specs.Prelude.{◌≡◌, ℕ, List, map, IfOk};
ghost use Rattle.mdv_name.specs.Sound.{IsSound};
ghost use Rattle.mdv_name.specs.declared.drive_line.DriveLine.{DriveLine};
ghost use Rattle.mdv_shown.specs.Sites.{site_of as spec_site_of, is_line_of as spec_is_line_of, is_reached as spec_is_reached, drives_from};
ghost use Rattle.mdv_shown.specs.Sites.{lines_of as spec_lines_of, takes_replicas as spec_takes_replicas};
ghost use Rattle.mdv_shown.specs.Sites.{is_slice_of as spec_is_slice_of, is_reached_at as spec_is_reached_at};

use mdv_base::{DriveNo, Key, SliceName};
use mdv_name::{DriveKind, Geometry, SliceLine};
use mdv_plan::meets_db;
use mdv_votes::Row;
use std::alloc::{AllocError, Global};

/// The least blocks of a slice with replicas: a boot looks at no shorter one, since the first replica begins at block 16 and
/// has 16 blocks at least.
pub const LEAST_BLOCKS: u64 = 32;

// The slice of each shared drive on which a set has its replicas.
const SET_SLICE: u8 = 7;

/// Where a boot looks for the replicas of a database.
#[derive(Drop)]
pub struct Site {
    /// Whose database it is.
    pub key: Key,
    /// The slices on which its replicas may lie, in the order of the table of drives.
    pub lines: Row<SliceLine>,
    /// The drives that are brought up before, in their order: also those without such a slice.
    pub drives: Row<DriveNo>,
    /// How many blocks each drive of the table has, by its number.
    pub sizes: Row<u64>,
}

/// The site of a database: of a host's own one the host's drives, and the slices there that are set aside for replicas; of a set the
/// shared drives and their slices 7. A slice that shares a block with another one set aside for replicas, or has fewer than 32 blocks, is
/// passed over. The work is linear in the slices; one set aside for replicas takes some ten look-ups by name.
pub fn site_of(alloc: Global, geometry: &Geometry, key: Key) -> Result<Site, AllocError>
    requires { IsSound geometry.now }
    ensures { IfOk result (λ site. site ≡ spec_site_of geometry.now key) }
{
    let lines = lines_of(alloc, geometry, &key)?;
    let drives = drives_of(alloc, geometry, &key)?;
    let sizes = sizes_of(alloc, geometry)?;
    Ok(Site {
        key,
        lines,
        drives,
        sizes,
    })
}

fn lines_of(alloc: Global, geometry: &Geometry, key: &Key) -> Result<Row<SliceLine>, AllocError>
    requires { IsSound geometry.now }
    ensures { IfOk result (λ lines. lines ≡ spec_lines_of geometry.now key.now) }
{
    let lines: Vec<SliceLine> = geometry
        .slices
        .as_slice()
        .iter()
        .copied()
        .filter(|line| is_line_of(geometry, key, *line))
        .collect(alloc)?;
    Row::from_slice(alloc, lines.as_slice())
}

fn drives_of(alloc: Global, geometry: &Geometry, key: &Key) -> Result<Row<DriveNo>, AllocError>
    ensures { IfOk result (λ drives. drives ≡ drives_from key.now 0 geometry.now.drives) }
{
    let mut drives = Row::new(alloc);
    for (number, line) in geometry.drives.as_slice().iter().enumerate() {
        if is_reached(key, line.kind) {
            drives.push(DriveNo(number as u32))?;
        }
    }
    Ok(drives)
}

fn sizes_of(alloc: Global, geometry: &Geometry) -> Result<Row<u64>, AllocError>
    ensures { IfOk result (λ sizes. sizes ≡ map (λ (line : DriveLine). line.blocks) geometry.now.drives) }
{
    let drives = geometry.drives.as_slice();
    let sizes: Vec<u64> = drives.iter().map(|line| line.blocks).collect(alloc)?;
    Row::from_slice(alloc, sizes.as_slice())
}

fn is_line_of(geometry: &Geometry, key: &Key, line: SliceLine) -> bool
    requires { IsSound geometry.now }
    ensures { result ≡ spec_is_line_of geometry.now key.now line }
{
    is_slice_of(key, line.name)
        && is_reached_at(geometry, key, line.at.drive)
        && takes_replicas(geometry, line)
}

fn is_slice_of(key: &Key, name: SliceName) -> bool
    ensures { result ≡ spec_is_slice_of key.now name }
{
    match key {
        Key::Local(_) => true,
        Key::Set(_) => name.slice == SET_SLICE,
    }
}

fn is_reached_at(geometry: &Geometry, key: &Key, drive: DriveNo) -> bool
    ensures { result ≡ spec_is_reached_at geometry.now key.now drive.0 }
{
    match geometry.drives.as_slice().get(drive.0 as usize) {
        Some(line) => is_reached(key, line.kind),
        None => false,
    }
}

fn is_reached(key: &Key, kind: DriveKind) -> bool
    ensures { result ≡ spec_is_reached key.now kind }
{
    match (key, kind) {
        (
            Key::Local(host),
            DriveKind::Own {
                drive: _,
                host: owner,
            },
        ) => { owner.as_bytes() == host.as_bytes() }
        (Key::Set(_), DriveKind::Shared { drive: _ }) => true,
        _ => false,
    }
}

/// Whether the slice of this line takes replicas, whosever they are.
pub fn takes_replicas(geometry: &Geometry, line: SliceLine) -> bool
    requires { IsSound geometry.now }
    ensures { result ≡ spec_takes_replicas geometry.now line }
{
    line.at.db && line.at.blocks >= LEAST_BLOCKS && !meets_db(geometry, line.name)
}
