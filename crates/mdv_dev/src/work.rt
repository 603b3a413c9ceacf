ghost use Rattle.std.specs.Prelude.{◌≡◌, ℕ, ◌+◌, ◌-◌, ◌<◌, ◌≤◌, true, false, [], length};
ghost use Rattle.mdv_map.specs.Maps.{IsDisjoint};
ghost use Rattle.mdv_shelf.specs.Shelves.{AtEnd, DriveFailures};
ghost use Rattle.mdv_dev.specs.Drives.{KeptOnDrives};
ghost use Rattle.mdv_dev.specs.Pieces.{IsOn, has_drive, is_new};
ghost use Rattle.mdv_dev.specs.Works.{Carries, IsFinished, IsOpen, IsRewriting, IsTurned, IsTurnCounted, MakesTurns};

use crate::Placed;
use mdv_base::{Block, DriveNo};
use mdv_shelf::Shelf;

/// What is done to blocks of a device: they are read, written, or put on the disk.
#[derive(Clone, Copy, Debug, PartialEq, Eq)]
pub enum WorkKind {
    Read,
    Write,
    Flush,
}

/// A request for so many blocks of a device, from block `at` of it on, of which so many are done.
#[derive(Clone, Copy, Debug)]
pub struct Work {
    pub kind: WorkKind,
    pub at: u64,
    pub count: u64,
    pub done: u64,
}

/// One call on one drive: the next piece is read or written, or the next drive is synced. The buffer has a block for
/// each one of a read or a write, and is any for a flush. Where the call failed, the drive is told, and the blocks of a read that
/// aren't done are anything.
pub fn turn<D: Placed, S: Shelf>(
    device: &D,
    shelf: &mut S,
    work: &mut Work,
    buffer: &mut [Block],
) -> Result<(), DriveNo>
    requires well { D.IsWell device.now }
    requires on { IsOn (S.sizes shelf.old) (D.map device.now) }
    requires disjoint { IsDisjoint (D.map device.now) }
    requires open { IsOpen (D.map device.now) work.old (length buffer.old) }
    ensures moments { IsRewriting S.Shelf shelf.old shelf.new (D.map device.now) work.old buffer.old }
    ensures done { AtEnd S.Shelf (Carries (D.map device.now) work.old buffer.old work.new buffer.new) shelf.old shelf.new }
    ensures turned { IsTurned (D.map device.now) (DriveFailures S.Shelf shelf.old shelf.new) work.old buffer.old work.new buffer.new result }
    ensures counted { IsTurnCounted S.Shelf shelf.old shelf.new work.old work.new result }
    ensures kept { KeptOnDrives S.Shelf shelf.old shelf.new (D.map device.now) work.old.at work.old.count }
{
    match work.kind {
        WorkKind::Read => read_piece(device, shelf, work, buffer),
        WorkKind::Write => write_piece(device, shelf, work, buffer),
        WorkKind::Flush => sync_drive(device, shelf, work),
    }
}

/// All that is left of the request, turn after turn: each piece is read or written with one call, or each drive synced
/// once. Where a call failed, its drive is told.
pub fn finish<D: Placed, S: Shelf>(
    device: &D,
    shelf: &mut S,
    work: &mut Work,
    buffer: &mut [Block],
) -> Result<(), DriveNo>
    requires well { D.IsWell device.now }
    requires on { IsOn (S.sizes shelf.old) (D.map device.now) }
    requires disjoint { IsDisjoint (D.map device.now) }
    requires open { IsOpen (D.map device.now) work.old (length buffer.old) }
    ensures moments { IsRewriting S.Shelf shelf.old shelf.new (D.map device.now) work.old buffer.old }
    ensures done { AtEnd S.Shelf (Carries (D.map device.now) work.old buffer.old work.new buffer.new) shelf.old shelf.new }
    ensures finished { IsFinished (D.map device.now) (DriveFailures S.Shelf shelf.old shelf.new) work.old buffer.old work.new buffer.new result }
    ensures counted { MakesTurns S.Shelf shelf.old shelf.new (D.map device.now) work.old work.new result }
    ensures kept { KeptOnDrives S.Shelf shelf.old shelf.new (D.map device.now) work.old.at work.old.count }
{
    while work.done < work.count {
        turn(device, shelf, work, buffer)?;
    }
    Ok(())
}

fn read_piece<D: Placed, S: Shelf>(
    device: &D,
    shelf: &mut S,
    work: &mut Work,
    out: &mut [Block],
) -> Result<(), DriveNo>
    requires kind { work.old.kind ≡ WorkKind.Read }
    requires well { D.IsWell device.now }
    requires on { IsOn (S.sizes shelf.old) (D.map device.now) }
    requires disjoint { IsDisjoint (D.map device.now) }
    requires open { IsOpen (D.map device.now) work.old (length out.old) }
    ensures moments { IsRewriting S.Shelf shelf.old shelf.new (D.map device.now) work.old out.old }
    ensures done { AtEnd S.Shelf (Carries (D.map device.now) work.old out.old work.new out.new) shelf.old shelf.new }
    ensures turned { IsTurned (D.map device.now) (DriveFailures S.Shelf shelf.old shelf.new) work.old out.old work.new out.new result }
    ensures counted { IsTurnCounted S.Shelf shelf.old shelf.new work.old work.new result }
    ensures kept { KeptOnDrives S.Shelf shelf.old shelf.new (D.map device.now) work.old.at work.old.count }
{
    let piece = device.piece(work.at + work.done, work.count - work.done);
    let end = work.done + piece.count;
    let blocks = &mut out[work.done as usize..end as usize];
    match shelf.read(piece.drive, piece.block, blocks) {
        Ok(()) => {
            work.done = end;
            Ok(())
        }
        Err(_) => Err(piece.drive),
    }
}

fn write_piece<D: Placed, S: Shelf>(
    device: &D,
    shelf: &mut S,
    work: &mut Work,
    from: &[Block],
) -> Result<(), DriveNo>
    requires kind { work.old.kind ≡ WorkKind.Write }
    requires well { D.IsWell device.now }
    requires on { IsOn (S.sizes shelf.old) (D.map device.now) }
    requires disjoint { IsDisjoint (D.map device.now) }
    requires open { IsOpen (D.map device.now) work.old (length from.now) }
    ensures moments { IsRewriting S.Shelf shelf.old shelf.new (D.map device.now) work.old from.now }
    ensures done { AtEnd S.Shelf (Carries (D.map device.now) work.old from.now work.new from.now) shelf.old shelf.new }
    ensures turned { IsTurned (D.map device.now) (DriveFailures S.Shelf shelf.old shelf.new) work.old from.now work.new from.now result }
    ensures counted { IsTurnCounted S.Shelf shelf.old shelf.new work.old work.new result }
    ensures kept { KeptOnDrives S.Shelf shelf.old shelf.new (D.map device.now) work.old.at work.old.count }
{
    let piece = device.piece(work.at + work.done, work.count - work.done);
    let end = work.done + piece.count;
    let blocks = &from[work.done as usize..end as usize];
    match shelf.write(piece.drive, piece.block, blocks) {
        Ok(()) => {
            work.done = end;
            Ok(())
        }
        Err(_) => Err(piece.drive),
    }
}

fn sync_drive<D: Placed, S: Shelf>(
    device: &D,
    shelf: &mut S,
    work: &mut Work,
) -> Result<(), DriveNo>
    requires kind { work.old.kind ≡ WorkKind.Flush }
    requires well { D.IsWell device.now }
    requires on { IsOn (S.sizes shelf.old) (D.map device.now) }
    requires open { IsOpen (D.map device.now) work.old 0 }
    ensures moments { IsRewriting S.Shelf shelf.old shelf.new (D.map device.now) work.old [] }
    ensures done { AtEnd S.Shelf (Carries (D.map device.now) work.old [] work.new []) shelf.old shelf.new }
    ensures turned { IsTurned (D.map device.now) (DriveFailures S.Shelf shelf.old shelf.new) work.old [] work.new [] result }
    ensures counted { IsTurnCounted S.Shelf shelf.old shelf.new work.old work.new result }
    ensures kept { KeptOnDrives S.Shelf shelf.old shelf.new (D.map device.now) work.old.at work.old.count }
{
    let piece = device.piece(work.at + work.done, work.count - work.done);
    match shelf.sync(piece.drive) {
        Ok(()) => {
            work.done = next_drive(device, work.at, work.done + piece.count, work.count);
            Ok(())
        }
        Err(_) => Err(piece.drive),
    }
}

// The first block from that one on that lies on another drive than each of the request's blocks before it, or the end.
pub(crate) fn next_drive<D: Placed>(device: &D, at: u64, from: u64, count: u64) -> u64
    requires well { D.IsWell device.now }
    requires within { at + count ≤ (D.map device.now).blocks }
    requires some { from ≤ count }
    ensures behind { from ≤ result }
    ensures until { result ≤ count }
    ensures seen { (k : ℕ) → from ≤ k → k < result → is_new (D.map device.now) at k ≡ false }
    ensures first { result < count → is_new (D.map device.now) at result ≡ true }
{
    let mut place = from;
    while place < count {
        let piece = device.piece(at + place, count - place);
        if !is_seen(device, at, place, piece.drive) {
            return place;
        }
        place += piece.count;
    }
    count
}

// Whether one of the request's first blocks lies on the drive.
fn is_seen<D: Placed>(device: &D, at: u64, count: u64, drive: DriveNo) -> bool
    requires well { D.IsWell device.now }
    requires within { at + count ≤ (D.map device.now).blocks }
    ensures { result ≡ has_drive (D.map device.now) at count drive.0 }
{
    let mut place = 0;
    while place < count {
        let piece = device.piece(at + place, count - place);
        if piece.drive.0 == drive.0 {
            return true;
        }
        place += piece.count;
    }
    false
}
