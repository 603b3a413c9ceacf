// How the drives of a write are synced.
ghost use Rattle.std.specs.Prelude.{◌≡◌, ℕ, ◌+◌, ◌≤◌, ◌<◌, [], length, if◌then◌else◌};
ghost use Rattle.mdv_map.specs.Maps.{Map};
ghost use Rattle.mdv_map.specs.Requests.{Rewriting};
ghost use Rattle.mdv_shelf.specs.Shelves.{AtEachTale};
ghost use Rattle.mdv_dev.specs.Drives.{KeptWhere};
ghost use Rattle.mdv_dev.specs.Pieces.{IsOn};
ghost use Rattle.mdv_dev.specs.Syncs.{AreSynced, MadeSyncs, is_due, is_lost, is_that, syncs};

use crate::Placed;
use crate::work::next_drive;
use mdv_base::{DriveNo, DriveSet, Failed};
use mdv_shelf::Shelf;

/// Syncs each drive that these blocks lie on, once, but the one that is lost. Where a sync fails, it goes on with the other drives: all
/// those on which one failed are added to `failed`.
pub(crate) fn sync_all<D: Placed, S: Shelf>(
    device: &D,
    shelf: &mut S,
    at: u64,
    count: u64,
    lost: Option<DriveNo>,
    failed: &mut DriveSet,
) -> Result<(), Failed>
    requires well { D.IsWell device.now }
    requires on { IsOn (S.sizes shelf.old) (D.map device.now) }
    requires within { at + count ≤ (D.map device.now).blocks }
    requires few { length (S.sizes shelf.old) ≤ 256 }
    ensures moments { AtEachTale S.Shelf (Rewriting (D.map device.now) at []) shelf.old shelf.new }
    ensures synced { AreSynced S.Shelf shelf.old shelf.new (is_due (D.map device.now) at lost count) failed.old failed.new result }
    ensures counted { MadeSyncs S.Shelf shelf.old shelf.new (syncs (D.map device.now) at lost count) }
    ensures kept { KeptWhere S.Shelf shelf.old shelf.new (is_due (D.map device.now) at lost count) }
{
    let mut result = Ok(());
    let mut place = 0;
    while place < count {
        let piece = device.piece(at + place, count - place);
        let synced = sync_one(shelf, piece.drive, lost, failed);
        result = result.and(synced);
        place = next_drive(device, at, place + piece.count, count);
    }
    result
}

// Syncs the drive, unless it is the one that is lost. Where that fails, it is added to the set.
fn sync_one<S: Shelf>(
    shelf: &mut S,
    drive: DriveNo,
    lost: Option<DriveNo>,
    failed: &mut DriveSet,
) -> Result<(), Failed>
    requires known { drive.0 < length (S.sizes shelf.old) }
    requires few { length (S.sizes shelf.old) ≤ 256 }
    ensures moments { (v : Map) (at : ℕ) → AtEachTale S.Shelf (Rewriting v at []) shelf.old shelf.new }
    ensures synced { AreSynced S.Shelf shelf.old shelf.new (is_that lost drive.0) failed.old failed.new result }
    ensures counted { MadeSyncs S.Shelf shelf.old shelf.new (if is_lost lost drive.0 then 0 else 1) }
    ensures kept { KeptWhere S.Shelf shelf.old shelf.new (is_that lost drive.0) }
{
    if is_left_out(lost, drive) {
        return Ok(());
    }
    match shelf.sync(drive) {
        Ok(()) => Ok(()),
        Err(fault) => {
            failed.insert(drive);
            Err(fault)
        }
    }
}

fn is_left_out(lost: Option<DriveNo>, drive: DriveNo) -> bool
    ensures { result ≡ is_lost lost drive.0 }
{
    match lost {
        Some(lost) => drive.0 == lost.0,
        None => false,
    }
}
