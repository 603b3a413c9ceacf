ghost use Rattle.std.specs.Prelude.{◌≡◌, ◌+◌, ◌<◌, ◌≤◌, [], length, OnOk};
ghost use Rattle.mdv_map.specs.Maps.{IsDisjoint};
ghost use Rattle.mdv_map.specs.Requests.{AllRead, Rewriting};
ghost use Rattle.mdv_shelf.specs.Shelves.{AtEachTale, AtEnd};
ghost use Rattle.mdv_dev.specs.Drives.{KeptOnDrives};
ghost use Rattle.mdv_dev.specs.Pieces.{IsOn};
ghost use Rattle.mdv_dev.specs.Works.{AreOnDisk, IsRange, TakesReads};
ghost use Rattle.mdv_dev.specs.Writing.{IsTold, TakesWrite};

use crate::syncing::sync_all;
use crate::{Placed, Work, WorkKind, finish};
use mdv_base::{Block, DriveNo, DriveSet, Failed};
use mdv_shelf::Shelf;

/// Reads blocks of the device, from block `at` of it on, with one call for each piece of them. Where a call failed, its
/// drive is told, and `out` holds anything.
pub fn read_blocks<D: Placed, S: Shelf>(
    device: &D,
    shelf: &mut S,
    at: u64,
    out: &mut [Block],
) -> Result<(), DriveNo>
    requires well { D.IsWell device.now }
    requires on { IsOn (S.sizes shelf.old) (D.map device.now) }
    requires disjoint { IsDisjoint (D.map device.now) }
    requires range { IsRange (D.map device.now) at (length out.old) }
    ensures moments { AtEachTale S.Shelf (Rewriting (D.map device.now) at []) shelf.old shelf.new }
    ensures same { S.tale shelf.new ≡ S.tale shelf.old }
    ensures read { OnOk result (AtEnd S.Shelf (λ _ u. AllRead (D.map device.now) at out.new u) shelf.old shelf.new) }
    ensures counted { TakesReads S.Shelf shelf.old shelf.new (D.map device.now) at (length out.old) result }
    ensures kept { KeptOnDrives S.Shelf shelf.old shelf.new (D.map device.now) at (length out.old) }
{
    let mut work = Work {
        kind: WorkKind::Read,
        at,
        count: out.len() as u64,
        done: 0,
    };
    finish(device, shelf, &mut work, out)?;
    Ok(())
}

/// Writes blocks of the device, from block `at` of it on, with one call for each piece of them, and then syncs each
/// drive that they lie on, once. Where a call failed, nothing more is written, each of the blocks may be old or new, and
/// each other drive is synced all the same: the drives that failed are added to `failed`. The buffer stays as it is.
pub fn write_blocks<D: Placed, S: Shelf>(
    device: &D,
    shelf: &mut S,
    at: u64,
    from: &mut [Block],
    failed: &mut DriveSet,
) -> Result<(), Failed>
    requires well { D.IsWell device.now }
    requires on { IsOn (S.sizes shelf.old) (D.map device.now) }
    requires disjoint { IsDisjoint (D.map device.now) }
    requires range { IsRange (D.map device.now) at (length from.old) }
    requires few { length (S.sizes shelf.old) ≤ 256 }
    ensures moments { AtEachTale S.Shelf (Rewriting (D.map device.now) at from.old) shelf.old shelf.new }
    ensures written { OnOk result (AtEnd S.Shelf (λ _ u. AreOnDisk (D.map device.now) at from.old u) shelf.old shelf.new) }
    ensures told { IsTold S.Shelf shelf.old shelf.new (D.map device.now) at (length from.old) failed.old failed.new result × (from.new ≡ from.old) }
    ensures counted { TakesWrite S.Shelf shelf.old shelf.new (D.map device.now) at (length from.old) result }
    ensures kept { KeptOnDrives S.Shelf shelf.old shelf.new (D.map device.now) at (length from.old) }
{
    let count = from.len() as u64;
    let mut work = Work {
        kind: WorkKind::Write,
        at,
        count,
        done: 0,
    };
    match finish(device, shelf, &mut work, from) {
        Ok(()) => sync_all(device, shelf, at, count, None, failed),
        Err(drive) => {
            failed.insert(drive);
            let _synced = sync_all(device, shelf, at, count, Some(drive), failed);
            Err(Failed)
        }
    }
}
