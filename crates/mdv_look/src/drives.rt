// How a boot brings drives up: block 0 of each is read, and the drive is synced.
ghost use Rattle.mdv_base.specs.Causes.{HasCause};
ghost use Rattle.mdv_shelf.specs.Calls.{OnDrive, InDrive, Syncs};
ghost use Rattle.mdv_shelf.specs.Drives.{AreDrives, KeptAmong};
ghost use Rattle.mdv_shelf.specs.Shelves.{AtEachTale, AtEnd, DriveFailures, KeptOn};
ghost use Rattle.mdv_look.specs.Bringing.{AreUpBy, BringingEnds, IsBringingCounted, IsTryCounted};
ghost use Rattle.mdv_look.specs.Quiet.{WritesNothing};

use mdv_base::{DriveNo, DriveSet, Failed, ZERO_BLOCK};
use mdv_shelf::Shelf;

/// Brings these drives up in their order, whatever came of those before: it reads the first block of each and syncs it, so that what is read of it
/// later no crash takes back. The ones of which both calls were answered are the set. Nothing is written.
pub fn bring_up<S: Shelf>(shelf: &mut S, drives: &[DriveNo]) -> DriveSet
    requires { AreDrives (S.sizes shelf.old) drives.now }
    ensures up { AreUpBy (DriveFailures S.Shelf shelf.old shelf.new) drives.now result }
    ensures moments { AtEachTale S.Shelf WritesNothing shelf.old shelf.new }
    ensures end { AtEnd S.Shelf (BringingEnds result drives.now) shelf.old shelf.new }
    ensures counted { IsBringingCounted S.Shelf shelf.old shelf.new drives.now result }
    ensures kept { KeptAmong S.Shelf shelf.old shelf.new drives.now }
{
    let mut up = DriveSet::new();
    for drive in drives {
        match try_drive(shelf, *drive) {
            Ok(()) => up.insert(*drive),
            Err(Failed) => {}
        }
    }
    up
}

// Reads the drive's first block and syncs it, so that what is read next no crash takes back.
fn try_drive<S: Shelf>(shelf: &mut S, drive: DriveNo) -> Result<(), Failed>
    requires { InDrive (S.sizes shelf.old) drive.0 0 1 }
    ensures cause { HasCause (S.faults shelf.old (OnDrive drive.0)) (S.faults shelf.new (OnDrive drive.0)) result }
    ensures tale { Syncs (S.tale shelf.old) drive.0 result (S.tale shelf.new) }
    ensures counted { IsTryCounted S.Shelf shelf.old shelf.new drive.0 result }
    ensures kept { KeptOn S.Shelf shelf.old shelf.new (OnDrive drive.0) }
{
    let mut first = [ZERO_BLOCK];
    shelf.read(drive, 0, &mut first)?;
    shelf.sync(drive)?;
    Ok(())
}
