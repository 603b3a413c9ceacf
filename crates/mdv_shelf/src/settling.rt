ghost use Rattle.std.specs.Prelude.{length, OnOk};
ghost use Rattle.mdv_base.specs.Causes.{HasCause};
ghost use Rattle.mdv_shelf.specs.Between.{MakesCalls};
ghost use Rattle.mdv_shelf.specs.Calls.{OnDrive, InDrive};
ghost use Rattle.mdv_shelf.specs.Moments.{Moments, Ends};
ghost use Rattle.mdv_shelf.specs.Settle.{Settling, IsSettled};
ghost use Rattle.mdv_shelf.specs.Shelves.{KeptOn};

use crate::Shelf;
use mdv_base::{Block, DriveNo, Failed};

/// Writes the blocks and puts them on the disk, with all that the drive was given before.
pub fn settle<S: Shelf>(
    shelf: &mut S,
    drive: DriveNo,
    at: u64,
    from: &[Block],
) -> Result<(), Failed>
    requires { InDrive (S.sizes shelf.old) drive.0 at (length from.now) }
    ensures moments { Moments (Settling drive.0 at from.now) (S.tale shelf.old) (S.tale shelf.new) }
    ensures settled { OnOk result (Ends (λ _ u. IsSettled drive.0 at from.now u) (S.tale shelf.old) (S.tale shelf.new)) }
    ensures cause { HasCause (S.faults shelf.old (OnDrive drive.0)) (S.faults shelf.new (OnDrive drive.0)) result }
    ensures counted { MakesCalls S.Shelf shelf.old shelf.new 2 (length from.now) result }
    ensures kept { KeptOn S.Shelf shelf.old shelf.new (OnDrive drive.0) }
{
    shelf.write(drive, at, from)?;
    shelf.sync(drive)?;
    Ok(())
}
