// How a database with one place ends.
ghost use Rattle.std.specs.Prelude.{OnOk};
ghost use Rattle.mdv_shelf.specs.Shelves.{AtEachTale, AtEnd, DriveFailures};
ghost use Rattle.mdv_store.specs.Seats.{AreLaid};
ghost use Rattle.mdv_places.specs.Ending.{EndEnds, EndMoment, HasEnded, IsEndedBy, IsSole};

use mdv_base::Failed;
use mdv_replica::wipe;
use mdv_shelf::Shelf;
use mdv_store::Store;

/// Ends the database: blanks the master of its one place, and syncs it. The store is gone either way: where a call failed the place may show the
/// table still.
pub fn end<S: Shelf>(store: Store, shelf: &mut S) -> Result<(), Failed>
    requires laid { AreLaid (S.sizes shelf.old) store.seats }
    requires sole { IsSole store }
    ensures answer { HasEnded S.Shelf shelf.old shelf.new store result }
    ensures moments { AtEachTale S.Shelf (EndMoment store) shelf.old shelf.new }
    ensures by { IsEndedBy (DriveFailures S.Shelf shelf.old shelf.new) store result }
    ensures end { OnOk result (AtEnd S.Shelf (EndEnds store) shelf.old shelf.new) }
{
    let seat = store.seats()[0];
    let replica = seat.replica.unwrap();
    wipe(shelf, replica.at())?;
    Ok(())
}
