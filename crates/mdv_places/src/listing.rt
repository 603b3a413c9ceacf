// How the table is written with both lists, and with the new one alone, and on which drives a call failed meanwhile.
ghost use Rattle.std.specs.Prelude.{◌≡◌, ◌≢◌, ◌<◌, ◌≤◌, length, vec_len, MatchOption, OnOk, Some};
ghost use Rattle.mdv_base.specs.DriveSet.{has_drive};
ghost use Rattle.mdv_shelf.specs.Shelves.{DriveFailures};
ghost use Rattle.mdv_store.specs.Listing.{IsLast, IsRoomFor, IsRoomy, IsSecond, WasListed, last_by, listed_by, seats_in, seats_then};
ghost use Rattle.mdv_store.specs.Seats.{AreLaid, drive_of};
ghost use Rattle.mdv_survey.specs.declared.replica.Replica.{Replica};
ghost use Rattle.mdv_places.specs.Losing.{AreApart, AreDrivesOf, AreLost, AreMissed, AreNumbered, HasJoined, is_lost};

use crate::asked::has_place;
use crate::forming::Hand;
use mdv_base::{DriveNo, DriveSet, Place};
use mdv_config::last_of;
use mdv_plan::Lists;
use mdv_shelf::Shelf;
use mdv_store::{Seat, Share, Store};

// Writes the table with both lists. On `Ok` the drives on which a call failed are lost too.
pub(crate) fn list_both<S: Shelf>(
    store: &mut Store,
    shelf: &mut S,
    lists: Lists,
    hand: Hand,
    lost: &mut DriveSet,
) -> Result<(), Share>
    requires few { length (S.sizes shelf.old) ≤ 256 }
    requires laid { AreLaid (S.sizes shelf.old) (seats_then hand.seats store.old.seats) }
    requires second { IsSecond store.old lists (seats_then hand.seats store.old.seats) }
    requires room { MatchOption hand.room (IsRoomy store.old lists) (λ (r : _). IsRoomFor lists (vec_len r)) }
    requires apart { AreApart lost.old (seats_then hand.seats store.old.seats) }
    ensures listed { WasListed S.Shelf shelf.old shelf.new (listed_by store.old lists (seats_then hand.seats store.old.seats)) store.new result }
    ensures lost { OnOk result (AreLost (DriveFailures S.Shelf shelf.old shelf.new) lost.old lost.new store.new.seats) }
{
    let Hand { seats, room } = hand;
    let tried = match &seats {
        Some(seats) => active_drives(seats.as_slice()),
        None => active_drives(store.seats()),
    };
    store.list_both(shelf, lists, seats, room)?;
    leave(lost, &tried, &active_drives(store.seats()));
    Ok(())
}

// Writes it with the new list alone. On `Ok` the drives on which a call failed are lost too.
pub(crate) fn list_last<S: Shelf>(
    store: &mut Store,
    shelf: &mut S,
    lost: &mut DriveSet,
) -> Result<(), Share>
    requires few { length (S.sizes shelf.old) ≤ 256 }
    requires laid { AreLaid (S.sizes shelf.old) store.old.seats }
    requires last { IsLast store.old }
    requires apart { AreApart lost.old store.old.seats }
    ensures listed { WasListed S.Shelf shelf.old shelf.new (last_by store.old) store.new result }
    ensures lost { OnOk result (AreLost (DriveFailures S.Shelf shelf.old shelf.new) lost.old lost.new store.new.seats) }
{
    let tried = listed_drives(store.seats(), last_of(&store.table().plan.lists));
    store.list_last(shelf)?;
    leave(lost, &tried, &active_drives(store.seats()));
    Ok(())
}

// The drives of the active places.
fn active_drives(seats: &[Seat]) -> DriveSet
    requires { AreNumbered seats.now }
    ensures { AreDrivesOf result seats.now }
{
    let mut drives = DriveSet::new();
    for seat in seats {
        add_drive(&mut drives, seat);
    }
    drives
}

// Those of a list's places alone.
fn listed_drives(seats: &[Seat], list: &[Place]) -> DriveSet
    requires { AreNumbered seats.now }
    ensures { AreDrivesOf result (seats_in list.now seats.now) }
{
    let mut drives = DriveSet::new();
    for seat in seats {
        if has_place(list, &seat.place) {
            add_drive(&mut drives, seat);
        }
    }
    drives
}

fn add_drive(drives: &mut DriveSet, seat: &Seat)
    requires { (r : Replica) → seat.now.replica ≡ Some r → drive_of r < 256 }
    ensures { HasJoined drives.old seat.now.replica drives.new }
{
    if let Some(replica) = seat.replica {
        drives.insert(replica.line.at.drive);
    }
}

// The drives that were tried, and that aren't up any more, are lost too.
fn leave(lost: &mut DriveSet, tried: &DriveSet, up: &DriveSet)
    ensures { AreMissed 256 lost.old tried.now up.now lost.new }
{
    for number in 0..256 {
        leave_drive(lost, tried, up, DriveNo(number));
    }
}

fn leave_drive(lost: &mut DriveSet, tried: &DriveSet, up: &DriveSet, drive: DriveNo)
    requires { drive.0 < 256 }
    ensures here { has_drive lost.new drive ≡ is_lost lost.old tried.now up.now drive }
    ensures others { (other : DriveNo) → other ≢ drive → has_drive lost.new other ≡ has_drive lost.old other }
{
    if tried.contains(drive) && !up.contains(drive) {
        lost.insert(drive);
    }
}
