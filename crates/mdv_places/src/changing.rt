// How the places of an open database change.
ghost use Rattle.std.specs.Prelude.{◌≡◌, length};
ghost use Rattle.mdv_shelf.specs.Drives.{KeptAmong};
ghost use Rattle.mdv_shelf.specs.Shelves.{AtEachTale, AtEnd};
ghost use Rattle.mdv_store.specs.Seats.{AreLaid};
ghost use Rattle.mdv_places.specs.Asked.{asked_of};
ghost use Rattle.mdv_places.specs.Answer.{MoveAnswer};
ghost use Rattle.mdv_places.specs.Changing.{MayMove, drives_moved};
ghost use Rattle.mdv_places.specs.Counts.{IsMoveCounted};
ghost use Rattle.mdv_places.specs.Moments.{MoveEnds, MoveMoment};

use crate::asked::{Move, copy_of, list_after, list_beside};
use crate::forming::{form, prepare};
use crate::listing::{list_both, list_last};
use mdv_acts::{wipe_each, wipe_order};
use mdv_base::{DriveSet, Failed};
use mdv_config::last_of;
use mdv_name::Geometry;
use mdv_plan::Lists;
use mdv_shelf::Shelf;
use mdv_store::{CommitFault, Share, Store};
use mdv_whole::TooLong;
use std::alloc::{AllocError, Global};

/// Why the places don't change.
#[derive(Clone, Copy, Debug, PartialEq, Eq)]
pub enum PlacesFault {
    /// A call failed as places were formatted. The lists are as before.
    Failed,
    /// The text of the table with both lists is longer than the smallest slot of their places; nothing was done.
    TooLong(TooLong),
    /// Of a list, the first one of which that is so, fewer than half of the places are active: nothing was done where it was so before, and else calls on
    /// their drives failed, and a crash may leave the old lists or the new ones. From then on nothing more is written.
    Lost { active: u32, listed: u32 },
    /// The count of the second mark would reach 2^63; nothing was done.
    Spent,
    /// Memory was refused; nothing was done.
    Memory,
}

impl From<AllocError> for PlacesFault {
    ghost use Rattle.mdv_places.specs.declared.changing.PlacesFault.TheVariants.{Memory};

    ghost from_gives = { λ _ fault. fault ≡ Memory };

    fn from(_error: AllocError) -> PlacesFault {
        PlacesFault::Memory
    }
}

impl From<Failed> for PlacesFault {
    ghost use Rattle.mdv_places.specs.declared.changing.PlacesFault.TheVariants.{Failed};

    ghost from_gives = { λ _ fault. fault ≡ Failed };

    fn from(_error: Failed) -> PlacesFault {
        PlacesFault::Failed
    }
}

impl From<Share> for PlacesFault {
    ghost use Rattle.mdv_places.specs.Changing.{lost_by};

    ghost from_gives = { λ share fault. fault ≡ lost_by share };

    fn from(share: Share) -> PlacesFault {
        PlacesFault::Lost {
            active: share.active,
            listed: share.listed,
        }
    }
}

impl From<CommitFault> for PlacesFault {
    ghost use Rattle.mdv_places.specs.Changing.{fault_of};

    ghost from_gives = { λ fault made. made ≡ fault_of fault };

    fn from(fault: CommitFault) -> PlacesFault {
        match fault {
            CommitFault::Lost { active, listed } => PlacesFault::Lost { active, listed },
            CommitFault::TooLong(fault) => PlacesFault::TooLong(fault),
            CommitFault::Spent => PlacesFault::Spent,
        }
    }
}

/// Changes the places of an open database. The places that are added are formatted, their masters blanked before as by a creation; then the table is
/// committed with both lists to the active places and the added ones, and behind that with the new list alone to the active ones of these. Then
/// the masters of the places that were dropped are blanked, slice after slice, of each slice the last one first, whichever calls fail, but none
/// on a drive on which a call has failed in this change. Tells whether all were blanked, which is so where no call failed on their drives. Where the
/// first place alone is left it takes no memory.
pub fn change_places<S: Shelf>(
    store: &mut Store,
    shelf: &mut S,
    alloc: Global,
    geometry: &Geometry,
    asked: &Move,
) -> Result<bool, PlacesFault>
    requires laid { AreLaid (S.sizes shelf.old) store.old.seats }
    requires asked { MayMove (S.sizes shelf.old) geometry.now store.old (asked_of asked.now) }
    ensures answer { MoveAnswer S.Shelf shelf.old shelf.new geometry.now store.old store.new (asked_of asked.now) result }
    ensures moments { AtEachTale S.Shelf (MoveMoment geometry.now store.old (asked_of asked.now)) shelf.old shelf.new }
    ensures end { AtEnd S.Shelf (MoveEnds geometry.now store.old store.new (asked_of asked.now) result) shelf.old shelf.new }
    ensures counted { IsMoveCounted S.Shelf shelf.old shelf.new geometry.now store.old (asked_of asked.now) store.new result }
    ensures kept { KeptAmong S.Shelf shelf.old shelf.new (drives_moved geometry.now store.old (asked_of asked.now)) }
{
    let was = copy_of(last_of(&store.table().plan.lists));
    let next = list_after(was.as_slice(), asked);
    let dropped = list_beside(next.as_slice(), was.as_slice());
    let lists = Lists::Two(was, next);
    store.check_lists(&lists)?;
    let hand = prepare(alloc, store, &lists, asked)?;
    form(shelf, store, asked)?;
    let mut lost = DriveSet::new();
    list_both(store, shelf, lists, hand, &mut lost)?;
    list_last(store, shelf, &mut lost)?;
    let ordered = wipe_order(dropped.as_slice());
    Ok(wipe_each(shelf, geometry, ordered.as_slice(), &mut lost))
}
