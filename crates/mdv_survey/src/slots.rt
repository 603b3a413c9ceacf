// What the slots of a replica have: whether both of them fit, and the newest table.
ghost use Rattle.std.specs.Prelude.{◌≡◌, IfOk};
ghost use Rattle.mdv_shelf.specs.Shelves.{DriveFailures};
ghost use Rattle.mdv_shelf.specs.Tale.{last};
ghost use Rattle.mdv_name.specs.Sound.{IsSound};
ghost use Rattle.mdv_replica.specs.Form.{IsNewest, IsSpareSlot, gate_of};
ghost use Rattle.mdv_replica.specs.Replica.{IsPlaced, slot_blocks};
ghost use Rattle.mdv_survey.specs.Counts.{AreReadFor, AreSlotsBy, IsHeldCounted, IsSlotBy, ReadOn, reads_of};
ghost use Rattle.mdv_survey.specs.Slots.{AreSlots, IsHeld, IsHeldAnswer, IsNewestRead, IsSlotsAnswer, OnlyReads};

use crate::body::{Body, ReadFault};
use crate::head::{gate_of_slot, other_slot, shows, spare_slot};
use crate::replica::Shown;
use mdv_base::Mark;
use mdv_name::Geometry;
use mdv_plan::Table;
use mdv_replica::{Gate, Head, PlaceAt, Slot};
use mdv_shelf::Shelf;
use std::alloc::Global;

/// The slots of a readable replica, with its newest table, where it shows one.
#[derive(Drop)]
pub(crate) struct Slots {
    pub(crate) newest: Option<Shown>,
}

// What a slot has.
#[derive(Drop)]
pub(crate) enum Held {
    Nothing,
    Kept(Mark, Table),
    // It is open, and its body isn't the record of a table.
    Other,
}

/// Reads the bodies of the open slots, the newest one's last. None where one isn't a record.
pub(crate) fn slots_at<S: Shelf>(
    shelf: &mut S,
    alloc: Global,
    geometry: &Geometry,
    at: PlaceAt,
    head: &Head,
    body: &mut Body,
) -> Result<Option<Slots>, ReadFault>
    requires sound { IsSound geometry.now }
    requires placed { IsPlaced (S.sizes shelf.old) at }
    requires whole { body.old ≡ slot_blocks at.place.blocks }
    ensures whole { body.new ≡ body.old }
    ensures answer { IsSlotsAnswer (DriveFailures S.Shelf shelf.old shelf.new at.drive.0) head.now result }
    ensures reads { OnlyReads S.Shelf (λ t. IfOk result (AreSlots geometry.now at head.now (last t at.drive.0))) shelf.old shelf.new }
    ensures counted { AreSlotsBy S.Shelf geometry.now at head.now shelf.old shelf.new result }
    ensures kept { ReadOn S.Shelf shelf.old shelf.new at.drive.0 }
{
    if !shows(head) {
        return Ok(Some(Slots { newest: None }));
    }
    let spare = spare_slot(head);
    let gate = gate_of_slot(head, spare);
    match read_slot(shelf, alloc, geometry, at, spare, gate, body)? {
        Held::Other => Ok(None),
        Held::Nothing | Held::Kept(_, _) => {
            newest_slot(shelf, alloc, geometry, at, head, other_slot(spare), body)
        }
    }
}

// Reads the slot with the newest table.
fn newest_slot<S: Shelf>(
    shelf: &mut S,
    alloc: Global,
    geometry: &Geometry,
    at: PlaceAt,
    head: &Head,
    slot: Slot,
    body: &mut Body,
) -> Result<Option<Slots>, ReadFault>
    requires sound { IsSound geometry.now }
    requires placed { IsPlaced (S.sizes shelf.old) at }
    requires whole { body.old ≡ slot_blocks at.place.blocks }
    requires newest { IsNewest head.now slot }
    requires tie { slot ≡ Slot.First → IsSpareSlot head.now Slot.First → ⊥ }
    ensures whole { body.new ≡ body.old }
    ensures answer { IsSlotsAnswer (DriveFailures S.Shelf shelf.old shelf.new at.drive.0) head.now result }
    ensures reads { OnlyReads S.Shelf (λ t. IfOk result (IsNewestRead geometry.now at head.now slot (last t at.drive.0))) shelf.old shelf.new }
    ensures counted { AreReadFor S.Shelf shelf.old shelf.new (reads_of (gate_of head.now slot)) (IsSlotBy at.place.blocks (gate_of head.now slot)) result }
    ensures kept { ReadOn S.Shelf shelf.old shelf.new at.drive.0 }
{
    let gate = gate_of_slot(head, slot);
    match read_slot(shelf, alloc, geometry, at, slot, gate, body)? {
        Held::Kept(mark, table) => Ok(Some(Slots {
            newest: Some(Shown { slot, mark, table }),
        })),
        Held::Nothing | Held::Other => Ok(None),
    }
}

fn read_slot<S: Shelf>(
    shelf: &mut S,
    alloc: Global,
    geometry: &Geometry,
    at: PlaceAt,
    slot: Slot,
    gate: Gate,
    body: &mut Body,
) -> Result<Held, ReadFault>
    requires sound { IsSound geometry.now }
    requires placed { IsPlaced (S.sizes shelf.old) at }
    requires whole { body.old ≡ slot_blocks at.place.blocks }
    ensures whole { body.new ≡ body.old }
    ensures answer { IsHeldAnswer (DriveFailures S.Shelf shelf.old shelf.new at.drive.0) gate result }
    ensures reads { OnlyReads S.Shelf (λ t. IfOk result (IsHeld geometry.now at slot gate (last t at.drive.0))) shelf.old shelf.new }
    ensures counted { IsHeldCounted S.Shelf shelf.old shelf.new at.place.blocks gate result }
    ensures kept { ReadOn S.Shelf shelf.old shelf.new at.drive.0 }
{
    match gate {
        Gate::Closed => Ok(Held::Nothing),
        Gate::Open { mark, bytes } => match body.read(shelf, alloc, geometry, at, slot, bytes)? {
            Some(table) => Ok(Held::Kept(mark, table)),
            None => Ok(Held::Other),
        },
    }
}
