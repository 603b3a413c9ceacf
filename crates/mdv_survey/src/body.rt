// The text of a table in a slot, and how it is read from there.
ghost use Rattle.std.specs.Prelude.{◌≡◌, ◌≤◌, ◌*◌, length, take, IfOk, IfErr};
ghost use Rattle.std.specs.List.{flat_map};
ghost use Rattle.mdv_shelf.specs.Shelves.{DriveFailures, MadeCalls};
ghost use Rattle.mdv_shelf.specs.Tale.{last};
ghost use Rattle.mdv_name.specs.Sound.{IsSound};
ghost use Rattle.mdv_replica.specs.Replica.{IsPlaced, slot_blocks as spec_slot_blocks};
ghost use Rattle.mdv_survey.specs.Counts.{AreReadFor, IsTextBy, ReadOn, blocks_for as spec_blocks_for};
ghost use Rattle.mdv_survey.specs.Slots.{IsFoundText, IsRead, OnlyReads, ReadAnswer};

use mdv_base::{BLOCK_BYTES, Block, Failed, ZERO_BLOCK};
use mdv_encoding::decode;
use mdv_fields::RecordError;
use mdv_name::Geometry;
use mdv_plan::Table;
use mdv_replica::{PlaceAt, Slot, read_body};
use mdv_shelf::Shelf;
use std::alloc::{AllocError, Global};
use std::marker::Model;

/// Room for the longest text that a slot takes, in whole blocks. What it holds between two calls is no part
/// of its value.
#[derive(Drop)]
pub(crate) struct Body {
    blocks: Vec<Block>,
}

impl Model for Body {
    ghost use Rattle.std.specs.Prelude.{ℕ, vec_len};

    ghost Value = { ℕ };

    ghost view = { λ b. vec_len b.blocks };
}

/// Why nothing is read: a call on the drive failed, or memory was refused.
#[derive(Clone, Copy, Debug, PartialEq, Eq)]
pub(crate) enum ReadFault {
    Failed,
    Memory,
}

impl From<AllocError> for ReadFault {
    ghost use Rattle.mdv_survey.specs.declared.body.ReadFault.TheVariants.{Memory};

    ghost from_gives = { λ _ fault. fault ≡ Memory };

    fn from(_error: AllocError) -> ReadFault {
        ReadFault::Memory
    }
}

impl From<Failed> for ReadFault {
    ghost use Rattle.mdv_survey.specs.declared.body.ReadFault.TheVariants.{Failed};

    ghost from_gives = { λ _ fault. fault ≡ Failed };

    fn from(_error: Failed) -> ReadFault {
        ReadFault::Failed
    }
}

impl Body {
    /// Room for a slot of a replica of that length.
    pub(crate) fn new(alloc: Global, blocks: u32) -> Result<Body, AllocError>
        requires { 4 ≤ blocks }
        ensures { IfOk result (λ b. b ≡ spec_slot_blocks blocks) }
    {
        Ok(Body {
            blocks: vec![in alloc; ZERO_BLOCK; slot_blocks(blocks)]?,
        })
    }

    /// The table of this table of drives whose record of so many bytes the slot has. A text that doesn't fit the slot isn't read.
    pub(crate) fn read<S: Shelf>(
        &mut self,
        shelf: &mut S,
        alloc: Global,
        geometry: &Geometry,
        at: PlaceAt,
        slot: Slot,
        bytes: u32,
    ) -> Result<Option<Table>, ReadFault>
        requires sound { IsSound geometry.now }
        requires placed { IsPlaced (S.sizes shelf.old) at }
        requires whole { self.old ≡ spec_slot_blocks at.place.blocks }
        ensures whole { self.new ≡ self.old }
        ensures answer { ReadAnswer (DriveFailures S.Shelf shelf.old shelf.new at.drive.0) result }
        ensures reads { OnlyReads S.Shelf (λ t. IfOk result (IsRead geometry.now at slot bytes (last t at.drive.0))) shelf.old shelf.new }
        ensures counted { AreReadFor S.Shelf shelf.old shelf.new 1 (IsTextBy at.place.blocks bytes) result }
        ensures kept { ReadOn S.Shelf shelf.old shelf.new at.drive.0 }
    {
        let count = blocks_for(bytes);
        if self.blocks.len() < count {
            return Ok(None);
        }
        read_table(
            shelf,
            alloc,
            geometry,
            at,
            slot,
            bytes,
            &mut self.blocks[..count],
        )
    }
}

fn slot_blocks(blocks: u32) -> usize
    requires { 4 ≤ blocks }
    ensures { result ≡ spec_slot_blocks blocks }
{
    ((blocks - 4) / 2) as usize
}

// How many blocks are read for a text of so many bytes: one at least.
fn blocks_for(bytes: u32) -> usize
    ensures { result ≡ spec_blocks_for bytes }
{
    (bytes as usize).div_ceil(BLOCK_BYTES).max(1)
}

fn read_table<S: Shelf>(
    shelf: &mut S,
    alloc: Global,
    geometry: &Geometry,
    at: PlaceAt,
    slot: Slot,
    bytes: u32,
    body: &mut [Block],
) -> Result<Option<Table>, ReadFault>
    requires sound { IsSound geometry.now }
    requires placed { IsPlaced (S.sizes shelf.old) at }
    requires count { length body.old ≡ spec_blocks_for bytes }
    requires in_slot { length body.old ≤ spec_slot_blocks at.place.blocks }
    ensures answer { ReadAnswer (DriveFailures S.Shelf shelf.old shelf.new at.drive.0) result }
    ensures reads { OnlyReads S.Shelf (λ t. IfOk result (IsRead geometry.now at slot bytes (last t at.drive.0))) shelf.old shelf.new }
    ensures counted { MadeCalls S.Shelf shelf.old shelf.new 1 0 }
    ensures kept { ReadOn S.Shelf shelf.old shelf.new at.drive.0 }
{
    match read_body(shelf, at, slot, body) {
        Ok(()) => table_in(alloc, geometry, bytes, body),
        Err(Failed) => Err(ReadFault::Failed),
    }
}

// The table whose record the front of the body is.
fn table_in(
    alloc: Global,
    geometry: &Geometry,
    bytes: u32,
    body: &[Block],
) -> Result<Option<Table>, ReadFault>
    requires sound { IsSound geometry.now }
    requires within { bytes ≤ 512 * length body.now }
    ensures table { IfOk result (IsFoundText geometry.now (take bytes (flat_map (λ x. x) body.now))) }
    ensures memory { IfErr result (λ fault. fault ≡ ReadFault.Memory) }
    ensures size { length (flat_map (λ x. x) body.now) ≡ 512 * length body.now }
{
    let text = &body.as_flattened()[..bytes as usize];
    match decode(alloc, geometry, text) {
        Ok(table) => Ok(Some(table)),
        Err(RecordError::NotARecord) => Ok(None),
        Err(RecordError::Memory) => Err(ReadFault::Memory),
    }
}
