// A replica of L blocks: the master in block 0, the claim in block 1, the gates of the two slots in
// blocks 2 and 3, and behind them the bodies of the slots, (L - 4) / 2 blocks each.
ghost use Rattle.std.specs.Prelude.{◌≡◌, ◌<◌, ◌≤◌, ◌+◌, ◌^◌, [], ◌∷◌, length, OnOk};
ghost use Rattle.mdv_base.specs.Causes.{HasCause};
ghost use Rattle.mdv_shelf.specs.Calls.{OnDrive, Reads, Took};
ghost use Rattle.mdv_shelf.specs.Moments.{Moments, Ends};
ghost use Rattle.mdv_shelf.specs.Shelves.{KeptOn};
ghost use Rattle.mdv_shelf.specs.Between.{MakesCalls};
ghost use Rattle.mdv_replica.specs.Forms.{IsMaster, IsMark};
ghost use Rattle.mdv_replica.specs.Replica.{IsPlaced, Claiming, IsClaimed, Wiping, IsWiped, Formatting, IsFormatAnswer, IsFormatted, SlotWriting, IsSlotWritten, gate_at, body_at, slot_blocks, master_of};

use crate::forms::{Gate, Master, claim_block, gate_block, master_block};
use mdv_base::{Block, DriveNo, Failed, Identity, Key, Mark, Place, ZERO_BLOCK};
use mdv_shelf::{Shelf, settle};

/// The fewest and the most blocks of a replica.
pub const MIN_BLOCKS: u32 = 16;

pub const MAX_BLOCKS: u32 = 8192;

// The master, the claim and two gates.
pub(crate) const HEAD_BLOCKS: u64 = 4;

/// Where a replica lies: its place, the drive, and its first block there.
#[derive(Clone, Copy, Debug, PartialEq, Eq)]
pub struct PlaceAt {
    pub place: Place,
    pub drive: DriveNo,
    pub first: u64,
    /// Which of its slice's replicas it is, from 0, and how many there are.
    pub index: u8,
    pub count: u8,
}

/// One of the two slots that take tables in turn.
#[derive(Clone, Copy, Debug, PartialEq, Eq)]
pub enum Slot {
    First,
    Second,
}

/// What the first four blocks of a replica say.
#[derive(Clone, Copy, Debug, PartialEq, Eq)]
pub struct Head {
    pub master: Master,
    pub claim: u64,
    pub first: Gate,
    pub second: Gate,
}

impl PlaceAt {
    fn master_of(&self, key: &Key, identity: Identity) -> Master
        ensures { result ≡ master_of self.now key.now identity }
    {
        Master {
            identity,
            key: *key,
            slice: self.place.slice,
            start: self.place.start,
            blocks: self.place.blocks,
            index: self.index,
            count: self.count,
        }
    }

    fn gate_block_of(&self, slot: Slot) -> u64
        requires { self.now.first + 3 < 2 ^ 64 }
        ensures { result ≡ gate_at self.now slot }
    {
        match slot {
            Slot::First => self.first + 2,
            Slot::Second => self.first + 3,
        }
    }

    fn body_block_of(&self, slot: Slot) -> u64
        requires within { self.now.first + self.now.place.blocks < 2 ^ 64 }
        requires least { 16 ≤ self.now.place.blocks }
        ensures { result ≡ body_at self.now slot }
    {
        let body = self.first + HEAD_BLOCKS;
        match slot {
            Slot::First => body,
            Slot::Second => body + u64::from((self.place.blocks - 4) / 2),
        }
    }
}

/// Writes the number that a boot drew.
pub fn write_claim<S: Shelf>(shelf: &mut S, at: PlaceAt, number: u64) -> Result<(), Failed>
    requires placed { IsPlaced (S.sizes shelf.old) at }
    requires number { number < 2 ^ 63 }
    ensures moments { Moments (Claiming at number) (S.tale shelf.old) (S.tale shelf.new) }
    ensures settled { OnOk result (Ends (λ _ u. IsClaimed at number u) (S.tale shelf.old) (S.tale shelf.new)) }
    ensures cause { HasCause (S.faults shelf.old (OnDrive at.drive.0)) (S.faults shelf.new (OnDrive at.drive.0)) result }
    ensures counted { MakesCalls S.Shelf shelf.old shelf.new 2 1 result }
    ensures kept { KeptOn S.Shelf shelf.old shelf.new (OnDrive at.drive.0) }
{
    settle(shelf, at.drive, at.first + 1, &[claim_block(number)])?;
    Ok(())
}

/// Writes a table into a slot: the gate is closed first, and opened with the mark once the body is on
/// the disk, so no crash shows a mark over another body. The body is padded to whole blocks, and `bytes`
/// of it count.
pub fn write_slot<S: Shelf>(
    shelf: &mut S,
    at: PlaceAt,
    slot: Slot,
    mark: Mark,
    bytes: u32,
    body: &[Block],
) -> Result<(), Failed>
    requires placed { IsPlaced (S.sizes shelf.old) at }
    requires mark { IsMark mark }
    requires some { 0 < length body.now }
    requires room { length body.now ≤ slot_blocks at.place.blocks }
    ensures moments { Moments (SlotWriting at slot mark bytes body.now) (S.tale shelf.old) (S.tale shelf.new) }
    ensures settled { OnOk result (Ends (λ _ u. IsSlotWritten at slot mark bytes body.now u) (S.tale shelf.old) (S.tale shelf.new)) }
    ensures cause { HasCause (S.faults shelf.old (OnDrive at.drive.0)) (S.faults shelf.new (OnDrive at.drive.0)) result }
    ensures counted { MakesCalls S.Shelf shelf.old shelf.new 6 (2 + length body.now) result }
    ensures kept { KeptOn S.Shelf shelf.old shelf.new (OnDrive at.drive.0) }
{
    let gate = at.gate_block_of(slot);
    let first = at.body_block_of(slot);
    settle(shelf, at.drive, gate, &[gate_block(Gate::Closed)])?;
    settle(shelf, at.drive, first, body)?;
    // The body is on the disk before the gate says that it counts.
    settle(
        shelf,
        at.drive,
        gate,
        &[gate_block(Gate::Open { mark, bytes })],
    )?;
    Ok(())
}

/// Makes a replica of the database that shows no table. The master is blank while claim and gates are
/// written, so a crash never leaves a master over what stood there before.
pub fn format<S: Shelf>(
    shelf: &mut S,
    at: PlaceAt,
    key: &Key,
    identity: Identity,
    claim: u64,
) -> Result<(), Failed>
    requires placed { IsPlaced (S.sizes shelf.old) at }
    requires number { claim < 2 ^ 63 }
    ensures moments { Moments (Formatting at (master_of at key.now identity) claim) (S.tale shelf.old) (S.tale shelf.new) }
    ensures settled { OnOk result (Ends (λ _ u. IsFormatted at (master_of at key.now identity) claim u) (S.tale shelf.old) (S.tale shelf.new)) }
    ensures answer { IsFormatAnswer (S.faults shelf.old (OnDrive at.drive.0)) (S.faults shelf.new (OnDrive at.drive.0)) (master_of at key.now identity) result }
    ensures counted { MakesCalls S.Shelf shelf.old shelf.new 6 5 result }
    ensures kept { KeptOn S.Shelf shelf.old shelf.new (OnDrive at.drive.0) }
{
    let master = master_block(&at.master_of(key, identity));
    let closed = gate_block(Gate::Closed);
    wipe(shelf, at)?;
    settle(
        shelf,
        at.drive,
        at.first + 1,
        &[claim_block(claim), closed, closed],
    )?;
    // Claim and gates are on the disk before the master says that they count.
    settle(shelf, at.drive, at.first, &[master])?;
    Ok(())
}

/// Blanks the master, so that no replica is readable there.
pub fn wipe<S: Shelf>(shelf: &mut S, at: PlaceAt) -> Result<(), Failed>
    requires { IsPlaced (S.sizes shelf.old) at }
    ensures moments { Moments (Wiping at) (S.tale shelf.old) (S.tale shelf.new) }
    ensures settled { OnOk result (Ends (λ _ u. IsWiped at u) (S.tale shelf.old) (S.tale shelf.new)) }
    ensures cause { HasCause (S.faults shelf.old (OnDrive at.drive.0)) (S.faults shelf.new (OnDrive at.drive.0)) result }
    ensures counted { MakesCalls S.Shelf shelf.old shelf.new 2 1 result }
    ensures kept { KeptOn S.Shelf shelf.old shelf.new (OnDrive at.drive.0) }
{
    settle(shelf, at.drive, at.first, &[ZERO_BLOCK])?;
    Ok(())
}

/// Reads the first blocks of a slot's body.
pub fn read_body<S: Shelf>(
    shelf: &mut S,
    at: PlaceAt,
    slot: Slot,
    out: &mut [Block],
) -> Result<(), Failed>
    requires placed { IsPlaced (S.sizes shelf.old) at }
    requires some { 0 < length out.old }
    requires room { length out.old ≤ slot_blocks at.place.blocks }
    ensures reads { Reads (S.tale shelf.old) at.drive.0 (body_at at slot) result out.new (S.tale shelf.new) }
    ensures cause { HasCause (S.faults shelf.old (OnDrive at.drive.0)) (S.faults shelf.new (OnDrive at.drive.0)) result }
    ensures counted { Took S.calls S.written shelf.old shelf.new 1 0 }
    ensures kept { KeptOn S.Shelf shelf.old shelf.new (OnDrive at.drive.0) }
{
    let first = at.body_block_of(slot);
    shelf.read(at.drive, first, out)?;
    Ok(())
}
