// What the head of a replica says, and the letters that a place is told with.
ghost use Rattle.std.specs.Prelude.{◌≡◌, ◌↔◌, ◌<◌, ◌-◌, min, ℕ, List, length, slice_index_or, is_some, is_none, IsTrue, IfSome, MatchOption, Some, None};
ghost use Rattle.mdv_shelf.specs.Tale.{Tale, last};
ghost use Rattle.mdv_shelf.specs.Calls.{OnDrive, Took};
ghost use Rattle.mdv_shelf.specs.Shelves.{DriveFailures, KeptOn};
ghost use Rattle.mdv_replica.specs.Replica.{LiesAt, with_blocks};
ghost use Rattle.mdv_replica.specs.Seen.{AreBehindFirst, AreBlocksOf, HasLookCause, IsMasterAt, IsSeen, IsLook, head_flags, head_with, unread_at};

use crate::forms::{Gate, Master};
use crate::reading::{read_claim, read_gate, read_master};
use crate::replica::{HEAD_BLOCKS, Head, MAX_BLOCKS, MIN_BLOCKS, PlaceAt};
use mdv_base::{Block, Failed, Flags, Place, SliceName, ZERO_BLOCK};
use mdv_shelf::Shelf;

/// What a look at a place found.
#[derive(Clone, Copy, Debug, PartialEq, Eq)]
pub struct Seen {
    /// The place, with the master's length where a master lies there.
    pub place: Place,
    pub flags: Flags,
    /// What master, claim and gates say, where all of them are of their form.
    pub head: Option<Head>,
}

// A claim and two gates.
#[derive(Clone, Copy)]
struct ClaimAndGates {
    claim: u64,
    first: Gate,
    second: Gate,
}

/// Looks at master, claim and gates of a replica, with one read of the blocks that the drive has of these
/// four. The place's blocks are the most that a master may name there.
pub fn inspect<S: Shelf>(shelf: &mut S, at: PlaceAt) -> Seen
    requires known { at.drive.0 < length (S.sizes shelf.old) }
    requires within { at.first < slice_index_or (S.sizes shelf.old) at.drive.0 0 }
    ensures seen { (t : Tale) → S.tale shelf.old ≡ Some t → IsSeen at (slice_index_or (S.sizes shelf.old) at.drive.0 0) (last t at.drive.0) result }

    // Where the shelf tells no tale, it is the answer to contents of some kind.
    ensures form { (content : ℕ → List ℕ) × IsSeen at (slice_index_or (S.sizes shelf.old) at.drive.0 0) content result }
    ensures cause { HasLookCause (DriveFailures S.Shelf shelf.old shelf.new at.drive.0) result.flags.read_error }
    ensures same { S.tale shelf.new ≡ S.tale shelf.old }
    ensures counted { Took S.calls S.written shelf.old shelf.new 1 0 }
    ensures kept { KeptOn S.Shelf shelf.old shelf.new (OnDrive at.drive.0) }
{
    let size = shelf.blocks(at.drive);
    let count = HEAD_BLOCKS.min(size - at.first) as usize;
    let mut head = [ZERO_BLOCK; 4];
    let blocks = &mut head[..count];
    match shelf.read(at.drive, at.first, blocks) {
        Ok(()) => looked(&at, size, blocks),
        Err(Failed) => unread(&at),
    }
}

fn unread(at: &PlaceAt) -> Seen
    ensures { result ≡ unread_at at.now }
{
    Seen {
        place: at.place,
        flags: Flags {
            read_error: true,
            ..Flags::default()
        },
        head: None,
    }
}

// What the blocks from the place's first one on say, of a drive that has so many.
fn looked(at: &PlaceAt, size: u64, blocks: &[Block]) -> Seen
    requires within { at.now.first < size }
    requires count { length blocks.now ≡ min 4 (size - at.now.first) }
    ensures { (content : ℕ → List ℕ) → AreBlocksOf content at.now.first blocks.now → IsLook at.now size content result }
{
    let master = master_in(at, size, &blocks[0]);
    let rest = rest_in(blocks);
    seen_of(at, master, rest)
}

fn seen_of(at: &PlaceAt, master: Option<Master>, rest: Option<ClaimAndGates>) -> Seen
    ensures flags { result.flags ≡ head_flags (is_some master) (is_none rest) }
    ensures place { MatchOption master (result.place ≡ at.now.place) (λ m. result.place ≡ (with_blocks at.now m.blocks).place) }
    ensures head { MatchOption master (result.head ≡ None) (λ m. MatchOption rest (result.head ≡ None) (λ r. result.head ≡ Some (head_with m r))) }
{
    Seen {
        place: place_in(at, &master),
        flags: Flags {
            located: master.is_some(),
            form_fault: rest.is_none(),
            master_fault: master.is_none(),
            ..Flags::default()
        },
        head: head_in(master, rest),
    }
}

fn place_in(at: &PlaceAt, master: &Option<Master>) -> Place
    ensures { MatchOption master.now (result ≡ at.now.place) (λ m. result ≡ (with_blocks at.now m.blocks).place) }
{
    match master {
        Some(master) => Place {
            slice: at.place.slice,
            start: at.place.start,
            blocks: master.blocks,
        },
        None => at.place,
    }
}

fn head_in(master: Option<Master>, rest: Option<ClaimAndGates>) -> Option<Head>
    ensures { MatchOption master (result ≡ None) (λ m. MatchOption rest (result ≡ None) (λ r. result ≡ Some (head_with m r))) }
{
    let master = master?;
    let rest = rest?;
    Some(Head {
        master,
        claim: rest.claim,
        first: rest.first,
        second: rest.second,
    })
}

// The master that the block is, where it lies at this place.
fn master_in(at: &PlaceAt, size: u64, block: &Block) -> Option<Master>
    ensures value { IfSome result (IsMasterAt at.now size block.now) }
    ensures spelled { (m : Master) → IsMasterAt at.now size block.now m → result ≡ Some m }
{
    let master = read_master(block)?;
    if lies_at(&master, at, size) {
        Some(master)
    } else {
        None
    }
}

fn lies_at(master: &Master, at: &PlaceAt, size: u64) -> bool
    ensures { IsTrue result ↔ LiesAt at.now size master.now }
{
    let blocks = u64::from(master.blocks);
    is_same_slice(&master.slice, &at.place.slice)
        && master.start == at.place.start
        && master.blocks >= MIN_BLOCKS
        && master.blocks <= MAX_BLOCKS
        && master.blocks <= at.place.blocks
        && blocks <= size
        && at.first <= size - blocks
}

fn is_same_slice(one: &SliceName, other: &SliceName) -> bool
    ensures { IsTrue result ↔ (one.now ≡ other.now) }
{
    one == other
}

// The claim and the gates behind the master, where the drive has them and they are of their form.
fn rest_in(blocks: &[Block]) -> Option<ClaimAndGates>
    ensures value { IfSome result (λ r. (length blocks.now ≡ 4) × AreBehindFirst blocks.now r.claim r.first r.second) }
    ensures spelled { (claim : ℕ) (first second : Gate) → length blocks.now ≡ 4 → AreBehindFirst blocks.now claim first second → result ≡ Some (record { claim = claim; first = first; second = second }) }
{
    let [_, claim, first, second] = blocks else {
        return None;
    };
    let claim = read_claim(claim)?;
    let first = read_gate(first)?;
    let second = read_gate(second)?;
    Some(ClaimAndGates {
        claim,
        first,
        second,
    })
}
