// The head of a replica, read by its fields and compared with its spelling.
ghost use Rattle.std.specs.Prelude.{◌≡◌, ◌<◌, ◌≤◌, ◌+◌, ◌^◌, ℕ, List, [], ◌∷◌, ◌++◌, length, Some, IfSome};
ghost use Rattle.mdv_base.specs.Name.{IsName};
ghost use Rattle.mdv_replica.specs.Forms.{master_text, key_text, name_of_key, slice_bytes, claim_text, gate_text, block_of, IsMaster, IsGate};

use crate::cursor::Cursor;
use crate::forms::{claim_block, gate_block, master_block};
use crate::{Gate, Master};
use mdv_base::{Block, DriveName, Identity, Key, Mark, NAME_BYTES, NUMBER_LIMIT, Name, SliceName};

/// What a master block says; None where the block isn't one.
pub fn read_master(block: &Block) -> Option<Master>
    ensures value { IfSome result (λ m. IsMaster m × (block.now ≡ block_of (master_text m))) }
    ensures spelled { (m : Master) → IsMaster m → block.now ≡ block_of (master_text m) → result ≡ Some m }
{
    let master = master_fields(block)?;
    if master_block(&master) == *block {
        Some(master)
    } else {
        None
    }
}

/// The number of a claim; None where the block isn't one.
pub fn read_claim(block: &Block) -> Option<u64>
    ensures value { IfSome result (λ n. (n < 2 ^ 63) × (block.now ≡ block_of (claim_text n))) }
    ensures spelled { (n : ℕ) → n < 2 ^ 63 → block.now ≡ block_of (claim_text n) → result ≡ Some n }
{
    let number = claim_field(block);
    if number < NUMBER_LIMIT && claim_block(number) == *block {
        Some(number)
    } else {
        None
    }
}

/// What a gate says; None where the block isn't one.
pub fn read_gate(block: &Block) -> Option<Gate>
    ensures value { IfSome result (λ g. IsGate g × (block.now ≡ block_of (gate_text g))) }
    ensures spelled { (g : Gate) → IsGate g → block.now ≡ block_of (gate_text g) → result ≡ Some g }
{
    let gate = gate_fields(block)?;
    if gate_block(gate) == *block {
        Some(gate)
    } else {
        None
    }
}

fn master_fields(block: &Block) -> Option<Master>
    ensures form { IfSome result IsMaster }
    ensures spelled { (m : Master) → IsMaster m → block.now ≡ block_of (master_text m) → result ≡ Some m }
{
    let mut rest = Cursor::new(block);
    let _text = rest.bytes(8);
    let fresh = rest.number64();
    let number = rest.number32();
    let key = read_key(&mut rest)?;
    let slice = read_slice(&mut rest);
    let start = rest.number32();
    let blocks = rest.number32();
    let index = rest.byte();
    let count = rest.byte();
    Some(Master {
        identity: Identity { fresh, number },
        key,
        slice,
        start,
        blocks,
        index,
        count,
    })
}

fn read_key(rest: &mut Cursor) -> Option<Key>
    requires { 34 ≤ length rest.old }
    ensures form { IfSome result (λ k. IsName (name_of_key k)) }
    ensures length { length rest.new + 34 ≡ length rest.old }
    ensures spelled { (k : Key) (behind : List ℕ) → IsName (name_of_key k) → rest.old ≡ key_text k ++ behind → (result ≡ Some k) × (rest.new ≡ behind) }
{
    let kind = rest.byte();
    let len = usize::from(rest.byte());
    let field = rest.bytes(NAME_BYTES);
    let name = Name::new(&field[..len.min(NAME_BYTES)])?;
    match kind {
        0 => Some(Key::Local(name)),
        1 => Some(Key::Set(name)),
        _ => None,
    }
}

fn read_slice(rest: &mut Cursor) -> SliceName
    requires { 4 ≤ length rest.old }
    ensures length { length rest.new + 4 ≡ length rest.old }
    ensures spelled { rest.old ≡ slice_bytes result ++ rest.new }
{
    let controller = rest.byte();
    let target = rest.byte();
    let disk = rest.byte();
    let slice = rest.byte();
    let drive = DriveName {
        controller,
        target,
        disk,
    };
    SliceName { drive, slice }
}

fn claim_field(block: &Block) -> u64
    ensures spelled { (n : ℕ) → n < 2 ^ 63 → block.now ≡ block_of (claim_text n) → result ≡ n }
{
    let mut rest = Cursor::new(block);
    let _text = rest.bytes(8);
    rest.number64()
}

fn gate_fields(block: &Block) -> Option<Gate>
    ensures form { IfSome result IsGate }
    ensures spelled { (g : Gate) → IsGate g → block.now ≡ block_of (gate_text g) → result ≡ Some g }
{
    let mut rest = Cursor::new(block);
    let _text = rest.bytes(8);
    let state = rest.byte();
    let boot = rest.number64();
    let count = rest.number64();
    let bytes = rest.number32();
    gate_of(state, Mark { boot, count }, bytes)
}

fn gate_of(state: u8, mark: Mark, bytes: u32) -> Option<Gate>
    ensures form { IfSome result IsGate }
    ensures closed { state ≡ 0 → result ≡ Some Gate.Closed }
    ensures open { state ≡ 1 → mark.boot < 2 ^ 63 → mark.count < 2 ^ 63 → result ≡ Some (Gate.Open mark bytes) }
{
    match state {
        0 => Some(Gate::Closed),
        1 if mark.boot < NUMBER_LIMIT && mark.count < NUMBER_LIMIT => {
            Some(Gate::Open { mark, bytes })
        }
        _ => None,
    }
}
