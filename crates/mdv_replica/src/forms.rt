// The blocks of a replica's head, field by field:
//
//     master  MDVREPL1, identity (u64, u32), key (kind u8, length u8, 32 bytes), slice (4 bytes),
//             start u32, blocks u32, index u8, count u8
//     claim   MDVCLAIM, number u64
//     gate    MDVGATE1, state u8, mark (u64, u64), length u32
//
// Numbers are big-endian, and bytes behind the fields are zero. A block is read by its fields and then
// compared with its spelling, so a block with any other byte isn't of the form.
ghost use Rattle.std.specs.Prelude.{◌≡◌, ◌<◌, ◌≤◌, ◌+◌, ◌^◌, ℕ, List, [], ◌∷◌, ◌++◌, length, Some, IfSome, codes};
ghost use Rattle.byteorder.specs.Endian.{big_bytes};
ghost use Rattle.mdv_base.specs.Bytes.{padded_to};
ghost use Rattle.mdv_base.specs.Name.{IsName};
ghost use Rattle.mdv_replica.specs.Forms.{master_text, key_text, name_of_key, slice_bytes, claim_text, gate_text, block_of, IsMaster, IsGate};

use crate::cursor::Cursor;
use crate::page::Page;
use mdv_base::{Block, DriveName, Identity, Key, Mark, NUMBER_LIMIT, Name, SliceName};

const MASTER_TEXT: &[u8; 8] = b"MDVREPL1";

const CLAIM_TEXT: &[u8; 8] = b"MDVCLAIM";

const GATE_TEXT: &[u8; 8] = b"MDVGATE1";

/// What the first block of a replica says: whose database it is, and where the replica lies.
#[derive(Clone, Copy, Debug, PartialEq, Eq)]
pub struct Master {
    pub identity: Identity,
    pub key: Key,
    pub slice: SliceName,
    /// The replica's first block, counted from the slice's.
    pub start: u32,
    pub blocks: u32,
    /// Which of the slice's replicas it is, and how many there are.
    pub index: u8,
    pub count: u8,
}

/// Whether a slot's body counts, and then under which mark and with how many bytes.
#[derive(Clone, Copy, Debug, PartialEq, Eq)]
pub enum Gate {
    Closed,
    Open { mark: Mark, bytes: u32 },
}

#[tactic(auto, unfolding(crate::specs::Forms::master_text))]
pub fn master_block(master: &Master) -> Block
    ensures spelled { result ≡ block_of (master_text master.now) }
    ensures form { IsMaster master.now }
{
    let mut page = Page::new();
    page.bytes(MASTER_TEXT);
    page.number64(master.identity.fresh);
    page.number32(master.identity.number);
    spell_key(&mut page, &master.key);
    spell_slice(&mut page, master.slice);
    page.number32(master.start);
    page.number32(master.blocks);
    page.byte(master.index);
    page.byte(master.count);
    page.into_block()
}

fn spell_key(page: &mut Page, key: &Key)
    requires { length page.old + 34 ≤ 512 }
    ensures spelled { page.new ≡ page.old ++ key_text key.now }
    ensures size { length page.new ≡ length page.old + 34 }
    ensures form { IsName (name_of_key key.now) }
{
    match key {
        Key::Local(name) => spell_name(page, 0, name),
        Key::Set(name) => spell_name(page, 1, name),
    }
}

fn spell_name(page: &mut Page, kind: u8, name: &Name)
    requires { length page.old + 34 ≤ 512 }
    ensures spelled { page.new ≡ page.old ++ kind ∷ length name.now ∷ padded_to 32 name.now }
    ensures size { length page.new ≡ length page.old + 34 }
    ensures form { IsName name.now }
{
    let text = name.as_bytes();
    let mut field = [0; 32];
    field[..text.len()].copy_from_slice(text);
    page.bytes(&[kind, text.len() as u8]);
    page.bytes(&field);
}

fn spell_slice(page: &mut Page, slice: SliceName)
    requires { length page.old + 4 ≤ 512 }
    ensures spelled { page.new ≡ page.old ++ slice_bytes slice }
    ensures controller { slice.drive.controller < 256 }
    ensures target { slice.drive.target < 256 }
    ensures disk { slice.drive.disk < 256 }
    ensures slice { slice.slice < 256 }
{
    let drive = slice.drive;
    page.bytes(&[drive.controller, drive.target, drive.disk, slice.slice]);
}

#[tactic(auto, unfolding(crate::specs::Forms::claim_text))]
pub fn claim_block(number: u64) -> Block
    ensures { result ≡ block_of (claim_text number) }
{
    let mut page = Page::new();
    page.bytes(CLAIM_TEXT);
    page.number64(number);
    page.into_block()
}

#[tactic(auto, unfolding(crate::specs::Forms::gate_text))]
pub fn gate_block(gate: Gate) -> Block
    ensures { result ≡ block_of (gate_text gate) }
{
    match gate {
        Gate::Closed => gate_with(0, Mark { boot: 0, count: 0 }, 0),
        Gate::Open { mark, bytes } => gate_with(1, mark, bytes),
    }
}

fn gate_with(state: u8, mark: Mark, bytes: u32) -> Block
    ensures { result ≡ block_of (codes "MDVGATE1" ++ state ∷ [] ++ big_bytes 8 mark.boot ++ big_bytes 8 mark.count ++ big_bytes 4 bytes) }
{
    let mut page = Page::new();
    page.bytes(GATE_TEXT);
    page.byte(state);
    page.number64(mark.boot);
    page.number64(mark.count);
    page.number32(bytes);
    page.into_block()
}
