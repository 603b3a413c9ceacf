// The header of an extent of a soft partition, a block of 512 bytes:
//
//     MDVSOFT1, identity (u64, u32), volume u16, index u8, extents u8, offset u64, blocks u64
//
// Numbers are big-endian, and bytes behind the fields are zero. A block is read by its fields and then
// compared with its spelling, so a block with any other byte isn't of the form.
ghost use Rattle.std.specs.Prelude.{◌≡◌, Some, IfSome};
ghost use Rattle.mdv_extent.specs.Headers.{header_text, block_of, IsHeader};

use crate::Run;
use crate::cursor::Cursor;
use crate::page::Page;
use mdv_base::{Block, Identity, VolId};

const HEADER_TEXT: &[u8; 8] = b"MDVSOFT1";

/// What the block before an extent says: of which database and soft partition it is.
#[derive(Clone, Copy, Debug, PartialEq, Eq)]
pub struct Header {
    pub identity: Identity,
    pub volume: VolId,
    /// Which of the soft partition's extents it is, counted from 0, and how many there are.
    pub index: u8,
    pub extents: u8,
    /// The extent's blocks, without this header.
    pub run: Run,
}

/// The block that says so.
#[tactic(auto, unfolding(crate::specs::Headers::header_text))]
pub fn header_block(header: &Header) -> Block
    ensures spelled { result ≡ block_of (header_text header.now) }
    ensures form { IsHeader header.now }
{
    let mut page = Page::new();
    page.bytes(HEADER_TEXT);
    page.number64(header.identity.fresh);
    page.number32(header.identity.number);
    page.number16(header.volume.0);
    page.byte(header.index);
    page.byte(header.extents);
    page.number64(header.run.at);
    page.number64(header.run.blocks);
    page.into_block()
}

/// What a header says; None exactly where the block isn't one.
pub fn read_header(block: &Block) -> Option<Header>
    ensures value { IfSome result (λ h. IsHeader h × (block.now ≡ block_of (header_text h))) }
    ensures spelled { (h : Header) → IsHeader h → block.now ≡ block_of (header_text h) → result ≡ Some h }
{
    let header = fields(block);
    if header_block(&header) == *block {
        Some(header)
    } else {
        None
    }
}

/// What the block says where it is a header.
fn fields(block: &Block) -> Header
    ensures spelled { (h : Header) → IsHeader h → block.now ≡ block_of (header_text h) → result ≡ h }
{
    let mut rest = Cursor::new(block);
    let _text = rest.bytes(8);
    let fresh = rest.number64();
    let number = rest.number32();
    let volume = VolId(rest.number16());
    let index = rest.byte();
    let extents = rest.byte();
    let at = rest.number64();
    let blocks = rest.number64();
    Header {
        identity: Identity { fresh, number },
        volume,
        index,
        extents,
        run: Run { at, blocks },
    }
}
