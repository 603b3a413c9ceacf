ghost use Rattle.std.specs.Prelude.{◌≡◌, ◌+◌, ◌≤◌, [], ◌∷◌, ◌++◌, length};
ghost use Rattle.byteorder.specs.Endian.{big_bytes};
ghost use Rattle.mdv_base.specs.Bytes.{padded_to};

use byteorder::{BigEndian, ByteOrder};
use mdv_base::{BLOCK_BYTES, Block, ZERO_BLOCK};
use std::marker::Model;

/// A block that is spelled from its front: the fields so far, and zeros behind them. Contracts see it
/// as the bytes of the fields.
#[derive(Drop)]
pub struct Page {
    block: Block,
    used: usize,
}

impl Model for Page {
    ghost use Rattle.std.specs.Prelude.{List, ℕ, take};
    ghost use Rattle.mdv_base.specs.Bytes.{IsPadded};

    ghost Value = { List ℕ };

    ghost view = { λ p. take p.used p.block };

    ghost invariant = { λ p. IsPadded 512 p.block p.used };
}

impl Page {
    pub fn new() -> Page
        ensures { result ≡ [] }
    {
        Page {
            block: ZERO_BLOCK,
            used: 0,
        }
    }

    pub fn bytes(&mut self, field: &[u8])
        requires { length self.old + length field.now ≤ 512 }
        ensures { self.new ≡ self.old ++ field.now }
    {
        let end = self.used + field.len();
        self.block[self.used..end].copy_from_slice(field);
        self.used = end;
    }

    pub fn byte(&mut self, field: u8)
        requires { length self.old + 1 ≤ 512 }
        ensures { self.new ≡ self.old ++ field ∷ [] }
    {
        self.bytes(&[field]);
    }

    pub fn number16(&mut self, field: u16)
        requires { length self.old + 2 ≤ 512 }
        ensures { self.new ≡ self.old ++ big_bytes 2 field }
    {
        let mut bytes = [0; 2];
        BigEndian::write_u16(&mut bytes, field);
        self.bytes(&bytes);
    }

    pub fn number32(&mut self, field: u32)
        requires { length self.old + 4 ≤ 512 }
        ensures { self.new ≡ self.old ++ big_bytes 4 field }
    {
        let mut bytes = [0; 4];
        BigEndian::write_u32(&mut bytes, field);
        self.bytes(&bytes);
    }

    pub fn number64(&mut self, field: u64)
        requires { length self.old + 8 ≤ 512 }
        ensures { self.new ≡ self.old ++ big_bytes 8 field }
    {
        let mut bytes = [0; 8];
        BigEndian::write_u64(&mut bytes, field);
        self.bytes(&bytes);
    }

    /// The whole block.
    pub fn into_block(self) -> Block
        ensures { result ≡ padded_to 512 self }
    {
        let Page { block, used: _ } = self;
        block
    }
}
