ghost use Rattle.std.specs.Prelude.{◌≡◌, ◌≤◌, ◌+◌, ℕ, List, [], ◌++◌, length, take};
ghost use Rattle.mdv_port.specs.Lines.{line_limit};

use crate::reader::MAX_LINE;
use std::marker::Model;

/// The content of a line: at most 4096 bytes.
#[derive(Drop)]
pub struct LineBuffer {
    bytes: [u8; 4096],
    length: usize,
}

impl Model for LineBuffer {
    ghost use Rattle.std.specs.Prelude.{◌≤◌, ℕ, List, take};

    ghost Value = { List ℕ };

    ghost view = { λ l. take l.length l.bytes };

    ghost invariant = { λ l. l.length ≤ 4096 };
}

impl LineBuffer {
    pub fn new() -> LineBuffer
        ensures { result ≡ [] }
    {
        LineBuffer {
            bytes: [0; MAX_LINE],
            length: 0,
        }
    }

    pub fn as_slice(&self) -> &[u8]
        ensures value { result.now ≡ self.now }
        ensures short { length self.now ≤ line_limit }
    {
        &self.bytes[..self.length]
    }

    pub fn clear(&mut self)
        ensures { self.new ≡ [] }
    {
        self.length = 0;
    }

    /// Appends what fits of the piece.
    pub fn append(&mut self, piece: &[u8])
        ensures { self.new ≡ take line_limit (self.old ++ piece.now) }
    {
        let count = piece.len().min(MAX_LINE - self.length);
        let end = self.length + count;
        self.bytes[self.length..end].copy_from_slice(&piece[..count]);
        self.length = end;
    }
}
