ghost use Rattle.std.specs.Prelude.{◌≡◌, ◌≤◌, ◌<◌, ◌↔◌, ℕ, List, [], Option, Some, length, drop, IsTrue, IfOk, OnErr};
ghost use Rattle.mdv_base.specs.Causes.{HasCause};
ghost use Rattle.mdv_port.specs.Reader.{to_come};

use crate::Source;
use mdv_base::Failed;
use std::marker::Model;

// How many bytes are asked of a source at a time.
const CHUNK: usize = 4096;

/// Bytes that came from a source and weren't handed out yet.
#[derive(Drop)]
pub struct Chunk {
    bytes: [u8; 4096],
    start: usize,
    end: usize,
}

impl Model for Chunk {
    ghost use Rattle.std.specs.Prelude.{◌≤◌, ℕ, List, take, drop};

    ghost Value = { List ℕ };

    ghost view = { λ c. drop c.start (take c.end c.bytes) };

    ghost invariant = { λ c. (c.start ≤ c.end) × (c.end ≤ 4096) };
}

impl Chunk {
    pub fn new() -> Chunk
        ensures { result ≡ [] }
    {
        Chunk {
            bytes: [0; CHUNK],
            start: 0,
            end: 0,
        }
    }

    pub fn unread(&self) -> &[u8]
        ensures value { result.now ≡ self.now }
        ensures short { length self.now ≤ 4096 }
    {
        &self.bytes[self.start..self.end]
    }

    /// Hands the first bytes out.
    pub fn pass(&mut self, count: usize)
        requires { count ≤ length self.old }
        ensures { self.new ≡ drop count self.old }
    {
        self.start += count;
    }

    /// Takes more bytes where none is unread. Answers whether one is unread then.
    pub fn fill<I: Source>(&mut self, source: &mut I) -> Result<bool, Failed>
        ensures same { to_come self.new (I.left source.new) ≡ to_come self.old (I.left source.old) }
        ensures some { IfOk result (λ more. IsTrue more ↔ (0 < length self.new)) }
        ensures ended { (bytes : List ℕ) → to_come self.old (I.left source.old) ≡ Some bytes → IfOk result (λ more. IsTrue more ↔ (0 < length bytes)) }
        ensures err { OnErr result (self.new ≡ []) }
        ensures cause { HasCause (I.faults source.old) (I.faults source.new) result }
    {
        if self.start < self.end {
            return Ok(true);
        }
        self.start = 0;
        self.end = 0;
        self.end = source.take(&mut self.bytes)?;
        Ok(self.end > 0)
    }
}
