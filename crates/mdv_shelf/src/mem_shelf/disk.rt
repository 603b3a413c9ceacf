// A drive in memory, and the calls that changed drives.
ghost use Rattle.std.specs.Prelude.{◌≡◌, ◌+◌, ◌<◌, ◌≤◌, ℕ, [], length, replicate, slice_index_or, IfOk};

use mdv_base::{Block, ZERO_BLOCK};
use std::alloc::{AllocError, Global};

/// One drive's blocks, as they were when the tale began and as a read gives them now.
#[derive(Drop)]
pub struct Disk {
    pub start: Vec<Block>,
    pub latest: Vec<Block>,
    ghost same_length: { length start.items ≡ length latest.items },
}

/// A call that changed something.
#[derive(Drop)]
pub enum MemCall {
    Write {
        drive: u32,
        at: u64,
        blocks: Vec<Block>,
    },
    Sync {
        drive: u32,
    },
    Give {
        piece: Vec<u8>,
    },
}

impl Disk {
    ghost use Rattle.mdv_shelf.specs.MemHistory.{Puts, zero_block};

    /// A drive of so many zero blocks.
    pub fn blank(alloc: Global, blocks: u64) -> Result<Disk, AllocError>
        ensures start { IfOk result (λ disk. disk.start.items ≡ replicate blocks zero_block) }
        ensures latest { IfOk result (λ disk. disk.latest.items ≡ replicate blocks zero_block) }
    {
        let start = vec![in alloc; ZERO_BLOCK; blocks as usize]?;
        let latest = vec![in alloc; ZERO_BLOCK; blocks as usize]?;
        Ok(Disk { start, latest })
    }

    /// Copies the blocks from that one on.
    pub fn copy_to(&self, at: usize, out: &mut [Block])
        requires { at + length out.old ≤ length self.now.latest.items }
        ensures { (k : ℕ) → k < length out.new → slice_index_or out.new k [] ≡ slice_index_or self.now.latest.items (at + k) [] }
    {
        let blocks = &self.latest;
        out.copy_from_slice(&blocks[at..at + out.len()]);
    }

    /// Lays the blocks in from that one on.
    pub fn put(&mut self, at: usize, from: &[Block])
        requires { at + length from.now ≤ length self.old.latest.items }
        ensures latest { Puts self.old.latest.items at from.now self.new.latest.items }
        ensures start { self.new.start.items ≡ self.old.start.items }
    {
        self.latest[at..at + from.len()].copy_from_slice(from);
    }
}
