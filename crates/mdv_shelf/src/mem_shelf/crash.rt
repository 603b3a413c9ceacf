// What drives in memory hold after a crash.
ghost use Rattle.std.specs.Prelude.{◌≡◌, ◌^◌, ◌<◌, ℕ, [], length, drop, slice_index, slice_index_or};
ghost use Rattle.mdv_shelf.specs.Tale.{Start, Begun, values};
ghost use Rattle.mdv_shelf.specs.MemHistory.{block_of, start_blocks, latest_blocks, lengths, continued, picked, Becomes, PicksBelow};

use crate::mem_shelf::disk::{Disk, MemCall};
use crate::mem_shelf::scan::pick;

/// The number of that block, 0 behind the choice's end.
fn number_at(choice: &[u32], block: usize) -> u32
    ensures { result ≡ slice_index choice.now block }
{
    choice.get(block).copied().unwrap_or(0)
}

impl Disk {
    /// Picks one value for each block; the choice's first number is that of the first block. What is
    /// left of the choice is for the next drives.
    pub fn crash<'a>(&mut self, drive: u32, calls: &[MemCall], choice: &'a [u32]) -> &'a [u32]
        ensures rest { result.now ≡ drop (length self.old.start.items) choice.now }
        ensures length { length self.new.start.items ≡ length self.old.start.items }
        ensures latest { self.new.latest.items ≡ self.new.start.items }
        ensures picks { (s : Start) → ((block : ℕ) → s.block drive block ≡ slice_index_or self.old.start.items block [])
            → Becomes self.new.start.items (length self.old.start.items) (λ block. picked (values (continued (Begun s) calls.now) drive block) (slice_index choice.now block)) }
    {
        for block in 0..self.start.len() {
            let value = pick(
                &self.start[block],
                calls,
                drive,
                block as u64,
                number_at(choice, block),
            );
            self.start[block] = value;
            self.latest[block] = value;
        }
        &choice[self.start.len().min(choice.len())..]
    }

    /// Takes what a read gives as what is on the disk.
    pub fn settle(&mut self)
        ensures start { self.new.start.items ≡ self.old.latest.items }
        ensures latest { self.new.latest.items ≡ self.old.latest.items }
    {
        self.start.copy_from_slice(&self.latest);
    }
}

/// Every drive takes what a read gives as what is on the disk.
pub fn settle_disks(disks: &mut [Disk])
    ensures start { start_blocks disks.new ≡ latest_blocks disks.old }
    ensures latest { latest_blocks disks.new ≡ latest_blocks disks.old }
{
    for i in 0..disks.len() {
        disks[i].settle();
    }
}

/// Picks one value for each block, in order of drive and number.
pub fn crash_disks(disks: &mut [Disk], calls: &[MemCall], choice: &[u32])
    requires { length disks.old < 2 ^ 32 }
    ensures sizes { lengths (start_blocks disks.new) ≡ lengths (start_blocks disks.old) }
    ensures latest { latest_blocks disks.new ≡ start_blocks disks.new }
    ensures picks { (s : Start) → ((drive block : ℕ) → s.block drive block ≡ block_of (start_blocks disks.old) drive block)
        → PicksBelow (length disks.old) (continued (Begun s) calls.now) (lengths (start_blocks disks.old)) choice.now (start_blocks disks.new) }
{
    let mut rest = choice;
    for drive in 0..disks.len() {
        rest = disks[drive].crash(drive as u32, calls, rest);
    }
}
