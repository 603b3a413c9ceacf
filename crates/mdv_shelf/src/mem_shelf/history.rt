// The drives' blocks and the bytes told, with all that was done to them since the tale began.
ghost use Rattle.std.specs.Prelude.{◌≡◌, ◌+◌, ◌^◌, ◌<◌, ◌≤◌, [], ◌++◌, length, map, replicate, IfOk, OnOk, OnErr};
ghost use Rattle.mdv_shelf.specs.Tale.{Then, Wrote, Synced, Gave, told as told_in};
ghost use Rattle.mdv_shelf.specs.Calls.{InDrive, Shows};
ghost use Rattle.mdv_shelf.specs.MemHistory.{tale_from, start_blocks, latest_blocks, zero_block, lengths, ShowsLast, KeepsWithin};

use crate::mem_shelf::Health;
use crate::mem_shelf::counts::{Counts, Totals};
use crate::mem_shelf::crash::{crash_disks, settle_disks};
use crate::mem_shelf::disk::{Disk, MemCall};
use mdv_base::Block;
use std::alloc::{AllocError, Global};

#[derive(Drop)]
pub struct History {
    pub disks: Vec<Disk>,
    /// The oldest call first.
    pub calls: Vec<MemCall>,
    /// The counts as each of them was made.
    pub counts: Vec<Counts>,
    pub told: Vec<u8>,
    /// How many bytes had been told when the tale began.
    pub told_before: usize,
    ghost few: { length disks.items < 2 ^ 32 },
    ghost before: { told_before ≤ length told.items },
    ghost shows: { ShowsLast (latest_blocks disks.items) (tale_from disks.items calls.items told_before told.items) },
    ghost within: { KeepsWithin (lengths (latest_blocks disks.items)) (tale_from disks.items calls.items told_before told.items) },
    ghost tells: { told_in (tale_from disks.items calls.items told_before told.items) ≡ told.items },
}

impl History {
    ghost use Rattle.mdv_shelf.specs.Story.{Next};
    ghost use Rattle.mdv_shelf.specs.MemShelf.{history_tale, history_sizes, history_story, tally_in};
    ghost use Rattle.mdv_shelf.specs.MemHistory.{blank, crashed, brought_back};

    /// Drives of so many zero blocks each. More drives than 2^32 - 1 are refused like want of memory.
    pub fn new(alloc: Global, sizes: &[u64]) -> Result<History, AllocError>
        ensures tale { IfOk result (λ history. history_tale history ≡ blank sizes.now) }
        ensures sizes { IfOk result (λ history. history_sizes history ≡ sizes.now) }
        ensures told { IfOk result (λ history. history.told.items ≡ []) }
    {
        if sizes.len() > u32::MAX as usize {
            return Err(AllocError);
        }
        Ok(History {
            disks: blank_disks(alloc, sizes)?,
            calls: Vec::new(alloc),
            counts: Vec::new(alloc),
            told: Vec::new(alloc),
            told_before: 0,
        })
    }

    /// Gives what was written last, from that block on.
    pub fn read(&self, drive: u32, at: u64, out: &mut [Block])
        requires { InDrive (history_sizes self.now) drive at (length out.old) }
        ensures { Shows (history_tale self.now) drive at out.new }
    {
        self.disks[drive as usize].copy_to(at as usize, out);
    }

    pub fn write(
        &mut self,
        alloc: Global,
        drive: u32,
        at: u64,
        from: &[Block],
        health: &[Health],
        totals: Totals,
    ) -> Result<(), AllocError>
        requires { InDrive (history_sizes self.old) drive at (length from.now) }
        ensures ok { OnOk result (history_tale self.new ≡ Then (history_tale self.old) (Wrote drive at from.now)) }
        ensures err { OnErr result (history_tale self.new ≡ history_tale self.old) }
        ensures noted { OnOk result (history_story self.new ≡ Next (history_story self.old) (Wrote drive at from.now) (tally_in health.now totals)) }
        ensures not_noted { OnErr result (history_story self.new ≡ history_story self.old) }
        ensures sizes { history_sizes self.new ≡ history_sizes self.old }
        ensures told { self.new.told.items ≡ self.old.told.items }
    {
        let blocks = Vec::from_slice(alloc, from)?;
        let counts = Counts::with_room(alloc, health, totals, &mut self.counts)?;
        self.calls.reserve(1)?;
        self.calls
            .push_reserved(MemCall::Write { drive, at, blocks });
        self.counts.push_reserved(counts);
        self.disks[drive as usize].put(at as usize, from);
        Ok(())
    }

    pub fn sync(
        &mut self,
        alloc: Global,
        drive: u32,
        health: &[Health],
        totals: Totals,
    ) -> Result<(), AllocError>
        ensures ok { OnOk result (history_tale self.new ≡ Then (history_tale self.old) (Synced drive)) }
        ensures err { OnErr result (history_tale self.new ≡ history_tale self.old) }
        ensures noted { OnOk result (history_story self.new ≡ Next (history_story self.old) (Synced drive) (tally_in health.now totals)) }
        ensures not_noted { OnErr result (history_story self.new ≡ history_story self.old) }
        ensures sizes { history_sizes self.new ≡ history_sizes self.old }
        ensures told { self.new.told.items ≡ self.old.told.items }
    {
        let counts = Counts::with_room(alloc, health, totals, &mut self.counts)?;
        self.calls.reserve(1)?;
        self.calls.push_reserved(MemCall::Sync { drive });
        self.counts.push_reserved(counts);
        Ok(())
    }

    pub fn give(
        &mut self,
        alloc: Global,
        piece: &[u8],
        health: &[Health],
        totals: Totals,
    ) -> Result<(), AllocError>
        ensures ok { OnOk result (history_tale self.new ≡ Then (history_tale self.old) (Gave piece.now (length piece.now))) }
        ensures told { OnOk result (self.new.told.items ≡ self.old.told.items ++ piece.now) }
        ensures err { OnErr result (history_tale self.new ≡ history_tale self.old) }
        ensures not_told { OnErr result (self.new.told.items ≡ self.old.told.items) }
        ensures noted { OnOk result (history_story self.new ≡ Next (history_story self.old) (Gave piece.now (length piece.now)) (tally_in health.now totals)) }
        ensures not_noted { OnErr result (history_story self.new ≡ history_story self.old) }
        ensures sizes { history_sizes self.new ≡ history_sizes self.old }
    {
        let copy = Vec::from_slice(alloc, piece)?;
        let counts = Counts::with_room(alloc, health, totals, &mut self.counts)?;
        self.calls.reserve(1)?;
        self.told.extend_from_slice(piece)?;
        self.calls.push_reserved(MemCall::Give { piece: copy });
        self.counts.push_reserved(counts);
        Ok(())
    }

    /// Each block gets one of the values that a crash may leave there, and the tale begins anew.
    pub fn crash(&mut self, choice: &[u32])
        ensures tale { history_tale self.new ≡ crashed (history_tale self.old) (history_sizes self.old) choice.now }
        ensures sizes { history_sizes self.new ≡ history_sizes self.old }
        ensures told { self.new.told.items ≡ self.old.told.items }
    {
        crash_disks(&mut self.disks, &self.calls, choice);
        self.counts.clear();
        begin_anew(&mut self.calls, &mut self.told_before, &self.told);
    }

    /// The drive's blocks get their stable values, every other drive's what a read gives, and the tale
    /// begins anew.
    pub fn bring_back(&mut self, drive: u32)
        requires { drive < length (history_sizes self.old) }
        ensures tale { history_tale self.new ≡ brought_back (history_tale self.old) drive }
        ensures sizes { history_sizes self.new ≡ history_sizes self.old }
        ensures told { self.new.told.items ≡ self.old.told.items }
    {
        let _ = self.disks[drive as usize].crash(drive, &self.calls, &[]);
        settle_disks(&mut self.disks);
        self.counts.clear();
        begin_anew(&mut self.calls, &mut self.told_before, &self.told);
    }
}

fn blank_disks(alloc: Global, sizes: &[u64]) -> Result<Vec<Disk>, AllocError>
    ensures start { IfOk result (λ disks. start_blocks disks.items ≡ map (λ n. replicate n zero_block) sizes.now) }
    ensures latest { IfOk result (λ disks. latest_blocks disks.items ≡ map (λ n. replicate n zero_block) sizes.now) }
{
    let mut disks = Vec::new(alloc);
    for blocks in sizes {
        disks.push(Disk::blank(alloc, *blocks)?)?;
    }
    Ok(disks)
}

// From here on the record is of what comes.
fn begin_anew(calls: &mut Vec<MemCall>, told_before: &mut usize, told: &[u8])
    ensures calls { calls.new.items ≡ [] }
    ensures told { told_before.new ≡ length told.now }
{
    calls.clear();
    *told_before = told.len();
}
