ghost use Rattle.std.specs.Prelude.{◌≡◌, ◌≤◌, ◌+◌, length, replicate, None, Some, IfOk, IfErr, OnOk};
ghost use Rattle.mdv_status.specs.Values.{values_reply};
ghost use Rattle.mdv_config.specs.Slices.{IsSound};
ghost use Rattle.mdv_layout.specs.Layouts.{layout_map};
ghost use Rattle.mdv_words.specs.Line.{blocks_of};
ghost use Rattle.mdv_words.specs.declared.command.Command.TheVariants.{Read, Write};
ghost use Rattle.mdv_words.specs.declared.written.Written.TheVariants.{Filled};
ghost use Rattle.mdv_volumes.specs.History.{Wrote};
ghost use Rattle.mdv_engine.specs.Counts.{HasReadCounts, IsCommandCounted};
ghost use Rattle.mdv_engine.specs.Writing.{HasWriteCause, HasWriteCounts, IsFree};
ghost use Rattle.mdv_engine.specs.Placed.{IsPlacedIn};
ghost use Rattle.mdv_engine.specs.Engine.{HasBlocksCause, HasReadCause, IsCount, IsWell};
ghost use Rattle.mdv_shelf.specs.Shelves.{AtEachTale, AtEnd, DriveFailures};
ghost use Rattle.mdv_engine_law.specs.Commands.{FailedBlocks, FailedWrite};
ghost use Rattle.mdv_engine_law.specs.Hosts.{IsReady, key_of};
ghost use Rattle.mdv_engine_law.specs.Line.{HasBlocks, ToDo, ToSee};
ghost use Rattle.mdv_engine_law.specs.Refusals.{blocks_refusal, transfer_refusal};
ghost use Rattle.mdv_engine_law.specs.Standing.{CarryMoment};
ghost use Rattle.mdv_engine.specs.Ends.{AreBlocksCounted, AreRead, AreWritten, CommandEnd, HasAnswered, KeptOnBlocks, read_calls, write_calls};

use crate::engine::Engine;
use mdv_base::{BLOCK_BYTES, Block, Failed, Refusal, VolId, ZERO_BLOCK};
use mdv_dev::Placed;
use mdv_engine_law::{Answer, Outcome};
use mdv_layout::{Layout, lay_out};
use mdv_shelf::Shelf;
use mdv_status::ValueText;
use mdv_words::Written;
use std::alloc::Global;

// The most blocks that one line reads or writes.
const MOST_BLOCKS: u64 = 1024;

impl Engine {
    /// Reads blocks of a volume, from block `at` of it on: 1 to 1024 of them, with one call for each piece that lies
    /// together on a drive. No memory is taken. After a fault `out` holds anything.
    #[tactic(auto, using(crate::proofs::Requested::drives_none))]
    pub fn read_blocks<S: Shelf>(
        &self,
        shelf: &mut S,
        volume: VolId,
        at: u64,
        out: &mut [Block],
    ) -> Result<(), Refusal>
        requires ready { IsReady self.now.host (S.sizes shelf.old) }
        requires well { IsWell self.now.host self.now.state }
        requires count { IsCount (length out.old) }
        ensures ok { OnOk result (AreRead S.Shelf shelf.old shelf.new self.now volume at (length out.new) (λ blocks. out.new ≡ blocks)) }
        ensures err { IfErr result (HasBlocksCause FailedBlocks (DriveFailures S.Shelf shelf.old shelf.new) self.now.host self.now.state volume at (length out.new)) }
        ensures same { S.tale shelf.new ≡ S.tale shelf.old }
        ensures counted { AreBlocksCounted S.Shelf shelf.old shelf.new (read_calls self.now volume at (length out.new)) 0 self.now volume at (length out.new) result }
        ensures kept { KeptOnBlocks S.Shelf shelf.old shelf.new self.now.host self.now.state volume at (length out.new) }
    {
        let device = self.place_of(volume, at, out.len() as u64)?;
        match mdv_dev::read_blocks(&device, shelf, at, out) {
            Ok(()) => Ok(()),
            Err(_) => Err(Refusal::IoFault),
        }
    }

    /// Writes blocks of a volume, from block `at` of it on: 1 to 1024 of them, with one write for each piece
    /// that lies together on a drive, and one sync of each drive. No memory is taken. Where a call failed, each of the
    /// blocks may be old or new, and so may a crash leave those on drives that failed, which are unsteady till the next
    /// boot; the other drives are synced. The buffer stays as it is.
    #[tactic(auto, using(crate::proofs::Requested::drives_none))]
    pub fn write_blocks<S: Shelf>(
        &mut self,
        shelf: &mut S,
        volume: VolId,
        at: u64,
        from: &mut [Block],
    ) -> Result<(), Refusal>
        requires ready { IsReady self.old.host (S.sizes shelf.old) }
        requires well { IsWell self.old.host self.old.state }
        requires count { IsCount (length from.old) }
        ensures put { AreWritten S.Shelf shelf.old shelf.new self.old volume at from.old result self.new }
        ensures err { IfErr result (HasBlocksCause FailedWrite (DriveFailures S.Shelf shelf.old shelf.new) self.old.host self.old.state volume at (length from.old)) }
        ensures left { from.new ≡ from.old }
        ensures counted { AreBlocksCounted S.Shelf shelf.old shelf.new (write_calls self.old volume at (length from.old)) (length from.old) self.old volume at (length from.old) result }
        ensures kept { KeptOnBlocks S.Shelf shelf.old shelf.new self.old.host self.old.state volume at (length from.old) }
    {
        let device = self.place_of(volume, at, from.len() as u64)?;
        match mdv_dev::write_blocks(&device, shelf, at, from, &mut self.state.unsteady) {
            Ok(()) => Ok(()),
            Err(Failed) => Err(Refusal::IoFault),
        }
    }

    // `read dN AT COUNT`.
    pub(crate) fn read<S: Shelf>(
        &self,
        shelf: &mut S,
        alloc: Global,
        volume: VolId,
        at: u64,
        count: u64,
    ) -> Answer
        requires ready { IsReady self.now.host (S.sizes shelf.old) }
        requires well { IsWell self.now.host self.now.state }
        requires some { 1 ≤ count }
        ensures moments { AtEachTale S.Shelf (CarryMoment self.now.host (ToSee (key_of self.now.host) volume at count) self.now.state) shelf.old shelf.new }
        ensures end { AtEnd S.Shelf (CommandEnd (DriveFailures S.Shelf shelf.old shelf.new) self.now (Read volume at count) result self.now) shelf.old shelf.new }
        ensures answer { HasAnswered (DriveFailures S.Shelf shelf.old shelf.new) (Read volume at count) self.now result self.now }
        ensures counted { IsCommandCounted S.Shelf shelf.old shelf.new self.now.host (Read volume at count) result self.now.state.opened self.now.state.opened }
        ensures kept { KeptOnBlocks S.Shelf shelf.old shelf.new self.now.host self.now.state volume at count }
    {
        match self.values(shelf, alloc, volume, at, count) {
            Ok(text) => Answer::Said(Outcome::Values(text)),
            Err(refusal) => Answer::Said(Outcome::Refused(refusal)),
        }
    }

    #[tactic(auto, using(crate::proofs::Requested::drives_none))]
    fn values<S: Shelf>(
        &self,
        shelf: &mut S,
        alloc: Global,
        volume: VolId,
        at: u64,
        count: u64,
    ) -> Result<ValueText, Refusal>
        requires ready { IsReady self.now.host (S.sizes shelf.old) }
        requires well { IsWell self.now.host self.now.state }
        requires some { 1 ≤ count }
        ensures ok { IfOk result (λ text. AreRead S.Shelf shelf.old shelf.new self.now volume at count (λ blocks. text ≡ values_reply at blocks)) }
        ensures err { IfErr result (HasReadCause (DriveFailures S.Shelf shelf.old shelf.new) self.now.host self.now.state volume at count) }
        ensures same { S.tale shelf.new ≡ S.tale shelf.old }
        ensures counted { HasReadCounts S.Shelf shelf.old shelf.new self.now.host volume at count result self.now.state.opened }
        ensures kept { KeptOnBlocks S.Shelf shelf.old shelf.new self.now.host self.now.state volume at count }
    {
        let _place = self.transfer_place(volume, at, count)?;
        let mut blocks = buffer(alloc, count, ZERO_BLOCK)?;
        match self.read_blocks(shelf, volume, at, blocks.as_mut_slice()) {
            Ok(()) => {}
            Err(refusal) => return Err(refusal),
        }
        match ValueText::new(alloc, at, blocks.as_slice()) {
            Ok(text) => Ok(text),
            Err(_) => Err(Refusal::OutOfMemory),
        }
    }

    // `write dN AT HEX` and `fill dN AT COUNT BYTE`.
    pub(crate) fn write<S: Shelf>(
        &mut self,
        shelf: &mut S,
        alloc: Global,
        volume: VolId,
        at: u64,
        what: &Written,
    ) -> Answer
        requires ready { IsReady self.old.host (S.sizes shelf.old) }
        requires well { IsWell self.old.host self.old.state }
        requires some { 1 ≤ length (blocks_of what.now) }
        ensures moments { AtEachTale S.Shelf (CarryMoment self.old.host (ToDo (Wrote (key_of self.old.host) volume at (blocks_of what.now))) self.old.state) shelf.old shelf.new }
        ensures end { AtEnd S.Shelf (CommandEnd (DriveFailures S.Shelf shelf.old shelf.new) self.old (Write volume at what.now) result self.new) shelf.old shelf.new }
        ensures answer { HasAnswered (DriveFailures S.Shelf shelf.old shelf.new) (Write volume at what.now) self.old result self.new }
        ensures counted { IsCommandCounted S.Shelf shelf.old shelf.new self.old.host (Write volume at what.now) result self.old.state.opened self.new.state.opened }
        ensures kept { KeptOnBlocks S.Shelf shelf.old shelf.new self.old.host self.old.state volume at (length (blocks_of what.now)) }
    {
        match self.put(shelf, alloc, volume, at, what) {
            Ok(()) => Answer::Said(Outcome::Ok),
            Err(refusal) => Answer::Said(Outcome::Refused(refusal)),
        }
    }

    // Writes one block, or many.
    fn put<S: Shelf>(
        &mut self,
        shelf: &mut S,
        alloc: Global,
        volume: VolId,
        at: u64,
        what: &Written,
    ) -> Result<(), Refusal>
        requires ready { IsReady self.old.host (S.sizes shelf.old) }
        requires well { IsWell self.old.host self.old.state }
        requires some { 1 ≤ length (blocks_of what.now) }
        ensures put { AreWritten S.Shelf shelf.old shelf.new self.old volume at (blocks_of what.now) result self.new }
        ensures free { OnOk result (IsFree self.old.host self.old.state volume at what.now) }
        ensures err { IfErr result (HasWriteCause (DriveFailures S.Shelf shelf.old shelf.new) self.old.host self.old.state volume at what.now) }
        ensures counted { HasWriteCounts S.Shelf shelf.old shelf.new self.old volume at (length (blocks_of what.now)) result }
        ensures kept { KeptOnBlocks S.Shelf shelf.old shelf.new self.old.host self.old.state volume at (length (blocks_of what.now)) }
    {
        match what {
            Written::One(block) => self.write_blocks(shelf, volume, at, &mut [*block]),
            Written::Filled { count, byte } => self.fill(shelf, alloc, volume, at, *count, *byte),
        }
    }

    // Writes so many blocks of this byte, or tells the first cause that it is refused for.
    #[tactic(auto, using(crate::proofs::Requested::drives_none))]
    fn fill<S: Shelf>(
        &mut self,
        shelf: &mut S,
        alloc: Global,
        volume: VolId,
        at: u64,
        count: u64,
        byte: u8,
    ) -> Result<(), Refusal>
        requires ready { IsReady self.old.host (S.sizes shelf.old) }
        requires well { IsWell self.old.host self.old.state }
        requires some { 1 ≤ count }
        ensures put { AreWritten S.Shelf shelf.old shelf.new self.old volume at (blocks_of (Filled count byte)) result self.new }
        ensures free { OnOk result (IsFree self.old.host self.old.state volume at (Filled count byte)) }
        ensures err { IfErr result (HasWriteCause (DriveFailures S.Shelf shelf.old shelf.new) self.old.host self.old.state volume at (Filled count byte)) }
        ensures counted { HasWriteCounts S.Shelf shelf.old shelf.new self.old volume at (length (blocks_of (Filled count byte))) result }
        ensures kept { KeptOnBlocks S.Shelf shelf.old shelf.new self.old.host self.old.state volume at (length (blocks_of (Filled count byte))) }
    {
        let _place = self.transfer_place(volume, at, count)?;
        let mut blocks = buffer(alloc, count, [byte; BLOCK_BYTES])?;
        self.write_blocks(shelf, volume, at, blocks.as_mut_slice())
    }

    // The volume whose blocks are to be read or written, or the first cause that it is refused for.
    fn transfer_place(&self, volume: VolId, at: u64, count: u64) -> Result<Layout, Refusal>
        requires sound { IsSound self.now.host.drives }
        requires well { IsWell self.now.host self.now.state }
        ensures ok { IfOk result (λ layout. HasBlocks self.now.host self.now.state volume at count (layout_map layout)) }
        ensures few { OnOk result (count ≤ 1024) }
        ensures free { OnOk result (transfer_refusal self.now.host self.now.state.opened volume at count ≡ None) }
        ensures within { IfOk result (IsPlacedIn self.now.host at count) }
        ensures err { IfErr result (λ refusal. transfer_refusal self.now.host self.now.state.opened volume at count ≡ Some refusal) }
    {
        if count > MOST_BLOCKS {
            // A volume that isn't there comes first, and blocks past its end behind.
            let _there = self.place_of(volume, 0, 0)?;
            return Err(Refusal::TooMany);
        }
        self.place_of(volume, at, count)
    }

    // The volume as a device, where it has these blocks, or the first cause that they are refused for.
    fn place_of(&self, volume: VolId, at: u64, count: u64) -> Result<Layout, Refusal>
        requires sound { IsSound self.now.host.drives }
        requires well { IsWell self.now.host self.now.state }
        ensures ok { IfOk result (λ layout. HasBlocks self.now.host self.now.state volume at count (layout_map layout)) }
        ensures within { IfOk result (IsPlacedIn self.now.host at count) }
        ensures free { OnOk result (blocks_refusal self.now.host self.now.state.opened volume (at + count) ≡ None) }
        ensures err { IfErr result (λ refusal. blocks_refusal self.now.host self.now.state.opened volume (at + count) ≡ Some refusal) }
    {
        let Some(store) = &self.state.database else {
            return Err(Refusal::NoDatabase);
        };
        let Some(layout) = lay_out(&self.host.drives, store.table(), volume) else {
            return Err(Refusal::NoSuchVolume);
        };
        let blocks = layout.blocks();
        if at > blocks || count > blocks - at {
            return Err(Refusal::OutOfRange);
        }
        Ok(layout)
    }
}

// So many blocks like this one.
fn buffer(alloc: Global, count: u64, block: Block) -> Result<Vec<Block>, Refusal>
    requires { count ≤ 1024 }
    ensures ok { IfOk result (λ blocks. blocks.items ≡ replicate count block) }
    ensures err { IfErr result (λ refusal. refusal ≡ Refusal.OutOfMemory) }
{
    match Vec::from_elem(alloc, block, count as usize) {
        Ok(blocks) => Ok(blocks),
        Err(_) => Err(Refusal::OutOfMemory),
    }
}
