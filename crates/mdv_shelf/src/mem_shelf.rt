// A shelf whose drives are in memory. It keeps a record of its calls, and so can crash.
ghost use Rattle.std.specs.Prelude.{◌≡◌, ◌≤◌, ◌+◌, ◌-◌, ◌^◌, min, length};

mod counts;
mod crash;
mod disk;
mod history;
mod plan;
mod scan;

use crate::mem_shelf::counts::Totals;
use crate::mem_shelf::history::History;
use crate::mem_shelf::plan::Plan;
use crate::shelf::{Bench, Shelf};
use mdv_base::{Block, DriveNo, Failed};
use std::alloc::{AllocError, Global};

/// Whether a drive is lost, and how many calls on it failed.
#[derive(Clone, Copy)]
struct Health {
    lost: bool,
    faults: u64,
}

/// A shelf and bench in memory, whose failures are asked for. It takes memory for the record of its calls
/// and the bytes told; where that is refused, or after 2^62 calls, a call fails without being asked to, and
/// the shelf is short from then on.
#[derive(Drop)]
pub struct MemShelf {
    alloc: Global,
    history: History,
    plan: Plan,
    health: Vec<Health>,
    reply_faults: u64,
    written: u64,
    short: bool,
    ghost each: { length health.items ≡ length history.disks.items },
}

// Adds to a count, which stands still at its type's end.
fn count(total: &mut u64, more: u64)
    ensures sum { total.new ≡ min (total.old + more) (2 ^ 64 - 1) }
    ensures no_less { total.old ≤ total.new }
{
    *total = total.saturating_add(more);
}

impl MemShelf {
    ghost use Rattle.std.specs.Prelude.{◌+◌, ◌-◌, ◌^◌, ◌<◌, ◌++◌, ◌&&◌, [], ◌∷◌, true, false, not, nat_lt, min, slice_set, IfOk, OnOk, OnErr, Some, None};
    ghost use Rattle.mdv_shelf.specs.Tale.{told, IsImage};
    ghost use Rattle.mdv_shelf.specs.Calls.{OnDrive, OnReplies};
    ghost use Rattle.mdv_shelf.specs.MemHistory.{crashed, brought_back, image_of};
    ghost use Rattle.mdv_shelf.specs.MemShelf.{shelf_sizes, shelf_tale, shelf_totals, told_bytes, call_count, is_short, failing_numbers, losses, stop_number, lost_drives, is_asked, earlier_stop, begun_losses, losses_without, KeepsCounts, IsUntouched, HasFailed, IsNew};

    /// Drives of zero blocks, so many each, and nothing asked to fail. More than 2^32 - 1 drives are
    /// refused like want of memory.
    pub fn new(alloc: Global, sizes: &[u64]) -> Result<MemShelf, AllocError>
        ensures { IfOk result (IsNew sizes.now) }
    {
        let history = History::new(alloc, sizes)?;
        let health = vec![in alloc; Health {
            lost: false,
            faults: 0
        }; sizes.len()]?;
        Ok(MemShelf {
            alloc,
            history,
            plan: Plan::new(alloc),
            health,
            reply_faults: 0,
            written: 0,
            short: false,
        })
    }

    /// The call of that number fails, counted from 0: the call that is made while that many were made.
    pub fn fail_call(&mut self, number: u64) -> Result<(), AllocError>
        ensures ok { OnOk result (failing_numbers self.new ≡ failing_numbers self.old ++ number ∷ []) }
        ensures err { OnErr result (failing_numbers self.new ≡ failing_numbers self.old) }
        ensures losses { losses self.new ≡ losses self.old }
        ensures stop { stop_number self.new ≡ stop_number self.old }
        ensures lost { lost_drives self.new ≡ lost_drives self.old }
        ensures untouched { IsUntouched self.old self.new }
    {
        self.plan.failing.push(number)?;
        Ok(())
    }

    /// The drive refuses each call from now on.
    pub fn lose(&mut self, drive: DriveNo)
        requires { drive.0 < length (shelf_sizes self.old) }
        ensures lost { lost_drives self.new ≡ slice_set (lost_drives self.old) drive.0 true }
        ensures failing { failing_numbers self.new ≡ failing_numbers self.old }
        ensures losses { losses self.new ≡ losses self.old }
        ensures stop { stop_number self.new ≡ stop_number self.old }
        ensures untouched { IsUntouched self.old self.new }
    {
        self.health[drive.0 as usize].lost = true;
    }

    /// The drive is lost no more and holds its stable values; the tale begins anew. A drive comes back
    /// between two runs only: what other drives were given and not synced counts as stable from then on.
    pub fn bring_back(&mut self, drive: DriveNo)
        requires { drive.0 < length (shelf_sizes self.old) }
        ensures tale { shelf_tale self.new ≡ brought_back (shelf_tale self.old) drive.0 }
        ensures lost { lost_drives self.new ≡ slice_set (lost_drives self.old) drive.0 false }
        ensures losses { losses self.new ≡ losses_without (call_count self.old) drive.0 (losses self.old) }
        ensures failing { failing_numbers self.new ≡ failing_numbers self.old }
        ensures stop { stop_number self.new ≡ stop_number self.old }
        ensures counts { KeepsCounts self.old self.new }
    {
        self.history.bring_back(drive.0);
        self.health[drive.0 as usize].lost = false;
        self.plan.bring_back(drive.0);
    }

    /// From the call of that number on the drive is lost.
    pub fn lose_at(&mut self, drive: DriveNo, number: u64) -> Result<(), AllocError>
        requires { drive.0 < length (shelf_sizes self.old) }
        ensures ok { OnOk result (losses self.new ≡ losses self.old ++ record { drive = drive.0; number = number } ∷ []) }
        ensures err { OnErr result (losses self.new ≡ losses self.old) }
        ensures failing { failing_numbers self.new ≡ failing_numbers self.old }
        ensures stop { stop_number self.new ≡ stop_number self.old }
        ensures lost { lost_drives self.new ≡ lost_drives self.old }
        ensures untouched { IsUntouched self.old self.new }
    {
        self.plan.lose_at(drive.0, number)
    }

    /// So many calls pass, then every call fails. Of two stops the earlier one stands.
    pub fn stop_after(&mut self, calls: u64)
        ensures stop { stop_number self.new ≡ Some (earlier_stop (stop_number self.old) (min (call_count self.old + calls) (2 ^ 64 - 1))) }
        ensures failing { failing_numbers self.new ≡ failing_numbers self.old }
        ensures losses { losses self.new ≡ losses self.old }
        ensures lost { lost_drives self.new ≡ lost_drives self.old }
        ensures untouched { IsUntouched self.old self.new }
    {
        self.plan.stop_after(calls);
    }

    /// Block after block, in order of drive and number, the choice's next number picks one of the values
    /// that a crash may leave in the block: the stable value is number 0, then come the later ones, counted
    /// round. Where the choice is used up, the stable value is left. What was asked to fail ends; a drive
    /// that is lost stays lost, though its blocks are picked too.
    pub fn crash(&mut self, choice: &[u32])
        ensures tale { shelf_tale self.new ≡ crashed (shelf_tale self.old) (shelf_sizes self.old) choice.now }
        ensures image { IsImage (shelf_tale self.old) (image_of (shelf_tale self.old) (shelf_sizes self.old) choice.now) }
        ensures failing { failing_numbers self.new ≡ [] }
        ensures losses { losses self.new ≡ begun_losses (call_count self.old) (losses self.old) }
        ensures stop { stop_number self.new ≡ None }
        ensures lost { lost_drives self.new ≡ lost_drives self.old }
        ensures counts { KeepsCounts self.old self.new }
    {
        self.history.crash(choice);
        self.plan.crash();
    }

    /// All bytes told, also those before a crash.
    pub fn told(&self) -> &[u8]
        ensures bytes { result.now ≡ told_bytes self.now }
        ensures tale { result.now ≡ told (shelf_tale self.now) }
    {
        &self.history.told
    }

    /// Whether a call failed that wasn't asked to. While it is false, each failure so far was asked for.
    pub fn short(&self) -> bool
        ensures { result ≡ is_short self.now }
    {
        self.short
    }

    // What was counted so far, but for the drives' failures.
    fn totals(&self) -> Totals
        ensures { result ≡ shelf_totals self.now }
    {
        Totals {
            reply_faults: self.reply_faults,
            calls: self.plan.calls,
            written: self.written,
        }
    }

    fn is_asked_on(&self, drive: u32) -> bool
        requires { drive < length (shelf_sizes self.now) }
        ensures { result ≡ is_asked self.now (OnDrive drive) }
    {
        self.plan.asks_any() || self.health[drive as usize].lost || self.plan.asks_loss(drive)
    }

    fn may_call_on(&self, drive: u32) -> bool
        requires { drive < length (shelf_sizes self.now) }
        ensures { result ≡ (not (is_asked self.now (OnDrive drive)) && nat_lt (call_count self.now) (2 ^ 62)) }
    {
        !self.is_asked_on(drive) && self.plan.has_room()
    }

    fn may_give(&self) -> bool
        ensures { result ≡ (not (is_asked self.now OnReplies) && nat_lt (call_count self.now) (2 ^ 62)) }
    {
        !self.plan.asks_any() && self.plan.has_room()
    }

    fn fail_on(&mut self, drive: u32, blocks: u64) -> Failed
        requires { drive < length (shelf_sizes self.old) }
        ensures { HasFailed (OnDrive drive) blocks self.old self.new }
    {
        self.short |= !self.is_asked_on(drive);
        count(&mut self.health[drive as usize].faults, 1);
        count(&mut self.plan.calls, 1);
        count(&mut self.written, blocks);
        Failed
    }

    fn fail_giving(&mut self) -> Failed
        ensures { HasFailed OnReplies 0 self.old self.new }
    {
        self.short |= !self.plan.asks_any();
        count(&mut self.reply_faults, 1);
        count(&mut self.plan.calls, 1);
        count(&mut self.written, 0);
        Failed
    }
}

impl Shelf for MemShelf {
    ghost use Rattle.std.specs.Prelude.{◌⊎◌, ◌<◌, ◌≤◌, IsTrue, IsErr, map, reverse};
    ghost use Rattle.mdv_shelf.specs.Story.{IsNoted};
    ghost use Rattle.mdv_shelf.specs.MemStory.{tells_tale};
    ghost use Rattle.mdv_shelf.specs.Calls.{OnDrive, InDrive, Reads, Writes, Syncs, HasDriveCause, Keeps, IsCounted};
    ghost use Rattle.mdv_shelf.specs.MemShelf.{shelf_sizes, shelf_tale, counts_of, call_count, fault_count, is_asked, AnswersAsAsked, told_tale, told_story, told_calls, told_blocks, nothing};

    ghost sizes = { shelf_sizes };

    ghost faults = { fault_count };

    ghost tale = { told_tale };

    ghost story = { told_story };

    ghost calls = { told_calls };

    ghost written = { told_blocks };

    ghost Rest = { Unit {0} };

    ghost rest = { nothing };

    ghost Held = { Unit {0} };

    ghost held = { nothing };

    fn drives(&self) -> u32 {
        self.history.disks.len() as u32
    }

    fn blocks(&self, drive: DriveNo) -> u64 {
        self.history.disks[drive.0 as usize].latest.len() as u64
    }

    fn read(&mut self, drive: DriveNo, at: u64, out: &mut [Block]) -> Result<(), Failed>
        requires { InDrive (shelf_sizes self.old) drive.0 at (length out.old) }
        ensures reads { Reads (told_tale self.old) drive.0 at result out.new (told_tale self.new) }
        ensures cause { HasDriveCause (fault_count self.old) (fault_count self.new) drive.0 result }
        ensures counted { IsCounted told_calls told_blocks self.old self.new 0 }
        ensures keeps { Keeps shelf_sizes fault_count nothing nothing self.old self.new }
        ensures noted { IsNoted told_story fault_count told_calls told_blocks (OnDrive drive.0) self.old self.new }
        ensures answers { AnswersAsAsked (OnDrive drive.0) result self.old self.new }
        ensures only_asked_or_spent { IsErr result → IsTrue (is_asked self.old (OnDrive drive.0)) ⊎ (2 ^ 62 ≤ call_count self.old) }
    {
        if !self.may_call_on(drive.0) {
            return Err(self.fail_on(drive.0, 0));
        }
        self.history.read(drive.0, at, out);
        count(&mut self.plan.calls, 1);
        count(&mut self.written, 0);
        Ok(())
    }

    fn write(&mut self, drive: DriveNo, at: u64, from: &[Block]) -> Result<(), Failed>
        requires { InDrive (shelf_sizes self.old) drive.0 at (length from.now) }
        ensures writes { Writes (told_tale self.old) drive.0 at from.now result (told_tale self.new) }
        ensures cause { HasDriveCause (fault_count self.old) (fault_count self.new) drive.0 result }
        ensures counted { IsCounted told_calls told_blocks self.old self.new (length from.now) }
        ensures keeps { Keeps shelf_sizes fault_count nothing nothing self.old self.new }
        ensures noted { IsNoted told_story fault_count told_calls told_blocks (OnDrive drive.0) self.old self.new }
        ensures answers { AnswersAsAsked (OnDrive drive.0) result self.old self.new }
    {
        let blocks = from.len() as u64;
        if !self.may_call_on(drive.0) {
            return Err(self.fail_on(drive.0, blocks));
        }
        let totals = self.totals();
        match self
            .history
            .write(self.alloc, drive.0, at, from, &self.health, totals)
        {
            Err(_) => Err(self.fail_on(drive.0, blocks)),
            Ok(()) => {
                count(&mut self.plan.calls, 1);
                count(&mut self.written, blocks);
                Ok(())
            }
        }
    }

    fn sync(&mut self, drive: DriveNo) -> Result<(), Failed>
        requires { drive.0 < length (shelf_sizes self.old) }
        ensures syncs { Syncs (told_tale self.old) drive.0 result (told_tale self.new) }
        ensures cause { HasDriveCause (fault_count self.old) (fault_count self.new) drive.0 result }
        ensures counted { IsCounted told_calls told_blocks self.old self.new 0 }
        ensures keeps { Keeps shelf_sizes fault_count nothing nothing self.old self.new }
        ensures noted { IsNoted told_story fault_count told_calls told_blocks (OnDrive drive.0) self.old self.new }
        ensures answers { AnswersAsAsked (OnDrive drive.0) result self.old self.new }
    {
        if !self.may_call_on(drive.0) {
            return Err(self.fail_on(drive.0, 0));
        }
        let totals = self.totals();
        match self.history.sync(self.alloc, drive.0, &self.health, totals) {
            Err(_) => Err(self.fail_on(drive.0, 0)),
            Ok(()) => {
                count(&mut self.plan.calls, 1);
                count(&mut self.written, 0);
                Ok(())
            }
        }
    }

    ghost telling = { λ s. tells_tale (shelf_tale s) (reverse (map counts_of s.history.counts.items)) };
}

impl Bench for MemShelf {
    ghost use Rattle.std.specs.Prelude.{◌<◌, ◌++◌, OnOk};
    ghost use Rattle.mdv_shelf.specs.Story.{IsNoted};
    ghost use Rattle.mdv_shelf.specs.Calls.{OnReplies, Gives, HasGivingCause, Keeps, IsCounted};
    ghost use Rattle.mdv_shelf.specs.MemShelf.{shelf_sizes, told_bytes, fault_count, AnswersAsAsked, told_tale, told_story, told_calls, told_blocks, nothing};

    fn give(&mut self, piece: &[u8]) -> Result<(), Failed>
        requires { 0 < length piece.now }
        ensures gives { Gives (told_tale self.old) piece.now result (told_tale self.new) }
        ensures cause { HasGivingCause (fault_count self.old) (fault_count self.new) result }
        ensures counted { IsCounted told_calls told_blocks self.old self.new 0 }
        ensures keeps { Keeps shelf_sizes fault_count nothing nothing self.old self.new }
        ensures noted { IsNoted told_story fault_count told_calls told_blocks OnReplies self.old self.new }
        ensures answers { AnswersAsAsked OnReplies result self.old self.new }
        ensures told { OnOk result (told_bytes self.new ≡ told_bytes self.old ++ piece.now) }
    {
        if !self.may_give() {
            return Err(self.fail_giving());
        }
        let totals = self.totals();
        match self.history.give(self.alloc, piece, &self.health, totals) {
            Err(_) => Err(self.fail_giving()),
            Ok(()) => {
                count(&mut self.plan.calls, 1);
                count(&mut self.written, 0);
                Ok(())
            }
        }
    }
}
