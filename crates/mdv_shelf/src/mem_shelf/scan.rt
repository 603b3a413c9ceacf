// The values that a crash may leave in one block, counted and picked from the record of calls.
ghost use Rattle.std.specs.Prelude.{◌≡◌, ◌+◌, ◌-◌, ◌^◌, ◌<◌, ◌≤◌, IfSome, IfNone, true, false};
ghost use Rattle.mdv_shelf.specs.Tale.{Tale, Then, Start, Begun, writes, written, syncs, values, last};
ghost use Rattle.mdv_shelf.specs.MemHistory.{call_of, continued, picked, ScansTo};

use crate::mem_shelf::disk::MemCall;
use mdv_base::Block;

/// A block as it is met along the calls: its last value, how many values a crash may leave there, and
/// the wanted one of them.
#[derive(Drop)]
pub struct Scan {
    last: Block,
    count: usize,
    found: Block,
}

impl MemCall {
    /// What the call writes in the block.
    fn written(&self, drive: u32, block: u64) -> Option<&Block>
        ensures some { IfSome result (λ value. (writes (call_of self.now) drive block ≡ true) × (written (call_of self.now) block ≡ value.now)) }
        ensures none { IfNone result (writes (call_of self.now) drive block ≡ false) }
    {
        match self {
            MemCall::Write {
                drive: on,
                at,
                blocks,
            } if *on == drive && *at <= block => blocks.get((block - *at) as usize),
            _ => None,
        }
    }

    fn syncs(&self, drive: u32) -> bool
        ensures { result ≡ syncs (call_of self.now) drive }
    {
        match self {
            MemCall::Sync { drive: on } => *on == drive,
            _ => false,
        }
    }
}

impl Scan {
    /// Goes on over one more call. The wanted value has that number, the oldest being number 0.
    fn step(&mut self, call: &MemCall, drive: u32, block: u64, wanted: usize)
        requires { self.old.count < 2 ^ 64 - 1 }
        ensures scans { (t : Tale) → ScansTo self.old.last self.old.count self.old.found wanted (values t drive block) (last t drive block)
            → ScansTo self.new.last self.new.count self.new.found wanted (values (Then t (call_of call.now)) drive block) (last (Then t (call_of call.now)) drive block) }
        ensures few { self.new.count ≤ self.old.count + 1 }
        ensures some { 0 < self.old.count → 0 < self.new.count }
    {
        if let Some(value) = call.written(drive, block) {
            self.last = *value;
            if self.count == wanted {
                self.found = *value;
            }
            self.count += 1;
        } else if call.syncs(drive) {
            self.found = self.last;
            self.count = 1;
        }
    }
}

/// Goes over all the calls.
fn scan_calls(start: &Block, calls: &[MemCall], drive: u32, block: u64, wanted: usize) -> Scan
    ensures scans { (s : Start) → s.block drive block ≡ start.now
        → ScansTo result.last result.count result.found wanted (values (continued (Begun s) calls.now) drive block) (last (continued (Begun s) calls.now) drive block) }
    ensures some { 0 < result.count }
{
    let mut found = Scan {
        last: *start,
        count: 1,
        found: *start,
    };
    for call in calls {
        found.step(call, drive, block, wanted);
    }
    found
}

/// The block's value of that number, counted round from the stable one.
pub fn pick(start: &Block, calls: &[MemCall], drive: u32, block: u64, number: u32) -> Block
    ensures { (s : Start) → s.block drive block ≡ start.now
        → result ≡ picked (values (continued (Begun s) calls.now) drive block) number }
{
    let stable = scan_calls(start, calls, drive, block, 0);
    let wanted = number as usize % stable.count;
    if wanted == 0 {
        return stable.found;
    }
    scan_calls(start, calls, drive, block, wanted).found
}
