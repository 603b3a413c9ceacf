// What is asked to fail, by the number of the call: the number of calls made before it.
ghost use Rattle.std.specs.Prelude.{◌≡◌, ◌+◌, ◌-◌, ◌^◌, [], ◌∷◌, ◌++◌, min, nat_lt, Some, None, OnOk, OnErr};

use std::alloc::{AllocError, Global};

/// The calls that a shelf in memory makes at most.
pub const CALL_LIMIT: u64 = 1 << 62;

/// From the call of that number on the drive is lost.
#[derive(Clone, Copy, Debug, PartialEq, Eq)]
pub struct Loss {
    pub drive: u32,
    pub number: u64,
}

#[derive(Drop)]
pub struct Plan {
    pub calls: u64,
    pub failing: Vec<u64>,
    pub losses: Vec<Loss>,
    pub stop: Option<u64>,
}

impl Plan {
    ghost use Rattle.mdv_shelf.specs.MemShelf.{is_call_asked, is_loss_reached, earlier_stop, begun_losses, losses_without};

    pub fn new(alloc: Global) -> Plan
        ensures calls { result.calls ≡ 0 }
        ensures failing { result.failing.items ≡ [] }
        ensures losses { result.losses.items ≡ [] }
        ensures stop { result.stop ≡ None }
    {
        Plan {
            calls: 0,
            failing: Vec::new(alloc),
            losses: Vec::new(alloc),
            stop: None,
        }
    }

    pub fn asks_any(&self) -> bool
        ensures { result ≡ is_call_asked self.now }
    {
        self.failing.contains(&self.calls) || self.stop.map_or(false, |number| number <= self.calls)
    }

    pub fn asks_loss(&self, drive: u32) -> bool
        ensures { result ≡ is_loss_reached self.now drive }
    {
        let calls = self.calls;
        self.losses
            .iter()
            .any(|loss| loss.drive == drive && loss.number <= calls)
    }

    pub fn has_room(&self) -> bool
        ensures { result ≡ nat_lt self.now.calls (2 ^ 62) }
    {
        self.calls < CALL_LIMIT
    }

    pub fn lose_at(&mut self, drive: u32, number: u64) -> Result<(), AllocError>
        ensures ok { OnOk result (self.new.losses.items ≡ self.old.losses.items ++ record { drive = drive; number = number } ∷ []) }
        ensures err { OnErr result (self.new.losses.items ≡ self.old.losses.items) }
        ensures calls { self.new.calls ≡ self.old.calls }
        ensures failing { self.new.failing.items ≡ self.old.failing.items }
        ensures stop { self.new.stop ≡ self.old.stop }
    {
        self.losses.push(Loss { drive, number })?;
        Ok(())
    }

    pub fn stop_after(&mut self, calls: u64)
        ensures { self.new ≡ record self.old { stop = Some (earlier_stop self.old.stop (min (self.old.calls + calls) (2 ^ 64 - 1))) } }
    {
        let number = self.calls.saturating_add(calls);
        self.stop = Some(match self.stop {
            None => number,
            Some(earlier) => earlier.min(number),
        });
    }

    /// A crash ends all but the losses that have begun.
    pub fn crash(&mut self)
        ensures calls { self.new.calls ≡ self.old.calls }
        ensures failing { self.new.failing.items ≡ [] }
        ensures losses { self.new.losses.items ≡ begun_losses self.old.calls self.old.losses.items }
        ensures stop { self.new.stop ≡ None }
    {
        let calls = self.calls;
        self.failing.clear();
        self.losses.retain(|loss| loss.number < calls);
        self.stop = None;
    }

    pub fn bring_back(&mut self, drive: u32)
        ensures calls { self.new.calls ≡ self.old.calls }
        ensures failing { self.new.failing.items ≡ self.old.failing.items }
        ensures losses { self.new.losses.items ≡ losses_without self.old.calls drive self.old.losses.items }
        ensures stop { self.new.stop ≡ self.old.stop }
    {
        let calls = self.calls;
        self.losses
            .retain(|loss| !(loss.drive == drive && loss.number < calls));
    }
}
