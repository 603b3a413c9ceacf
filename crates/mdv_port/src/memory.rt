ghost use Rattle.std.specs.Prelude.{◌≡◌, ◌<◌, ◌+◌, ◌-◌, ◌^◌, ◌↔◌, Some, None, length, take, drop, min, IfOk, OnErr, IsErr};
ghost use Rattle.mdv_base.specs.Causes.{HasCause};
ghost use Rattle.mdv_port.specs.Memory.{one_passed};

use crate::Source;
use mdv_base::Failed;
use std::marker::Model;

/// A source over bytes in memory, which may be told to fail at one call.
#[derive(Drop)]
pub struct MemSource {
    bytes: Vec<u8>,
    // how many of them were given
    given: usize,
    faults: u64,
    // how many calls pass before the one that fails
    passing: Option<u64>,
}

impl Model for MemSource {
    ghost use Rattle.std.specs.Prelude.{◌≤◌, drop, length};
    ghost use Rattle.mdv_port.specs.Memory.{Memory};

    ghost Value = { Memory };

    ghost view = { λ s. record { left = drop s.given s.bytes.items; faults = s.faults; passing = s.passing } };

    ghost invariant = { λ s. s.given ≤ length s.bytes.items };
}

impl MemSource {
    /// A source that gives these bytes and never fails.
    pub fn new(bytes: Vec<u8>) -> MemSource
        ensures { result ≡ record { left = bytes.items; faults = 0; passing = None } }
    {
        MemSource {
            bytes,
            given: 0,
            faults: 0,
            passing: None,
        }
    }

    /// A source that gives these bytes and fails once: at the call of this number, counted from 0,
    /// which takes nothing.
    pub fn failing(bytes: Vec<u8>, at_call: u64) -> MemSource
        ensures { result ≡ record { left = bytes.items; faults = 0; passing = Some at_call } }
    {
        MemSource {
            bytes,
            given: 0,
            faults: 0,
            passing: Some(at_call),
        }
    }
}

impl Source for MemSource {
    ghost left = { λ s. Some s.left };

    ghost faults = { λ s. s.faults };

    fn take(&mut self, out: &mut [u8]) -> Result<usize, Failed>
        requires { 0 < length out.old }
        // It gives as many bytes as there are and fit.
        ensures count { IfOk result (λ n. n ≡ min (length out.old) (length self.old.left)) }
        ensures given { IfOk result (λ n. take n out.new ≡ take n self.old.left) }
        ensures ok { IfOk result (λ n. self.new ≡ record { left = drop n self.old.left; faults = self.old.faults; passing = one_passed self.old.passing }) }

        // It fails exactly at the call that it was told to, and takes nothing there.
        ensures failing { IsErr result ↔ (self.old.passing ≡ Some 0) }
        ensures err { OnErr result (self.new ≡ record { left = self.old.left; faults = min (self.old.faults + 1) (2 ^ 64 - 1); passing = None }) }
        ensures cause { HasCause self.old.faults self.new.faults result }
    {
        match self.passing {
            Some(0) => {
                self.passing = None;
                self.faults = self.faults.saturating_add(1);
                return Err(Failed);
            }
            Some(calls) => self.passing = Some(calls - 1),
            None => {}
        }
        let left = &self.bytes.as_slice()[self.given..];
        let count = left.len().min(out.len());
        out[..count].copy_from_slice(&left[..count]);
        self.given += count;
        Ok(count)
    }
}
