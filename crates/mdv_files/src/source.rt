ghost use Rattle.std.specs.Prelude.{◌≡◌, ◌≤◌, ◌+◌, ◌-◌, ◌^◌, min, length, None, IfOk, OnOk, OnErr};

use mdv_base::Failed;
use mdv_port::Source;
use std::io::{ErrorKind, Read};

/// A script that a reader gives, as standard input. It tells nothing of the bytes to come.
#[derive(Drop)]
pub struct FileSource<R: Read + Drop> {
    input: R,
    faults: u64,
}

impl<R: Read + Drop> FileSource<R> {
    /// A source of what the reader has left.
    pub fn new(input: R) -> FileSource<R>
        ensures { result.faults ≡ 0 }
    {
        FileSource { input, faults: 0 }
    }
}

impl<R: Read + Drop> Source for FileSource<R> {
    ghost use Rattle.std.specs.Prelude.{◌<◌};
    ghost use Rattle.mdv_base.specs.Causes.{HasCause};

    ghost left = { λ _. None };

    ghost faults = { λ s. s.faults };

    fn take(&mut self, out: &mut [u8]) -> Result<usize, Failed>
        requires { 0 < length out.old }
        ensures fits { IfOk result (λ n. n ≤ length out.new) }
        ensures cause { HasCause self.old.faults self.new.faults result }
        ensures ok { OnOk result (self.new.faults ≡ self.old.faults) }
        ensures err { OnErr result (self.new.faults ≡ min (self.old.faults + 1) (2 ^ 64 - 1)) }
    {
        match read_some(&mut self.input, out) {
            Ok(count) => Ok(count),
            Err(Failed) => {
                self.faults = self.faults.saturating_add(1);
                Err(Failed)
            }
        }
    }
}

// What comes, where a read that is interrupted is tried again.
fn read_some<R: Read>(input: &mut R, out: &mut [u8]) -> Result<usize, Failed>
    ensures { IfOk result (λ n. n ≤ length out.new) }
{
    for _ in 0..u64::MAX {
        match input.read(out) {
            Ok(count) => return Ok(count),
            Err(error) if error.kind() == ErrorKind::Interrupted => {}
            Err(_) => return Err(Failed),
        }
    }
    Err(Failed)
}
