ghost use Rattle.std.specs.Prelude.{ℕ, List};
ghost use Rattle.mdv_fields.specs.Laying.{IsLaid};
ghost use Rattle.mdv_fields.specs.Reading.{Reads};

use crate::fault::RecordError;
use crate::reader::Reader;
use std::alloc::Global;

/// What is read from a record.
pub trait Part: Drop {
    /// What of the type has a text.
    ghost fits: { Self → Type 0 };

    ghost text: { Self → List ℕ };

    /// Reads one from the front of the bytes that are left.
    fn read(alloc: Global, rest: &mut Reader) -> Result<Self, RecordError>
        ensures { Reads fits text rest.old result rest.new };
}

/// What is spelled in a record.
pub trait Spelled {
    ghost text: { Self → List ℕ };

    /// Lays its text behind the first `used` bytes, and tells where it ends.
    fn lay(&self, out: &mut [u8], used: usize) -> usize
        ensures { IsLaid used out.old out.new (text self.now) result };
}
