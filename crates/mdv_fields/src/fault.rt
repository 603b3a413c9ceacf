ghost use Rattle.std.specs.Prelude.{◌≡◌};

use std::alloc::AllocError;
use thiserror::Error;

/// Why no table is read.
#[derive(Clone, Copy, Debug, Drop, PartialEq, Eq, Error)]
pub enum RecordError {
    /// The bytes are no such text.
    #[error("the bytes are no record")]
    NotARecord,
    #[error("out of memory")]
    Memory,
}

impl From<AllocError> for RecordError {
    ghost use Rattle.mdv_fields.specs.declared.fault.RecordError.TheVariants.{Memory};

    ghost from_gives = { λ _ error. error ≡ Memory };

    fn from(_error: AllocError) -> RecordError {
        RecordError::Memory
    }
}
