ghost use Rattle.std.specs.Prelude.{◌≡◌, ◌<◌, ◌++◌, ◌↔◌, [], length, IfOk, IfErr, IsTrue};
ghost use Rattle.mdv_fields.specs.declared.fault.RecordError.TheVariants.{NotARecord};

use crate::fault::RecordError;
use std::marker::Model;

/// Bytes that are read from their front, field by field. Contracts see it as the bytes that are left.
#[derive(Drop)]
pub struct Reader<'a> {
    rest: &'a [u8],
}

impl<'a> Model for Reader<'a> {
    ghost use Rattle.std.specs.Prelude.{List, ℕ};

    ghost Value = { List ℕ };

    ghost view = { λ r. r.rest.now };
}

impl<'a> Reader<'a> {
    pub fn new(bytes: &'a [u8]) -> Reader<'a>
        ensures { result ≡ bytes.now }
    {
        Reader { rest: bytes }
    }

    pub fn is_empty(&self) -> bool
        ensures { IsTrue result ↔ (self.now ≡ []) }
    {
        self.rest.is_empty()
    }

    /// The next field, of so many bytes.
    pub fn bytes(&mut self, count: usize) -> Result<&'a [u8], RecordError>
        ensures ok { IfOk result (λ field. (length field.now ≡ count) × (self.old ≡ field.now ++ self.new)) }
        ensures err { IfErr result (λ e. (e ≡ NotARecord) × (length self.old < count)) }
    {
        let (field, rest) = self
            .rest
            .split_at_checked(count)
            .ok_or(RecordError::NotARecord)?;
        self.rest = rest;
        Ok(field)
    }
}
