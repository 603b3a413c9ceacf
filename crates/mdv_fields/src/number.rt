ghost use Rattle.std.specs.Prelude.{◌≡◌, ◌<◌, ◌^◌, [], ◌∷◌, length};
ghost use Rattle.byteorder.specs.Endian.{big_bytes};
ghost use Rattle.mdv_fields.specs.Numbers.{u16_text, u32_text, u64_text};

use crate::fault::RecordError;
use crate::laying::lay;
use crate::part::{Part, Spelled};
use crate::reader::Reader;
use byteorder::{BigEndian, ByteOrder};
use std::alloc::Global;

impl Part for u8 {
    ghost fits = { λ n. n < 256 };

    ghost text = { λ n. n ∷ [] };

    fn read(_alloc: Global, rest: &mut Reader) -> Result<u8, RecordError> {
        let field = rest.bytes(1)?;
        Ok(byte_of(field))
    }
}

impl Spelled for u8 {
    ghost text = { λ n. n ∷ [] };

    fn lay(&self, out: &mut [u8], used: usize) -> usize {
        lay(out, used, &[*self])
    }
}

impl Part for u16 {
    ghost fits = { λ n. n < 256 ^ 2 };

    ghost text = { u16_text };

    #[tactic(auto, unfolding(crate::specs::Numbers::u16_text))]
    fn read(_alloc: Global, rest: &mut Reader) -> Result<u16, RecordError> {
        let field = rest.bytes(2)?;
        Ok(number16_of(field))
    }
}

impl Spelled for u16 {
    ghost text = { u16_text };

    #[tactic(auto, unfolding(crate::specs::Numbers::u16_text))]
    fn lay(&self, out: &mut [u8], used: usize) -> usize {
        let mut bytes = [0; 2];
        BigEndian::write_u16(&mut bytes, *self);
        lay(out, used, &bytes)
    }
}

impl Part for u32 {
    ghost fits = { λ n. n < 256 ^ 4 };

    ghost text = { u32_text };

    #[tactic(auto, unfolding(crate::specs::Numbers::u32_text))]
    fn read(_alloc: Global, rest: &mut Reader) -> Result<u32, RecordError> {
        let field = rest.bytes(4)?;
        Ok(number32_of(field))
    }
}

impl Spelled for u32 {
    ghost text = { u32_text };

    #[tactic(auto, unfolding(crate::specs::Numbers::u32_text))]
    fn lay(&self, out: &mut [u8], used: usize) -> usize {
        let mut bytes = [0; 4];
        BigEndian::write_u32(&mut bytes, *self);
        lay(out, used, &bytes)
    }
}

impl Part for u64 {
    ghost fits = { λ n. n < 256 ^ 8 };

    ghost text = { u64_text };

    #[tactic(auto, unfolding(crate::specs::Numbers::u64_text))]
    fn read(_alloc: Global, rest: &mut Reader) -> Result<u64, RecordError> {
        let field = rest.bytes(8)?;
        Ok(number64_of(field))
    }
}

impl Spelled for u64 {
    ghost text = { u64_text };

    #[tactic(auto, unfolding(crate::specs::Numbers::u64_text))]
    fn lay(&self, out: &mut [u8], used: usize) -> usize {
        let mut bytes = [0; 8];
        BigEndian::write_u64(&mut bytes, *self);
        lay(out, used, &bytes)
    }
}

fn byte_of(field: &[u8]) -> u8
    requires { length field.now ≡ 1 }
    ensures { result ∷ [] ≡ field.now }
{
    field[0]
}

fn number16_of(field: &[u8]) -> u16
    requires { length field.now ≡ 2 }
    ensures { big_bytes 2 result ≡ field.now }
{
    BigEndian::read_u16(field)
}

fn number32_of(field: &[u8]) -> u32
    requires { length field.now ≡ 4 }
    ensures { big_bytes 4 result ≡ field.now }
{
    BigEndian::read_u32(field)
}

fn number64_of(field: &[u8]) -> u64
    requires { length field.now ≡ 8 }
    ensures { big_bytes 8 result ≡ field.now }
{
    BigEndian::read_u64(field)
}
