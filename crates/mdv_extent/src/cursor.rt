ghost use Rattle.std.specs.Prelude.{◌≡◌, ◌<◌, ◌^◌, ◌≤◌, ◌+◌, ℕ, List, [], ◌∷◌, ◌++◌, length, drop};
ghost use Rattle.byteorder.specs.Endian.{big_bytes};

use byteorder::{BigEndian, ByteOrder};
use std::marker::Model;

/// Bytes that are read from their front, field by field. Contracts see it as the bytes that are left.
#[derive(Drop)]
pub struct Cursor<'a> {
    rest: &'a [u8],
}

impl<'a> Model for Cursor<'a> {
    ghost use Rattle.std.specs.Prelude.{List, ℕ};

    ghost Value = { List ℕ };

    ghost view = { λ c. c.rest.now };
}

impl<'a> Cursor<'a> {
    pub fn new(bytes: &'a [u8]) -> Cursor<'a>
        ensures { result ≡ bytes.now }
    {
        Cursor { rest: bytes }
    }

    pub fn bytes(&mut self, count: usize) -> &'a [u8]
        requires { count ≤ length self.old }
        ensures length { length result.now ≡ count }
        ensures spelled { self.old ≡ result.now ++ self.new }
    {
        let (field, rest) = self.rest.split_at(count);
        self.rest = rest;
        field
    }

    pub fn byte(&mut self) -> u8
        requires { 1 ≤ length self.old }
        ensures spelled { self.old ≡ result ∷ self.new }
    {
        let field = self.rest[0];
        self.rest = &self.rest[1..];
        field
    }

    pub fn number16(&mut self) -> u16
        requires { 2 ≤ length self.old }
        ensures spelled { (n : ℕ) (rest : List ℕ) → n < 2 ^ 16 → self.old ≡ big_bytes 2 n ++ rest → (result ≡ n) × (self.new ≡ rest) }
        ensures length { length self.new + 2 ≡ length self.old }
    {
        BigEndian::read_u16(self.bytes(2))
    }

    pub fn number32(&mut self) -> u32
        requires { 4 ≤ length self.old }
        ensures spelled { (n : ℕ) (rest : List ℕ) → n < 2 ^ 32 → self.old ≡ big_bytes 4 n ++ rest → (result ≡ n) × (self.new ≡ rest) }
        ensures length { length self.new + 4 ≡ length self.old }
    {
        BigEndian::read_u32(self.bytes(4))
    }

    pub fn number64(&mut self) -> u64
        requires { 8 ≤ length self.old }
        ensures spelled { (n : ℕ) (rest : List ℕ) → n < 2 ^ 64 → self.old ≡ big_bytes 8 n ++ rest → (result ≡ n) × (self.new ≡ rest) }
        ensures length { length self.new + 8 ≡ length self.old }
    {
        BigEndian::read_u64(self.bytes(8))
    }
}
