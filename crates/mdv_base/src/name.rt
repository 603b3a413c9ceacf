ghost use Rattle.std.specs.Prelude.{◌≡◌, ◌↔◌, ◌≤◌, ◌<◌, ◌&&◌, ℕ, List, length, take, drop, replicate, IsSome, IsTrue, IfSome, Some};
ghost use Rattle.std.specs.List.{list_all};
ghost use Rattle.mdv_base.specs.Name.{IsName, begins_with_letter as spec_begins_with_letter, is_name_byte as spec_is_name_byte};

use std::marker::Model;

/// The most bytes that a name has.
pub const NAME_BYTES: usize = 32;

/// The name of a host or a set: a letter, and then letters, digits, `-`, `_` and `.`, 1 to 32 bytes
/// in all.
#[derive(Clone, Copy, Debug, PartialEq, Eq)]
pub struct Name {
    bytes: [u8; 32],
    len: u8,
}

impl Model for Name {
    ghost use Rattle.std.specs.Prelude.{ℕ, List, take, length};
    ghost use Rattle.mdv_base.specs.Bytes.{padded_to, padded_again};
    ghost use Rattle.mdv_base.specs.Name.{IsStored};

    ghost Value = { List ℕ };

    ghost view = { λ n. take n.len n.bytes };

    ghost invariant = { λ n. IsStored n.bytes n.len };

    ghost inverse = { λ text. record { bytes = padded_to 32 text; len = length text } };

    ghost inverse_ok = { λ n stored. λ i. record { bytes = (padded_again 32 n.bytes n.len stored.padded).0 i; len = (padded_again 32 n.bytes n.len stored.padded).1 i } };
}

impl Name {
    /// The name that the bytes spell.
    pub fn new(text: &[u8]) -> Option<Name>
        ensures valid { IsSome result ↔ IsName text.now }
        ensures value { IfSome result (λ name. name ≡ text.now) }
    {
        if text.len() > NAME_BYTES || !begins_with_letter(text) || !has_name_bytes(text) {
            return None;
        }
        let mut bytes = [0; NAME_BYTES];
        bytes[..text.len()].copy_from_slice(text);
        Some(Name {
            bytes,
            len: text.len() as u8,
        })
    }

    pub fn as_bytes(&self) -> &[u8]
        ensures value { result.now ≡ self.now }
        ensures form { IsName self.now }
    {
        &self.bytes[..self.len as usize]
    }

    pub fn is_same(&self, other: &Name) -> bool
        ensures { IsTrue result ↔ (self.now ≡ other.now) }
    {
        self.as_bytes() == other.as_bytes()
    }

    pub fn as_str(&self) -> &str
        ensures value { result.now ≡ self.now }
        ensures short { length result.now ≤ 32 }
    {
        str::from_utf8(self.as_bytes()).unwrap()
    }
}

fn begins_with_letter(text: &[u8]) -> bool
    ensures { result ≡ spec_begins_with_letter text.now }
{
    match text {
        [first, ..] => first.is_ascii_alphabetic(),
        [] => false,
    }
}

fn has_name_bytes(text: &[u8]) -> bool
    ensures { result ≡ list_all spec_is_name_byte text.now }
{
    text.iter().all(|b| is_name_byte(*b))
}

fn is_name_byte(b: u8) -> bool
    ensures { result ≡ spec_is_name_byte b }
{
    b.is_ascii_alphanumeric() || b == b'-' || b == b'.' || b == b'_'
}

/// A volume, `d0` to `d8191`.
#[derive(Clone, Copy, Debug, PartialEq, Eq)]
pub struct VolId(pub u16);

/// A pool of hot spares, `hsp000` to `hsp999`.
#[derive(Clone, Copy, Debug, PartialEq, Eq)]
pub struct PoolId(pub u16);

/// What a command may name in a database.
#[derive(Clone, Copy, Debug, PartialEq, Eq)]
pub enum Named {
    Volume(VolId),
    Pool(PoolId),
}

/// Whose database it is: the local one of a host, or that of a set.
#[derive(Clone, Copy, Debug, PartialEq, Eq)]
pub enum Key {
    Local(Name),
    Set(Name),
}

impl Key {
    pub fn is_same(&self, other: &Key) -> bool
        ensures { IsTrue result ↔ (self.now ≡ other.now) }
    {
        match (self, other) {
            (Key::Local(one), Key::Local(two)) => one.is_same(two),
            (Key::Set(one), Key::Set(two)) => one.is_same(two),
            _ => false,
        }
    }
}
