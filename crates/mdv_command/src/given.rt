ghost use Rattle.std.specs.Prelude.{◌≡◌, ◌≤◌, ℕ, IfSome, IfNone, decimal};
ghost use Rattle.mdv_command.specs.declared.given.Given.{Given};
ghost use Rattle.mdv_command.specs.Given.{has_byte as spec_has_byte, letter_of as spec_letter_of};
ghost use Rattle.mdv_command.specs.Given.{has as spec_has, only as spec_only, is_once as spec_is_once};
ghost use Rattle.mdv_command.specs.Given.{set_given as spec_set_given};
ghost use Rattle.mdv_command.specs.Given.{count_given as spec_count_given};
ghost use Rattle.mdv_command.specs.Given.{length_given as spec_length_given};
ghost use Rattle.mdv_command.specs.Given.{interlace_given as spec_interlace_given};
ghost use Rattle.mdv_command.specs.Options.{IsValue};

use mdv_base::Name;
use mdv_parts::{MAX_LENGTH, MAX_REPLICAS, MIN_LENGTH};
use mdv_text::{number, size};

/// An option that a line gives.
#[derive(Clone, Copy, Debug, PartialEq, Eq)]
pub enum Given {
    /// A letter without a value.
    Flag(u8),
    /// `-s SET`
    Set(Name),
    /// `-c N`: replicas a slice, 1 to 50.
    Count(u8),
    /// `-l BLOCKS`: blocks a replica, 16 to 8192.
    Length(u16),
    /// `-i SIZE`, in blocks.
    Interlace(u64),
}

pub(crate) fn has_byte(bytes: &[u8], byte: u8) -> bool
    ensures { result ≡ spec_has_byte bytes.now byte }
{
    bytes.iter().any(|b| *b == byte)
}

fn letter_of(given: Given) -> u8
    ensures { result ≡ spec_letter_of given }
{
    match given {
        Given::Flag(letter) => letter,
        Given::Set(_) => b's',
        Given::Count(_) => b'c',
        Given::Length(_) => b'l',
        Given::Interlace(_) => b'i',
    }
}

/// Whether the option of this letter is given.
pub fn has(letter: u8, given: &[Given]) -> bool
    ensures { result ≡ spec_has letter given.now }
{
    given.iter().any(|g| letter_of(*g) == letter)
}

/// Whether no option but those of these letters is given.
pub fn only(letters: &[u8], given: &[Given]) -> bool
    ensures { result ≡ spec_only letters.now given.now }
{
    given.iter().all(|g| has_byte(letters, letter_of(*g)))
}

// Whether no letter is given twice. So many letters as there are differ that it ends early.
pub(crate) fn is_once(given: &[Given]) -> bool
    ensures { result ≡ spec_is_once given.now }
{
    let mut rest = given;
    while let [first, behind @ ..] = rest {
        if has(letter_of(*first), behind) {
            return false;
        }
        rest = behind;
    }
    true
}

// The option of this letter with this value.
pub(crate) fn read_value(letter: u8, text: &[u8]) -> Option<Given>
    ensures value { IfSome result (λ g. IsValue letter text.now g) }
    ensures none { IfNone result ((g : Given) → IsValue letter text.now g → ⊥) }
{
    match letter {
        b's' => {
            let name = Name::new(text)?;
            Some(Given::Set(name))
        }
        b'c' => {
            let count = read_within(1, MAX_REPLICAS, text)?;
            Some(Given::Count(count as u8))
        }
        b'l' => {
            let length = read_within(MIN_LENGTH, MAX_LENGTH, text)?;
            Some(Given::Length(length as u16))
        }
        b'i' => {
            let blocks = size(text)?;
            Some(Given::Interlace(blocks))
        }
        _ => None,
    }
}

// A number from the least to the most.
fn read_within(least: u64, most: u64, text: &[u8]) -> Option<u64>
    ensures value { IfSome result (λ n. (text.now ≡ decimal n) × (least ≤ n) × (n ≤ most)) }
    ensures none { IfNone result ((n : ℕ) → least ≤ n → n ≤ most → text.now ≡ decimal n → ⊥) }
{
    let n = number(text)?;
    if n < least || n > most {
        return None;
    }
    Some(n)
}

/// The set that `-s` names.
pub fn set_given(given: &[Given]) -> Option<Name>
    ensures { result ≡ spec_set_given given.now }
{
    let mut rest = given;
    while let [first, behind @ ..] = rest {
        if let Given::Set(name) = *first {
            return Some(name);
        }
        rest = behind;
    }
    None
}

// The replicas a slice that `-c` gives.
pub(crate) fn count_given(given: &[Given]) -> Option<u8>
    ensures { result ≡ spec_count_given given.now }
{
    let mut rest = given;
    while let [first, behind @ ..] = rest {
        if let Given::Count(count) = *first {
            return Some(count);
        }
        rest = behind;
    }
    None
}

/// The blocks of a replica that `-l` gives.
pub fn length_given(given: &[Given]) -> Option<u16>
    ensures { result ≡ spec_length_given given.now }
{
    let mut rest = given;
    while let [first, behind @ ..] = rest {
        if let Given::Length(blocks) = *first {
            return Some(blocks);
        }
        rest = behind;
    }
    None
}

// The blocks that `-i` gives.
pub(crate) fn interlace_given(given: &[Given]) -> Option<u64>
    ensures { result ≡ spec_interlace_given given.now }
{
    let mut rest = given;
    while let [first, behind @ ..] = rest {
        if let Given::Interlace(blocks) = *first {
            return Some(blocks);
        }
        rest = behind;
    }
    None
}
