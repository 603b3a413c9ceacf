ghost use Rattle.std.specs.Prelude.{◌≡◌, ◌∷◌, ◌<◌, ℕ, [], IfSome, IfNone};
ghost use Rattle.mdv_parts.specs.declared.part.Part.{Part};
ghost use Rattle.mdv_parts.specs.Part.{IsPart, replicas_text, letter_text};

use crate::names::{Scope, read_pool, read_volume};
use mdv_base::{PoolId, SliceName, VolId};
use mdv_name::parse_slice;
use mdv_text::{number, size};

/// What a word of a line spells.
#[derive(Clone, Copy, Debug, PartialEq, Eq)]
pub enum Part {
    /// A number without a letter.
    Number(u64),
    /// A size with the letter of its unit, in blocks of 512 bytes, at most 2^40.
    Size(u64),
    Slice(SliceName),
    /// A volume of a database that may be named here.
    Volume(VolId),
    /// A pool of a database that may be named here.
    Pool(PoolId),
    /// `mddbNN`, 0 to 99.
    Replicas(u8),
    /// `-x`, one letter behind a dash.
    Letter(u8),
}

/// What the word spells; None for a word that is none of these, as for a name of another set.
pub fn read_part(scope: &Scope, word: &[u8]) -> Option<Part>
    ensures value { IfSome result (λ p. IsPart scope.now word.now p) }
    ensures none { IfNone result ((p : Part) → IsPart scope.now word.now p → ⊥) }
{
    if let Some(amount) = read_amount(scope, word) {
        return Some(amount);
    }
    if let Some(letter) = read_letter(word) {
        return Some(Part::Letter(letter));
    }
    if let Some(number) = read_replicas(word) {
        return Some(Part::Replicas(number));
    }
    read_name(scope, word)
}

fn read_amount(scope: &Scope, word: &[u8]) -> Option<Part>
    ensures value { IfSome result (λ p. IsPart scope.now word.now p) }
    ensures no_number { IfNone result ((n : ℕ) → IsPart scope.now word.now (Part.Number n) → ⊥) }
    ensures no_size { IfNone result ((n : ℕ) → IsPart scope.now word.now (Part.Size n) → ⊥) }
{
    if let Some(n) = number(word) {
        return Some(Part::Number(n));
    }
    let blocks = size(word)?;
    Some(Part::Size(blocks))
}

fn read_letter(word: &[u8]) -> Option<u8>
    ensures value { IfSome result (λ b. word.now ≡ letter_text b) }
    ensures none { IfNone result ((b : ℕ) → word.now ≡ letter_text b → ⊥) }
{
    match word {
        [b'-', letter] => Some(*letter),
        _ => None,
    }
}

fn read_replicas(word: &[u8]) -> Option<u8>
    ensures value { IfSome result (λ n. (n < 100) × (word.now ≡ replicas_text n)) }
    ensures none { IfNone result ((n : ℕ) → n < 100 → word.now ≡ replicas_text n → ⊥) }
{
    match word {
        [
            b'm',
            b'd',
            b'd',
            b'b',
            tens @ b'0'..=b'9',
            ones @ b'0'..=b'9',
        ] => { Some((*tens - b'0') * 10 + (*ones - b'0')) }
        _ => None,
    }
}

fn read_name(scope: &Scope, word: &[u8]) -> Option<Part>
    ensures value { IfSome result (λ p. IsPart scope.now word.now p) }
    ensures no_slice { IfNone result ((s : SliceName) → IsPart scope.now word.now (Part.Slice s) → ⊥) }
    ensures no_volume { IfNone result ((v : VolId) → IsPart scope.now word.now (Part.Volume v) → ⊥) }
    ensures no_pool { IfNone result ((p : PoolId) → IsPart scope.now word.now (Part.Pool p) → ⊥) }
{
    if let Some(slice) = parse_slice(word) {
        return Some(Part::Slice(slice));
    }
    if let Some(volume) = read_volume(scope, word) {
        return Some(Part::Volume(volume));
    }
    let pool = read_pool(scope, word)?;
    Some(Part::Pool(pool))
}
