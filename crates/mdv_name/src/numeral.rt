ghost use Rattle.std.specs.Prelude.{◌≡◌, ◌∷◌, ℕ, List, IfSome, IfNone};
ghost use Rattle.mdv_name.specs.Numeral.{BeginsWithPart};

use mdv_text::split_number;

// The number from 0 to 255 behind the letter at the text's front, and what follows its digits.
pub(crate) fn split_part(letter: u8, text: &[u8]) -> Option<(u8, &[u8])>
    ensures value { IfSome result (λ r. BeginsWithPart letter text.now r.0 r.1.now) }
    ensures none { IfNone result ((n : ℕ) (rest : List ℕ) →
        BeginsWithPart letter text.now n rest → ⊥) }
{
    let (number, rest) = split_number(strip_letter(letter, text)?)?;
    if number > 255 {
        return None;
    }
    Some((number as u8, rest))
}

fn strip_letter(letter: u8, text: &[u8]) -> Option<&[u8]>
    ensures value { IfSome result (λ rest. text.now ≡ letter ∷ rest.now) }
    ensures none { IfNone result ((rest : List ℕ) → text.now ≡ letter ∷ rest → ⊥) }
{
    match text {
        [first, rest @ ..] if *first == letter => Some(rest),
        _ => None,
    }
}
