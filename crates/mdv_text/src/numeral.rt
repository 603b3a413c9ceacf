ghost use Rattle.std.specs.Prelude.{◌≡◌, ◌<◌, ◌^◌, ℕ, List, IfSome, IfNone, decimal};
ghost use Rattle.std.specs.List.{prefix_len};
ghost use Rattle.std.specs.Char.{is_ascii_digit};
ghost use Rattle.mdv_text.specs.Numeral.{begins_as_decimal as spec_begins_as_decimal};
ghost use Rattle.mdv_text.specs.Numeral.{BeginsWithNumeral};

/// A number in decimal digits, without a leading zero except in `0` itself.
pub fn number(text: &[u8]) -> Option<u64>
    ensures value { IfSome result (λ n. text.now ≡ decimal n) }
    ensures none { IfNone result ((n : ℕ) → n < 2 ^ 64 → text.now ≡ decimal n → ⊥) }
{
    if !begins_as_decimal(text) {
        return None;
    }
    let Ok(digits) = str::from_utf8(text) else {
        return None;
    };
    digits.parse().ok()
}

fn begins_as_decimal(text: &[u8]) -> bool
    ensures { result ≡ spec_begins_as_decimal text.now }
{
    match text {
        [] => false,
        [first, rest @ ..] => first.is_ascii_digit() && (*first != b'0' || rest.is_empty()),
    }
}

/// The number at the text's front, and what follows its digits.
pub fn split_number(text: &[u8]) -> Option<(u64, &[u8])>
    ensures value { IfSome result (λ r. BeginsWithNumeral text.now r.0 r.1.now) }
    ensures none { IfNone result ((n : ℕ) (rest : List ℕ) → BeginsWithNumeral text.now n rest → ⊥) }
{
    let (digits, rest) = text.split_at(count_digits(text));
    Some((number(digits)?, rest))
}

fn count_digits(text: &[u8]) -> usize
    ensures { result ≡ prefix_len is_ascii_digit text.now }
{
    text.iter().take_while(|b| b.is_ascii_digit()).count()
}
