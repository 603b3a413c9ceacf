ghost use Rattle.std.specs.Prelude.{◌≡◌, ℕ, List, IfSome, IfNone};
ghost use Rattle.mdv_text.specs.Hex.{IsDigit, IsPair, SpellsBlock};

use mdv_base::{BLOCK_BYTES, Block, ZERO_BLOCK};

/// The block of 512 bytes that 1 to 512 pairs of digits spell, with zeros behind them.
pub fn read_block(hex: &[u8]) -> Option<Block>
    ensures value { IfSome result (SpellsBlock hex.now) }
    ensures none { IfNone result ((block : List ℕ) → SpellsBlock hex.now block → ⊥) }
{
    if hex.is_empty() || hex.len() > 2 * BLOCK_BYTES {
        return None;
    }
    let mut block = ZERO_BLOCK;
    let mut len = 0;
    let mut rest = hex;
    while let [first, second, behind @ ..] = rest {
        block[len] = read_pair(*first, *second)?;
        len += 1;
        rest = behind;
    }
    if rest.is_empty() { Some(block) } else { None }
}

/// The byte that two digits spell, of either case, the high one first.
pub fn read_pair(first: u8, second: u8) -> Option<u8>
    ensures value { IfSome result (IsPair first second) }
    ensures none { IfNone result ((byte : ℕ) → IsPair first second byte → ⊥) }
{
    Some(16 * digit(first)? + digit(second)?)
}

fn digit(byte: u8) -> Option<u8>
    ensures value { IfSome result (IsDigit byte) }
    ensures none { IfNone result ((n : ℕ) → IsDigit byte n → ⊥) }
{
    match byte {
        b'0'..=b'9' => Some(byte - b'0'),
        b'a'..=b'f' => Some(byte - b'a' + 10),
        b'A'..=b'F' => Some(byte - b'A' + 10),
        _ => None,
    }
}
