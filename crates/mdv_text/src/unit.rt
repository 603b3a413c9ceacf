ghost use Rattle.std.specs.Prelude.{◌≡◌, ℕ, IfSome, IfNone};
ghost use Rattle.mdv_text.specs.Size.{letter_blocks as spec_letter_blocks};
ghost use Rattle.mdv_text.specs.Size.{unit_blocks as spec_unit_blocks, IsSize};

use crate::numeral::split_number;

/// The most blocks that a size stands for, and that a drive has.
pub const MAX_BLOCKS: u64 = 1 << 40;

/// So many blocks as the size says: a number, and at most one letter of its unit. The unit is a
/// block for `b` or no letter, 1024 bytes for `k`, and 1024 times more for each of `m`, `g` and
/// `t`, of either case. At most 2^40 blocks.
pub fn size(text: &[u8]) -> Option<u64>
    ensures value { IfSome result (IsSize text.now) }
    ensures none { IfNone result ((blocks : ℕ) → IsSize text.now blocks → ⊥) }
{
    let (count, unit) = split_number(text)?;
    let blocks = count.checked_mul(unit_blocks(unit)?)?;
    if blocks > MAX_BLOCKS {
        return None;
    }
    Some(blocks)
}

fn unit_blocks(unit: &[u8]) -> Option<u64>
    ensures { result ≡ spec_unit_blocks unit.now }
{
    match unit {
        [] => Some(1),
        [letter] => letter_blocks(*letter),
        _ => None,
    }
}

fn letter_blocks(letter: u8) -> Option<u64>
    ensures { result ≡ spec_letter_blocks letter }
{
    match letter {
        b'b' | b'B' => Some(1),
        b'k' | b'K' => Some(2),
        b'm' | b'M' => Some(2 << 10),
        b'g' | b'G' => Some(2 << 20),
        b't' | b'T' => Some(2 << 30),
        _ => None,
    }
}
