ghost use Rattle.std.specs.Prelude.{◌≡◌, ◌≤◌, ◌<◌, ◌^◌, ◌∷◌, [], ℕ, List, IfSome, IfNone, decimal};
ghost use Rattle.mdv_grammar.specs.Below.{VolName, words};
ghost use Rattle.mdv_command.specs.declared.command.Command.{Command};
ghost use Rattle.mdv_grammar.specs.Line.{IsAddress, BeginsWithAddress, IsCount, IsByte, AsksRead, AsksWrite, AsksFill, AsksIdle};

use crate::sets::has_words;
use mdv_command::Command;
use mdv_name::{VolName, parse_volume};
use mdv_text::{first_word, number, read_block, read_pair};

// The only word.
fn only_word(text: &[u8]) -> Option<&[u8]>
    ensures value { IfSome result (λ w. words text.now ≡ w.now ∷ []) }
    ensures none { IfNone result ((w : List ℕ) → words text.now ≡ w ∷ [] → ⊥) }
{
    let (word, rest) = first_word(text)?;
    if has_words(rest) {
        return None;
    }
    Some(word)
}

fn address_of(name: &[u8], block: &[u8]) -> Option<(VolName, u64)>
    ensures value { IfSome result (λ r. IsAddress name.now block.now r.0 r.1) }
    ensures none { IfNone result ((v : VolName) (at : ℕ) → IsAddress name.now block.now v at → ⊥) }
{
    let volume = parse_volume(name)?;
    let at = number(block)?;
    Some((volume, at))
}

// A volume and a block of it, and what stands behind them.
fn split_address(text: &[u8]) -> Option<(VolName, u64, &[u8])>
    ensures value { IfSome result (λ r. BeginsWithAddress (words text.now) r.0 r.1 (words r.2.now)) }
    ensures none { IfNone result ((v : VolName) (at : ℕ) (rest : List (List ℕ)) →
        BeginsWithAddress (words text.now) v at rest → ⊥) }
{
    let (name, rest) = first_word(text)?;
    let (block, rest) = first_word(rest)?;
    let Some((volume, at)) = address_of(name, block) else {
        return None;
    };
    Some((volume, at, rest))
}

fn count_of(word: &[u8]) -> Option<u64>
    ensures value { IfSome result (IsCount word.now) }
    ensures none { IfNone result ((n : ℕ) → IsCount word.now n → ⊥) }
{
    let count = number(word)?;
    if count == 0 {
        return None;
    }
    Some(count)
}

fn byte_of(word: &[u8]) -> Option<u8>
    ensures value { IfSome result (IsByte word.now) }
    ensures none { IfNone result ((n : ℕ) → IsByte word.now n → ⊥) }
{
    match word {
        [first, second] => read_pair(*first, *second),
        _ => None,
    }
}

// What stands behind `read`.
pub(crate) fn read_read(text: &[u8]) -> Option<Command>
    ensures value { IfSome result (AsksRead (words text.now)) }
    ensures none { IfNone result ((c : Command) → AsksRead (words text.now) c → ⊥) }
{
    let Some((volume, at, rest)) = split_address(text) else {
        return None;
    };
    let word = only_word(rest)?;
    let count = count_of(word)?;
    Some(Command::Read { volume, at, count })
}

// What stands behind `write`.
pub(crate) fn read_write(text: &[u8]) -> Option<Command>
    ensures value { IfSome result (AsksWrite (words text.now)) }
    ensures none { IfNone result ((c : Command) → AsksWrite (words text.now) c → ⊥) }
{
    let Some((volume, at, rest)) = split_address(text) else {
        return None;
    };
    let hex = only_word(rest)?;
    let block = read_block(hex)?;
    Some(Command::Write { volume, at, block })
}

// What stands behind `fill`.
pub(crate) fn read_fill(text: &[u8]) -> Option<Command>
    ensures value { IfSome result (AsksFill (words text.now)) }
    ensures none { IfNone result ((c : Command) → AsksFill (words text.now) c → ⊥) }
{
    let Some((volume, at, rest)) = split_address(text) else {
        return None;
    };
    let (blocks, behind) = first_word(rest)?;
    let count = count_of(blocks)?;
    let pair = only_word(behind)?;
    let byte = byte_of(pair)?;
    Some(Command::Fill {
        volume,
        at,
        count,
        byte,
    })
}

// What stands behind `idle`.
pub(crate) fn read_idle(text: &[u8]) -> Option<Command>
    ensures value { IfSome result (AsksIdle (words text.now)) }
    ensures none { IfNone result ((c : Command) → AsksIdle (words text.now) c → ⊥) }
{
    let word = only_word(text)?;
    let steps = number(word)?;
    Some(Command::Idle { steps })
}
