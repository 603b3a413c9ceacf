ghost use Rattle.std.specs.Prelude.{◌≡◌, ◌∷◌, false, ℕ, Some, None, List, IfOk, IfSome, IfNone, MatchOption};
ghost use Rattle.mdv_command.specs.Below.{words};
ghost use Rattle.mdv_command.specs.declared.given.Given.{Given};
ghost use Rattle.mdv_command.specs.Options.{value_at as spec_value_at, last_of, letters_of};
ghost use Rattle.mdv_command.specs.Options.{GivesMore, GivesNone, ReadsOptions, AreOptions, is_dashed};

use crate::given::{Given, has_byte, is_once, read_value};
use mdv_parts::Items;
use mdv_text::first_word;
use std::alloc::{AllocError, Global};

// The text of a value, which is the rest of its word or the next word, and what stands behind it.
fn value_at<'a>(text: &'a [u8], behind: &'a [u8]) -> Option<(&'a [u8], &'a [u8])>
    ensures value { IfSome result (λ r.
        spec_value_at text.now (words behind.now) ≡ Some (r.0.now, words r.1.now)) }
    ensures none { IfNone result (spec_value_at text.now (words behind.now) ≡ None) }
{
    if text.is_empty() {
        first_word(behind)
    } else {
        Some((text, behind))
    }
}

// The option of the letter, whose value follows. Want of memory is the only error, here and below.
fn read_last<'a>(
    values: &[u8],
    letter: u8,
    text: &'a [u8],
    behind: &'a [u8],
    given: &mut Items<Given>,
) -> Result<Option<&'a [u8]>, AllocError>
    ensures { let asked = last_of values.now letter text.now (words behind.now) in
        IfOk result (λ o. MatchOption o (GivesNone asked)
        (λ rest. GivesMore asked (words rest.now) given.old given.new)) }
{
    if !has_byte(values, letter) {
        return Ok(None);
    }
    let Some((text, rest)) = value_at(text, behind) else {
        return Ok(None);
    };
    let Some(value) = read_value(letter, text) else {
        return Ok(None);
    };
    given.push(value)?;
    Ok(Some(rest))
}

// The options of a word's letters.
fn read_letters<'a>(
    flags: &[u8],
    values: &[u8],
    letters: &'a [u8],
    behind: &'a [u8],
    given: &mut Items<Given>,
) -> Result<Option<&'a [u8]>, AllocError>
    ensures { let asked = letters_of flags.now values.now letters.now (words behind.now) in
        IfOk result (λ o. MatchOption o (GivesNone asked)
        (λ rest. GivesMore asked (words rest.now) given.old given.new)) }
{
    let mut rest = letters;
    while let [letter, on @ ..] = rest {
        if !has_byte(flags, *letter) {
            let Some(on) = read_last(values, *letter, on, behind, given)? else {
                return Ok(None);
            };
            return Ok(Some(on));
        }
        given.push(Given::Flag(*letter))?;
        rest = on;
    }
    Ok(Some(behind))
}

// What stands behind the dash of a word of options.
fn behind_dash(word: &[u8]) -> Option<&[u8]>
    ensures value { IfSome result (λ letters. word.now ≡ 45 ∷ letters.now) }
    ensures none { IfNone result (is_dashed word.now ≡ false) }
{
    match word {
        [b'-', letters @ ..] => Some(letters),
        _ => None,
    }
}

fn read_options<'a>(
    alloc: Global,
    flags: &[u8],
    values: &[u8],
    text: &'a [u8],
) -> Result<Option<(Items<Given>, &'a [u8])>, AllocError>
    ensures { IfOk result (λ o. MatchOption o
        ((gs : List Given) (rest : List (List ℕ)) →
        ReadsOptions flags.now values.now (words text.now) gs rest → ⊥)
        (λ r. ReadsOptions flags.now values.now (words text.now) r.0 (words r.1.now))) }
{
    let mut given = Items::new(alloc);
    let mut rest = text;
    while let Some((word, behind)) = first_word(rest) {
        let Some(letters) = behind_dash(word) else {
            return Ok(Some((given, rest)));
        };
        if letters.is_empty() {
            return Ok(None);
        }
        let Some(on) = read_letters(flags, values, letters, behind, &mut given)? else {
            return Ok(None);
        };
        rest = on;
    }
    Ok(Some((given, rest)))
}

/// The options in front of a line's operands, and the operands; None where they aren't spelled so, or one
/// stands twice. Of their letters those of `flags` stand alone, and those of `values` have a value.
pub fn split_options<'a>(
    alloc: Global,
    flags: &[u8],
    values: &[u8],
    text: &'a [u8],
) -> Result<Option<(Items<Given>, &'a [u8])>, AllocError>
    ensures { IfOk result (λ o. MatchOption o
        ((gs : List Given) (rest : List (List ℕ)) →
        AreOptions flags.now values.now (words text.now) gs rest → ⊥)
        (λ r. AreOptions flags.now values.now (words text.now) r.0 (words r.1.now))) }
{
    let Some((given, rest)) = read_options(alloc, flags, values, text)? else {
        return Ok(None);
    };
    if !is_once(given.as_slice()) {
        return Ok(None);
    }
    Ok(Some((given, rest)))
}
