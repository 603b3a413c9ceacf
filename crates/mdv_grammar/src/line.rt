ghost use Rattle.std.specs.Prelude.{◌≡◌, ◌∷◌, [], List, ℕ, IfOk, IfErr, IfSome, IfNone, MatchOption};
ghost use Rattle.mdv_grammar.specs.Below.{words};
ghost use Rattle.mdv_grammar.specs.Line.{AsksBehind, IsCommand, IsBare, Asks, IsLine, IsFaultOf, asks_nothing as spec_asks_nothing, counts_for_nothing, is_comment as spec_is_comment};
ghost use Rattle.mdv_command.specs.declared.command.Command.{Command};
ghost use Rattle.mdv_grammar.specs.declared.line.Line.{Line};

use crate::blocks::{read_fill, read_idle, read_read, read_write};
use crate::operands::read_verb;
use crate::sets::{has_words, read_metaset};
use crate::verb::{Head, head_of};
use mdv_command::Command;
use mdv_tab::is_ascii_line;
use mdv_text::first_word;
use std::alloc::{AllocError, Global};
use thiserror::Error;

/// What a line of a script is.
#[derive(Drop)]
pub enum Line {
    /// A blank line or a comment, which has no reply.
    Nothing,
    /// `tab`: the lines up to `end` are the text of an md.tab.
    Tab,
    /// `end`
    End,
    /// `boot`
    Boot,
    /// A line that the engine runs.
    Command(Command),
}

/// Why a line isn't read.
#[derive(Debug, Drop, PartialEq, Eq, Error)]
pub enum WordsFault {
    /// The line isn't in the grammar, or has a byte past ASCII.
    #[error("the line isn't in the grammar")]
    BadLine,
    #[error("out of memory")]
    Memory,
}

// What stands behind the first word. Want of memory is the only error, here and below.
fn read_behind(alloc: Global, head: Head, text: &[u8]) -> Result<Option<Command>, AllocError>
    ensures { IfOk result (λ o. MatchOption o
        ((c : Command) → AsksBehind head (words text.now) c → ⊥)
        (AsksBehind head (words text.now))) }
{
    match head {
        Head::OfVerb(verb) => read_verb(alloc, verb, text),
        Head::OfSets => read_metaset(alloc, text),
        Head::OfRead => Ok(read_read(text)),
        Head::OfWrite => Ok(read_write(text)),
        Head::OfFill => Ok(read_fill(text)),
        Head::OfIdle => Ok(read_idle(text)),
    }
}

fn read_command(alloc: Global, word: &[u8], text: &[u8]) -> Result<Option<Command>, AllocError>
    ensures { IfOk result (λ o. MatchOption o
        ((c : Command) → IsCommand (word.now ∷ words text.now) c → ⊥)
        (IsCommand (word.now ∷ words text.now))) }
{
    let Some(head) = head_of(word) else {
        return Ok(None);
    };
    let Some(command) = read_behind(alloc, head, text)? else {
        return Ok(None);
    };
    Ok(Some(command))
}

fn is_comment(word: &[u8]) -> bool
    ensures { result ≡ spec_is_comment word.now }
{
    match word {
        [first, ..] => *first == b'#',
        [] => false,
    }
}

// The line whose only word this is.
fn read_bare(word: &[u8]) -> Option<Line>
    ensures value { IfSome result (IsBare word.now) }
    ensures none { IfNone result ((l : Line) → IsBare word.now l → ⊥) }
{
    match word {
        b"tab" => Some(Line::Tab),
        b"end" => Some(Line::End),
        b"boot" => Some(Line::Boot),
        _ => None,
    }
}

fn read_words(alloc: Global, line: &[u8]) -> Result<Option<Line>, AllocError>
    ensures { IfOk result (λ o. MatchOption o
        ((l : Line) → Asks (words line.now) l → ⊥)
        (Asks (words line.now))) }
{
    let Some((word, rest)) = first_word(line) else {
        return Ok(Some(Line::Nothing));
    };
    if is_comment(word) {
        return Ok(Some(Line::Nothing));
    }
    if let Some(bare) = read_bare(word) {
        if has_words(rest) {
            return Ok(None);
        }
        return Ok(Some(bare));
    }
    match read_command(alloc, word, rest)? {
        Some(command) => Ok(Some(Line::Command(command))),
        None => Ok(None),
    }
}

fn begins_with_comment(line: &[u8]) -> bool
    ensures { result ≡ counts_for_nothing (words line.now) }
{
    match first_word(line) {
        Some((word, _)) => is_comment(word),
        None => true,
    }
}

/// Whether the line, without its newline, asks for nothing and has no reply: it has no word, or its first one
/// begins with `#`. A line with a byte past ASCII is a bad one and no comment.
pub fn asks_nothing(line: &[u8]) -> bool
    ensures { result ≡ spec_asks_nothing line.now }
{
    is_ascii_line(line) && begins_with_comment(line)
}

/// Reads a line, without its newline. Its words are parted by blanks and tabs.
pub fn read_line(alloc: Global, line: &[u8]) -> Result<Line, WordsFault>
    ensures value { IfOk result (IsLine line.now) }
    ensures fault { IfErr result (IsFaultOf line.now) }
{
    if !is_ascii_line(line) {
        return Err(WordsFault::BadLine);
    }
    match read_words(alloc, line) {
        Ok(Some(asked)) => Ok(asked),
        Ok(None) => Err(WordsFault::BadLine),
        Err(_) => Err(WordsFault::Memory),
    }
}
