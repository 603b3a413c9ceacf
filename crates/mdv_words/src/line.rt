ghost use Rattle.std.specs.Prelude.{◌≡◌, ◌≢◌, ℕ, List, IfOk, IfErr, MatchOption};
ghost use Rattle.mdv_words.specs.Line.{IsAlone, IsFaultOf, IsLine, line_of, tab_text};

use crate::command::{Command, built};
use mdv_grammar::{Line as Asked, WordsFault};
use std::alloc::Global;

const TAB: &[u8] = b"tab\n";

/// An item of a script. The host boots itself; an engine carries the others out.
#[derive(Drop)]
pub enum Line<'a> {
    /// `boot`
    Boot,
    /// The lines between `tab` and `end`, each with its newline.
    Tab(&'a [u8]),
    Command(Command),
}

// The lines of a block.
fn lines_of(text: &[u8]) -> Option<&[u8]>
    ensures { MatchOption result ((lines : List ℕ) → text.now ≢ tab_text lines)
        (λ lines. text.now ≡ tab_text lines.now) }
{
    text.strip_prefix(TAB)
}

fn read_alone(alloc: Global, text: &[u8]) -> Result<Line<'static>, WordsFault>
    requires { IsAlone text.now }
    ensures value { IfOk result (λ l. IsLine text.now (line_of l)) }
    ensures fault { IfErr result (IsFaultOf text.now) }
{
    match mdv_grammar::read_line(alloc, text)? {
        Asked::Boot => Ok(Line::Boot),
        Asked::Command(asked) => match built(asked) {
            Some(command) => Ok(Line::Command(command)),
            None => Err(WordsFault::BadLine),
        },
        _ => Err(WordsFault::BadLine),
    }
}

/// What an item spells: a line without its newline, or a `tab` block, which is `tab`, a newline, and the lines
/// between `tab` and `end`, each with its newline. `BadLine` is a line that isn't in the grammar, or that asks
/// for what isn't built.
pub fn read_line<'a>(alloc: Global, text: &'a [u8]) -> Result<Line<'a>, WordsFault>
    ensures value { IfOk result (λ l. IsLine text.now (line_of l)) }
    ensures fault { IfErr result (IsFaultOf text.now) }
{
    match lines_of(text) {
        Some(lines) => Ok(Line::Tab(lines)),
        None => read_alone(alloc, text),
    }
}
