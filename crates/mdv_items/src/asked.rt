ghost use Rattle.std.specs.Prelude.{◌≡◌, Some, IfOk};
ghost use Rattle.mdv_base.specs.Causes.{HasCause};
ghost use Rattle.mdv_port.specs.Reader.{lines_given};
ghost use Rattle.mdv_port.specs.Script.{Script};
ghost use Rattle.mdv_items.specs.Items.{HasPassed, HasReached, asked_before, is_alone as spec_is_alone};

use mdv_base::Failed;
use mdv_grammar::asks_nothing;
use mdv_port::{LineEnd, LineReader, Source};
use mdv_text::first_word;

/// Whether this is the line's only word.
pub(crate) fn is_alone(word: &[u8], line: &[u8]) -> bool
    ensures { result ≡ spec_is_alone word.now line.now }
{
    match first_word(line) {
        Some((first, rest)) => first == word && first_word(rest).is_none(),
        None => false,
    }
}

/// Takes the next line that asks for something: lines without a word and comments are passed over. They count
/// among the lines and bytes that a script may have.
pub(crate) fn next_asked<I: Source>(
    reader: &mut LineReader,
    source: &mut I,
) -> Result<LineEnd, Failed>
    ensures reads { (script : Script) → asked_before reader.old (I.left source.old) ≡ Some script → IfOk result (λ end. HasReached script end reader.new (I.left source.new)) }
    ensures passed { HasPassed reader.old reader.new (lines_given result) }
    ensures cause { HasCause (I.faults source.old) (I.faults source.new) result }
{
    loop {
        match reader.next(source)? {
            LineEnd::Line => {
                if !asks_nothing(reader.line()) {
                    return Ok(LineEnd::Line);
                }
            }
            end => return Ok(end),
        }
    }
}
