ghost use Rattle.std.specs.Prelude.{◌≡◌, ◌≤◌, ℕ, List, [], Option, Some, None, length, IfOk, OnErr};
ghost use Rattle.mdv_base.specs.Causes.{HasCause};
ghost use Rattle.mdv_port.specs.Lines.{line_limit};
ghost use Rattle.mdv_port.specs.Reader.{IsTold, Counts, SpentAtLimit, ShowsLine};
ghost use Rattle.mdv_port.specs.Script.{Script, script_before, IsTurn};

use crate::Source;
use crate::chunk::Chunk;
use crate::cut::cut_line;
use crate::line_buffer::LineBuffer;
use mdv_base::Failed;
use std::marker::Model;

/// The most bytes of a line, its newline aside.
pub const MAX_LINE: usize = 4096;

/// The most lines of a script.
pub const MAX_LINES: u32 = 1_048_576;

/// The most bytes of a script.
pub const MAX_BYTES: u64 = 4_294_967_296;

/// What a call of `LineReader::next` came to.
#[derive(Clone, Copy, Debug, PartialEq, Eq)]
pub enum LineEnd {
    /// A line, which `LineReader::line` shows.
    Line,
    /// A line of more than 4096 bytes, which was passed over.
    TooLong,
    /// The input is at its end.
    End,
    /// So many lines and bytes were taken, one of the two at its limit, and one more byte came.
    Spent { lines: u32, bytes: u64 },
}

/// Cuts the bytes of a source into lines at newlines; the last line may lack its newline.
#[derive(Drop)]
pub struct LineReader {
    chunk: Chunk,
    // the front of the line that was taken last, and whether that is a line to be shown
    line: LineBuffer,
    shown: bool,
    lines: u32,
    bytes: u64,
}

impl Model for LineReader {
    ghost use Rattle.std.specs.Prelude.{◌≤◌, [], if◌then◌else◌};
    ghost use Rattle.mdv_port.specs.Reader.{Reader};
    ghost use Rattle.mdv_port.specs.Lines.{lines_limit, bytes_limit};

    ghost Value = { Reader };

    ghost view = { λ r. record { unread = r.chunk; lines = r.lines; bytes = r.bytes; line = if r.shown then r.line else [] } };

    ghost invariant = { λ r. (r.lines ≤ lines_limit) × (r.bytes ≤ bytes_limit) };
}

impl LineReader {
    pub fn new() -> LineReader
        ensures { result ≡ record { unread = []; lines = 0; bytes = 0; line = [] } }
    {
        LineReader {
            chunk: Chunk::new(),
            line: LineBuffer::new(),
            shown: false,
            lines: 0,
            bytes: 0,
        }
    }

    /// The content of the line that the last call of `next` answered, without its newline. After
    /// another answer it is empty.
    pub fn line(&self) -> &[u8]
        ensures value { result.now ≡ self.now.line }
        ensures short { length self.now.line ≤ line_limit }
    {
        if self.shown {
            self.line.as_slice()
        } else {
            &[]
        }
    }

    /// Takes the next line. A failed call of the source ends the reading: what had come of the line
    /// is lost.
    pub fn next<I: Source>(&mut self, source: &mut I) -> Result<LineEnd, Failed>
        // What comes first in the input, where the source tells it.
        ensures answer { IsTold self.old self.new (I.left source.old) (I.left source.new) result }
        // The same over a whole reading: each call answers what the script begins with.
        ensures reads { (script : Script) → script_before self.old (I.left source.old) ≡ Some script → IfOk result (λ end. IsTurn script end self.new (I.left source.new)) }
        ensures silent { I.left source.old ≡ None → I.left source.new ≡ None }

        // What holds whatever the source tells.
        ensures counts { Counts self.old self.new result }
        ensures spent { SpentAtLimit result self.new }
        ensures line { ShowsLine result self.new.line }
        ensures err { OnErr result ((self.new.unread ≡ []) × (self.new.bytes ≡ self.old.bytes)) }
        ensures cause { HasCause (I.faults source.old) (I.faults source.new) result }
    {
        self.shown = false;
        self.line.clear();
        if !self.chunk.fill(source)? {
            return Ok(LineEnd::End);
        }
        let (lines, bytes) = (self.lines, self.bytes);
        if lines == MAX_LINES {
            return Ok(LineEnd::Spent { lines, bytes });
        }
        let room = MAX_BYTES - bytes;
        let Some(cut) = cut_line(&mut self.chunk, source, &mut self.line, room)? else {
            self.bytes = MAX_BYTES;
            let bytes = MAX_BYTES;
            return Ok(LineEnd::Spent { lines, bytes });
        };
        self.lines += 1;
        self.bytes += cut.size();
        if cut.length > MAX_LINE as u64 {
            return Ok(LineEnd::TooLong);
        }
        self.shown = true;
        Ok(LineEnd::Line)
    }
}
