ghost use Rattle.std.specs.Prelude.{◌≡◌, ◌≤◌, ◌<◌, ◌^◌, ℕ, List, [], Option, Some, None, length, position, IfOk, IfSome, OnErr};
ghost use Rattle.mdv_base.specs.Causes.{HasCause};
ghost use Rattle.mdv_port.specs.Lines.{is_newline};
ghost use Rattle.mdv_port.specs.Reader.{to_come};
ghost use Rattle.mdv_port.specs.Cut.{cut_size, CutsOff};

use crate::Source;
use crate::chunk::Chunk;
use crate::line_buffer::LineBuffer;
use mdv_base::Failed;
use memchr::memchr;

/// A line that was cut off: how many bytes it has, and whether a newline ended it.
#[derive(Clone, Copy)]
pub struct Cut {
    pub length: u64,
    pub newline: bool,
}

impl Cut {
    pub fn size(self) -> u64
        requires { self.length < 2 ^ 63 }
        ensures { result ≡ cut_size self }
    {
        self.length + u64::from(self.newline)
    }
}

/// Cuts the first line off what is to come. `None` says that it takes more than `room` bytes.
pub fn cut_line<I: Source>(
    chunk: &mut Chunk,
    source: &mut I,
    line: &mut LineBuffer,
    room: u64,
) -> Result<Option<Cut>, Failed>
    requires empty { line.old ≡ [] }
    requires small { room < 2 ^ 63 }
    ensures cuts { (input : List ℕ) → to_come chunk.old (I.left source.old) ≡ Some input → IfOk result (λ cut. CutsOff room [] input cut line.new (to_come chunk.new (I.left source.new))) }
    ensures within { IfOk result (λ cut. IfSome cut (λ c. cut_size c ≤ room)) }
    ensures silent { I.left source.old ≡ None → I.left source.new ≡ None }
    ensures err { OnErr result (chunk.new ≡ []) }
    ensures cause { HasCause (I.faults source.old) (I.faults source.new) result }
{
    let mut length = 0;
    while chunk.fill(source)? {
        let Some(piece) = cut_piece(chunk, line, room - length) else {
            return Ok(None);
        };
        length += piece.length;
        if piece.newline {
            let newline = true;
            return Ok(Some(Cut { length, newline }));
        }
    }
    Ok(Some(Cut {
        length,
        newline: false,
    }))
}

// Cuts off what is unread of the first line.
fn cut_piece(chunk: &mut Chunk, line: &mut LineBuffer, room: u64) -> Option<Cut>
    ensures cuts { CutsOff room line.old chunk.old result line.new (Some chunk.new) }
    ensures within { IfSome result (λ c. cut_size c ≤ room) }
{
    let unread = chunk.unread();
    let newline = newline_in(unread);
    let length = newline.unwrap_or(unread.len());
    let size = length + usize::from(newline.is_some());
    if room < size as u64 {
        chunk.pass(room as usize);
        return None;
    }
    line.append(&unread[..length]);
    chunk.pass(size);
    Some(Cut {
        length: length as u64,
        newline: newline.is_some(),
    })
}

fn newline_in(bytes: &[u8]) -> Option<usize>
    ensures { result ≡ position is_newline bytes.now }
{
    memchr(b'\n', bytes)
}
