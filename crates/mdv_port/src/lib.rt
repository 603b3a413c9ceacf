//! Where a script comes from: the trait `Source`, a source over bytes in memory, and the reader that
//! cuts a source's bytes into lines. Nothing here takes memory.
#![tactic(auto)]

mod chunk;
mod cut;
mod line_buffer;
mod memory;
mod reader;
mod source;

pub use memory::MemSource;
pub use reader::{LineEnd, LineReader, MAX_BYTES, MAX_LINE, MAX_LINES};
pub use source::Source;
