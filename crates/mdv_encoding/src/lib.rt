//! The text of a table that is of a table of drives: the bytes by which a replica keeps it.
#![tactic(auto)]

mod decoding;
mod encoding;
mod law;
mod room;

pub use decoding::decode;
pub use encoding::{bytes_with, encode, text_bytes};
pub use law::{
    reads_what_was_written, settled_fits, spells_one_table, texts_are_read, texts_are_whole,
};
pub use room::least_room;
