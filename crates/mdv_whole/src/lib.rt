//! The one text of a whole table: `encode` spells it, plan and status side by side, and `decode` reads it again.
#![tactic(auto)]

mod beside;
mod decoding;
mod encoding;
mod halves;
mod kinds;
mod law;
mod noted;
mod parting;
mod pools;
mod rows;
mod spares;
mod volumes;

pub use decoding::decode;
pub use encoding::{TooLong, encode, text_bytes, text_bytes_with};
pub use law::{noted_tables_have_texts, reads_what_was_written};
pub use noted::part_states;
pub use spares::{States, state_in};
