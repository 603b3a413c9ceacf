//! Devices whose blocks lie in one place each, and the one way in which blocks of them are read, written and put on the disk.
#![tactic(auto)]

mod chain;
mod piece;
mod placed;
mod request;
mod run;
mod syncing;
mod work;

pub use chain::Chain;
pub use piece::{Piece, is_behind};
pub use placed::Placed;
pub use request::{read_blocks, write_blocks};
pub use run::DriveRun;
pub use work::{Work, WorkKind, finish, turn};
