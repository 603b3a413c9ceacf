//! The words that every crate of the volume manager speaks: blocks, drives, slices, names, places of
//! replicas, marks, and the refusals that a line may be answered with.
#![tactic(auto)]

mod block;
mod drive;
mod drive_set;
mod flags;
mod mark;
mod name;
mod place;
mod refusal;
mod state_word;

pub use block::{BLOCK_BYTES, Block, ZERO_BLOCK};
pub use drive::{DriveName, DriveNo, Failed, SliceName};
pub use drive_set::{DriveSet, MAX_DRIVES};
pub use flags::Flags;
pub use mark::{Identity, Mark, NUMBER_LIMIT};
pub use name::{Key, NAME_BYTES, Name, Named, PoolId, VolId};
pub use place::{MAX_PLACES, Place, Places};
pub use refusal::{Refusal, ReplyText};
pub use state_word::StateWord;
