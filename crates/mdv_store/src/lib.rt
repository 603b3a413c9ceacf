//! The state database with replicas on many slices and drives: what a boot finds of it and writes anew, how it is made, and how a
//! table is committed to it.
#![tactic(auto)]

mod booting;
mod creating;
mod law;
mod letters;
mod listing;
mod seats;
mod settling;
mod store;
mod text;
mod writing;

pub use booting::{BootEnd, Booted, boot};
pub use creating::{CreateFault, create, seats_asked};
pub use law::seats_tell;
pub use letters::{Lettered, Letters};
pub use listing::room_of;
pub use seats::{Need, Seat, Share, short};
pub use store::{CommitFault, Store};
