//! What a command makes of the table of a database, or the first cause for which it is refused.
#![tactic(auto)]

mod change;
mod clearing;
mod levels;
mod making;
mod mirroring;
mod pooling;
mod replacing;
mod seats;

pub use change::Change;
pub use making::{ApplyFault, apply};
