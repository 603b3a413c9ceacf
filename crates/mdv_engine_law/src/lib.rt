//! What the commands of one host come to, how they are replied to, and how its drive stands with its history at each
//! moment: the definitions and laws that an engine is held to, and the telling of replies.
#![tactic(auto)]

mod answer;
mod host;
mod names;
mod telling;

pub use answer::{Answer, Ended, Outcome, Reply};
pub use host::Host;
pub use names::names_refusal;
pub use telling::{reply_at, tell};
