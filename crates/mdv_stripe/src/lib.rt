//! Stripes: one device of several, whose blocks are dealt to them in units, in turn.
#![tactic(auto)]

mod law;
mod least;
mod leg;
mod no_stripe;
mod stripe;

pub use law::{causes_exclude, legs_match, stripes_stand};
pub use leg::Leg;
pub use no_stripe::NoStripe;
pub use stripe::Stripe;
