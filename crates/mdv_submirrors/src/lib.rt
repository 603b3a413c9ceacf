//! Submirrors: what refuses a mirror that is asked for, what it is, and the states of what becomes a
//! submirror.
#![tactic(auto)]

mod attaching;
mod joining;
mod mirrors;
mod sizes;

pub use attaching::{
    attach_states, is_no_mirror, mirror_with_sub, refuse_attach, size_of, subs_of,
};
pub use joining::{all_joined, note_all, status_at};
pub use mirrors::{MirrorAsked, mirror_on, mirror_status, refuse_mirror};
pub use sizes::{blocks_of, is_no_stripe, is_no_volume, row_blocks, stripe_blocks};
