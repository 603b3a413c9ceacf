//! Slices that come into pools of hot spares, leave them or are put right: what refuses them, what the pools
//! are, and the states of the spares.
#![tactic(auto)]

mod all_pools;
mod deleting;
mod enabling;
mod meant;
mod pools;
mod replacing;
mod states;

pub use all_pools::{coming, pools_longer, refuse_for_all};
pub use deleting::{pools_less, refuse_delete};
pub use enabling::{refuse_enable, unbroken_word};
pub use meant::{Meant, lost_keys};
pub use pools::{pool_with, refuse_spares};
pub use replacing::{pools_renewed, refuse_replace};
pub use states::with_states;
