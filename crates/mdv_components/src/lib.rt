//! Volumes of components: what refuses a stripe, concatenation or RAID-5 volume that is asked for, and what
//! it is. The causes of all changes, in their order, stand here too.
#![tactic(auto)]

mod asked;
mod bases;
mod cause;
mod raids;
mod room;
mod softs;
mod stripes;

pub use asked::{MAX_NAMES, RaidAsked, RowAsked};
pub use bases::{
    has_foreign, has_meeting, has_missing, has_no_leaf, has_slice_in_use, has_twice,
    has_volume_in_use, is_foreign, is_missing, is_no_leaf, no_pool, pool_of, volume_of,
};
pub use cause::{Carried, Cause, causes_stand_in_order};
pub use raids::{PREWRITE_BLOCKS, raid_on, raid_status, refuse_raid};
pub use room::{first_block, okay_parts, room_of, soft_blocks_of, start_of};
pub use softs::{has_soft, has_soft_in};
pub use stripes::{
    is_bad_row, is_empty_row, is_too_small, refuse_stripe, row_on, stripe_on, stripe_status,
};
