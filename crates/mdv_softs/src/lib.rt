//! Soft partitions in a table: what refuses one that is asked for, or blocks that one shall get, and which
//! extents it has.
#![tactic(auto)]

mod asking;
mod growing;
mod making;
mod room;

pub use asking::{is_initializing, is_nested};
pub use growing::{grown_room, refuse_grow, volume_grown};
pub use making::{RoomAsked, SoftAsked, refuse_soft, soft_on, soft_room, soft_status};
pub use room::{Room, kind_blocks};
