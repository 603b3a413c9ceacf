//! Notes: what a status change makes of a whole table.
#![tactic(auto)]

mod flags;
mod law;
mod note;
mod parts;
mod regions;
mod spares;
mod whole;

pub use flags::note_flag;
pub use law::{
    noted_tables_stay_noted, noted_tables_tell_of_their_plans, notes_keep_the_plan,
    notes_keep_the_text, notes_leave_others, notes_say_what_they_name,
};
pub use note::{Note, PartAt, PartNote, RegionRange};
pub use parts::{note_part, resume_parts};
pub use regions::note_regions;
pub use spares::{note_available, note_broken, note_spares};
pub use whole::noted;
