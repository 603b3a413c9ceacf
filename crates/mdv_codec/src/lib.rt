//! What the text of a whole configuration says, each part of the plan with its state beside it: how it is read, and
//! which text it is.
#![tactic(auto)]

mod order;
mod parts;
mod pool;
mod record;
mod recorded;
mod stripe;
mod volume;

pub use record::{HEAD, read_record};
pub use recorded::{
    Recorded, RecordedColumns, RecordedFront, RecordedKind, RecordedMirror, RecordedOptions,
    RecordedPart, RecordedPool, RecordedRaid, RecordedRow, RecordedSoft, RecordedSpare,
    RecordedStripe, RecordedSubmirror, RecordedVolume,
};
pub use volume::MIN_COLUMNS;
