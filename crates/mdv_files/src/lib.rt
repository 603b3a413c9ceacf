//! A host's drives in image files and on block devices: which of them a run opens, the bench that it works on, and a reader as
//! the source of its script.
#![tactic(auto)]

mod bench;
mod disk;
mod held;
mod image;
mod journal;
mod lines;
mod misfit;
mod opening;
mod reason;
mod source;

pub use bench::FileBench;
pub use disk::{Disk, FileId, Locked, Unopened};
pub use image::Image;
pub use journal::{BOOT_ID, JOURNAL, Journal, Note, SystemStart};
pub use opening::{Start, open_table};
pub use reason::{Call, Reason};
pub use source::FileSource;
