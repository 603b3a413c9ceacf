//! The names of drives, slices, volumes, pools, hosts and sets, and the table of drives.
#![tactic(auto)]

mod code;
mod drive;
mod drive_line;
mod drive_list;
mod entry;
mod file_name;
mod geometry;
mod law;
mod lines;
mod name;
mod name_list;
mod numeral;
mod parse;
mod parse_entry;
mod path;
mod print;
mod read;
mod slice_lines;
mod slice_list;
mod volume;

pub use drive::{parse_drive, parse_plain_slice, spelled_alike};
pub use drive_line::{DriveKind, DriveLine};
pub use drive_list::DriveList;
pub use file_name::FileName;
pub use geometry::{Geometry, GeometryFault};
pub use law::{read_geometries_are_sound, reads_as_one_table, spells_one_name};
pub use name::parse_name;
pub use name_list::NameList;
pub use parse::{parse_pool, parse_slice, parse_volume};
pub use print::{print_drive, print_name, print_pool, print_slice, print_volume};
pub use read::MAX_TEXT;
pub use slice_lines::{SliceAt, SliceLine};
pub use slice_list::SliceList;
pub use volume::{PoolName, VOLUME_LIMIT, VolName};
