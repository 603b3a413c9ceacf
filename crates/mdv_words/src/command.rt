ghost use Rattle.std.specs.Prelude.{◌≡◌};
ghost use Rattle.std.specs.List.{list_all};
ghost use Rattle.mdv_words.specs.Line.{blocks_or_default, clear_of, count_or_default, creation_of, attach_of, built_of, is_built as spec_is_built, is_built_row as spec_is_built_row, is_of_slices as spec_is_of_slices, is_slice as spec_is_slice, make_of, on_local, print_of};

use crate::written::Written;
use mdv_base::{Name, Named, SliceName, VolId};
use mdv_command::Command as Asked;
use mdv_name::VolName;
use mdv_parts::{Component, Items, ReplicaOptions};
use mdv_remake::{is_few, is_short_row, is_within};
use mdv_tab::{Entry, Row};

// How many replicas each slice gets where no `-c` is given.
const DEFAULT_COUNT: u8 = 1;

// How many blocks a replica has that no `-l` is given for.
const DEFAULT_BLOCKS: u32 = 8192;

/// What a line asks an engine for.
#[derive(Drop)]
pub enum Command {
    /// `metadb -a SLICE ..`, or with `-f`, `-c COUNT` or `-l BLOCKS`
    AddPlaces {
        /// One or more; a line may name a slice twice.
        slices: Items<SliceName>,
        force: bool,
        /// Replicas on each slice, 1 to 50.
        count: u8,
        /// Blocks of each replica, 16 to 8192.
        blocks: u32,
    },
    /// `metadb -a mddbNN`, or with `-f`: as the entry of that number says, of those of the last `tab` block
    AddListed {
        number: u8,
        force: bool,
    },
    /// `metadb -d SLICE ..`, or with `-f`
    DropPlaces {
        /// One or more; a line may name a slice twice.
        slices: Items<SliceName>,
        force: bool,
    },
    /// A change of the volumes of the open database.
    Alter {
        alteration: Alteration,
    },
    /// `read dN AT COUNT`: COUNT blocks from block AT of the volume on, 1 or more
    Read {
        volume: VolId,
        at: u64,
        count: u64,
    },
    /// `write dN AT HEX`, `fill dN AT COUNT BYTE`: blocks from block AT of the volume on
    Write {
        volume: VolId,
        at: u64,
        what: Written,
    },
    /// `metastat -p`, or with names: these volumes and pools of the local database alone
    Print {
        names: Items<Named>,
    },
}

/// How the volumes of a database are to change.
#[derive(Drop)]
pub enum Alteration {
    /// `metainit dN NUMSTRIPES ..`, or with `-f`: the volume of the entry, whose rows are of slices, without a pool of
    /// spares
    Make(Entry),
    /// `metattach dN SLICE ..`, or with `-i SIZE`: a row of slices more behind those of the volume
    Attach { volume: VolId, row: Row },
    /// `metaclear NAME ..`, or with `-f`, which changes nothing: these volumes and pools go, all or none. With `-r`
    /// each volume below them goes too that nothing else uses.
    Clear { names: Items<Named>, below: bool },
    /// `metaclear -a`, or with `-f`: all volumes and pools go
    ClearAll,
}

pub(crate) fn count_of(options: &ReplicaOptions) -> u8
    ensures { result ≡ count_or_default options.now.count }
{
    match options.count {
        Some(count) => count,
        None => DEFAULT_COUNT,
    }
}

pub(crate) fn blocks_of(options: &ReplicaOptions) -> u32
    ensures { result ≡ blocks_or_default options.now.blocks }
{
    match options.blocks {
        Some(blocks) => u32::from(blocks),
        None => DEFAULT_BLOCKS,
    }
}

fn creation(slices: Items<SliceName>, options: &ReplicaOptions, force: bool) -> Command
    ensures { result ≡ creation_of slices options.now.count options.now.blocks force }
{
    Command::AddPlaces {
        slices,
        force,
        count: count_of(options),
        blocks: blocks_of(options),
    }
}

fn is_slice(component: &Component) -> bool
    ensures { result ≡ spec_is_slice component.now }
{
    match component {
        Component::Slice(_) => true,
        Component::Volume(_) => false,
    }
}

fn is_of_slices(row: &Row) -> bool
    ensures { result ≡ spec_is_of_slices row.now }
{
    row.components.as_slice().iter().all(is_slice)
}

fn are_of_slices(rows: &[Row]) -> bool
    ensures { result ≡ list_all spec_is_of_slices rows.now }
{
    rows.iter().all(is_of_slices)
}

// Whether it is a volume that is made yet.
fn is_built(entry: &Entry) -> bool
    ensures { result ≡ spec_is_built entry.now }
{
    match entry {
        Entry::Stripe { name, rows, spares } => {
            name.set.is_none() && spares.is_none() && are_of_slices(rows.as_slice())
        }
        _ => false,
    }
}

fn make(entry: Entry) -> Option<Command>
    ensures { result ≡ make_of entry }
{
    if is_built(&entry) && is_within(&entry) {
        Some(Command::Alter {
            alteration: Alteration::Make(entry),
        })
    } else {
        None
    }
}

fn is_built_row(row: &Row) -> bool
    ensures { result ≡ spec_is_built_row row.now }
{
    is_of_slices(row) && is_short_row(row)
}

// A row more for a volume of the local database.
fn attach(name: &VolName, row: Row) -> Option<Command>
    ensures { result ≡ attach_of name.now row }
{
    if name.set.is_none() && is_built_row(&row) {
        Some(Command::Alter {
            alteration: Alteration::Attach {
                volume: name.volume,
                row,
            },
        })
    } else {
        None
    }
}

// These volumes and pools of the local database go.
fn clear(set: Option<Name>, names: Items<Named>, below: bool) -> Option<Command>
    ensures { result ≡ clear_of set names below }
{
    if set.is_none() && is_few(names.as_slice()) {
        Some(Command::Alter {
            alteration: Alteration::Clear { names, below },
        })
    } else {
        None
    }
}

// The command where it is of the local database.
fn local(set: Option<Name>, command: Command) -> Option<Command>
    ensures { result ≡ on_local set command }
{
    match set {
        None => Some(command),
        Some(_) => None,
    }
}

// As md.tab text, of the local database.
fn print(set: Option<Name>, names: Items<Named>, printed: bool) -> Option<Command>
    ensures { result ≡ print_of set names printed }
{
    if printed && set.is_none() {
        Some(Command::Print { names })
    } else {
        None
    }
}

// What is built of all that a line may ask.
pub(crate) fn built(asked: Asked) -> Option<Command>
    ensures { result ≡ built_of asked }
{
    match asked {
        Asked::AddReplicas {
            slices,
            options,
            force,
        } => Some(creation(slices, &options, force)),
        Asked::AddListed { number, force } => Some(Command::AddListed { number, force }),
        Asked::DeleteReplicas { slices, force } => Some(Command::DropPlaces { slices, force }),
        Asked::Make { entry, .. } => make(entry),
        Asked::Attach {
            volume,
            components,
            interlace,
        } => attach(
            &volume,
            Row {
                components,
                interlace,
            },
        ),
        Asked::Clear { set, names, below } => clear(set, names, below),
        Asked::ClearAll { set } => local(
            set,
            Command::Alter {
                alteration: Alteration::ClearAll,
            },
        ),
        Asked::Read { volume, at, count } => local(
            volume.set,
            Command::Read {
                volume: volume.volume,
                at,
                count,
            },
        ),
        Asked::Write { volume, at, block } => local(
            volume.set,
            Command::Write {
                volume: volume.volume,
                at,
                what: Written::One(block),
            },
        ),
        Asked::Fill {
            volume,
            at,
            count,
            byte,
        } => local(
            volume.set,
            Command::Write {
                volume: volume.volume,
                at,
                what: Written::Filled { count, byte },
            },
        ),
        Asked::Status {
            set,
            names,
            printed,
        } => print(set, names, printed),
        _ => None,
    }
}
