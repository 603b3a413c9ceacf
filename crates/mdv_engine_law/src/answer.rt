use mdv_base::{Identity, Refusal};
use mdv_status::ValueText;

/// What a line came to, before it is told.
#[derive(Drop)]
pub enum Answer {
    /// Something is told, and the run goes on.
    Said(Outcome),
    /// The run is over, and nothing is told.
    Over(Ended),
}

/// What is told of a line.
#[derive(Drop)]
pub enum Outcome {
    /// What was asked is done.
    Ok,
    /// The whole reply to a read, or to a `tab` block.
    Values(ValueText),
    Refused(Refusal),
}

/// Why a run is over with a line, or isn't begun by its boot.
#[derive(Clone, Copy, Debug, PartialEq, Eq)]
pub enum Ended {
    /// Not more than half of the places of the newest table's list are readable at a boot: so many are, and so many are needed.
    NoQuorum { readable: u32, needed: u32 },
    /// At a boot replicas of two databases show tables.
    TwoDatabases { a: Identity, b: Identity },
    /// The places that are left are no write quorum: so many are active, of so many that are listed.
    Lost { active: u32, listed: u32 },
    /// A number would reach 2^63.
    Spent,
    /// A boot was refused memory.
    Memory,
}

/// How a line was replied to.
#[derive(Clone, Copy, Debug, PartialEq, Eq)]
pub enum Reply {
    /// `ok` was told, behind the values that a read asks for, or the number of a block's entries.
    Ok,
    /// The refusal was told.
    Refused(Refusal),
    /// Too few places are readable at a boot; nothing was told.
    NoQuorum { readable: u32, needed: u32 },
    /// Two databases show tables at a boot; nothing was told.
    TwoDatabases { a: Identity, b: Identity },
    /// The places that are left are no write quorum; nothing was told.
    Panic { active: u32, listed: u32 },
    /// A number would reach 2^63; nothing was told.
    Spent,
    /// A boot was refused memory; nothing was told.
    NoMemory,
    /// The giving of the reply failed; a front of it may have been told.
    Told,
}
