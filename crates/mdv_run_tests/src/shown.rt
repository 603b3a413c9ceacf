ghost use Rattle.std.specs.Prelude.{◌≡◌, ◌≤◌, ◌⊎◌, IfSome, Some};
ghost use Rattle.mdv_run_tests.specs.Numbers.{IsBootOf};
ghost use Rattle.mdv_run_tests.specs.declared.shown.ShownTable.{ShownTable};

use mdv_base::{Identity, Mark};

/// A volume that a record shows: its number, and the slice that it has, of the drive of controller 0 and disk 0 with this
/// target, of so many blocks.
#[derive(Clone, Copy, Debug, PartialEq, Eq)]
pub struct ShownVolume {
    pub number: u16,
    pub target: u8,
    pub slice: u8,
    pub blocks: u64,
}

/// The table of an open slot, with the volumes as they stand in its record. No life makes more than three.
#[derive(Clone, Copy, Debug, PartialEq, Eq)]
pub struct ShownTable {
    pub mark: Mark,
    pub volumes: [Option<ShownVolume>; 3],
}

/// What a place shows: whose database it is, how many blocks its replica has, the number of its claim, and the tables of its
/// open slots.
#[derive(Clone, Copy, Debug, PartialEq, Eq)]
pub struct Shown {
    pub identity: Identity,
    pub blocks: u64,
    pub claim: u64,
    pub first: Option<ShownTable>,
    pub second: Option<ShownTable>,
}

impl Shown {
    /// The greatest number that a boot drew.
    pub fn greatest(&self) -> u64
        ensures claim { self.now.claim ≤ result }
        ensures first { IfSome self.now.first (λ t. t.mark.boot ≤ result) }
        ensures second { IfSome self.now.second (λ t. t.mark.boot ≤ result) }
        ensures one { IsBootOf self.now result }
    {
        or_boot(or_boot(self.claim, self.first), self.second)
    }
}

// The table's boot number where it is the greater one.
fn or_boot(number: u64, table: Option<ShownTable>) -> u64
    ensures number { number ≤ result }
    ensures mark { IfSome table (λ t. t.mark.boot ≤ result) }
    ensures one { (result ≡ number) ⊎ ((t : ShownTable) × (table ≡ Some t) × (result ≡ t.mark.boot)) }
{
    match table {
        Some(table) if table.mark.boot > number => table.mark.boot,
        _ => number,
    }
}
