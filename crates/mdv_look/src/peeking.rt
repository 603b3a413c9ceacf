// What a boot would take of what a site's drives hold.
ghost use Rattle.std.specs.Prelude.{◌≡◌, ◌<◌, Contains};
ghost use Rattle.mdv_base.specs.declared.drive.DriveNo.{DriveNo};
ghost use Rattle.mdv_name.specs.Sound.{IsSound};
ghost use Rattle.mdv_shelf.specs.Drives.{KeptAmong};
ghost use Rattle.mdv_survey.specs.Newest.{IsMarked};
ghost use Rattle.mdv_survey.specs.Replica.{IsOnShelf};
ghost use Rattle.mdv_look.specs.Peeking.{AreAllOf, IsPeekBy, IsPeeked, WasChosen};

use crate::looking::{Looked, look};
use mdv_base::{DriveNo, DriveSet, Identity};
use mdv_name::Geometry;
use mdv_plan::Table;
use mdv_shelf::Shelf;
use mdv_shown::Site;
use mdv_survey::{Choice, Survey, choose};
use std::alloc::{AllocError, Global};

/// Why a boot would take no table of what the drives that answered hold.
#[derive(Clone, Copy, Debug, PartialEq, Eq)]
pub enum PeekRefusal {
    /// No readable replica of the drives that answered shows a table.
    Empty,
    /// On the drives that answered not more than half of the places that the newest table there lists were found: so many were, and so many are needed.
    NoQuorum { readable: u32, needed: u32 },
    /// Replicas that show tables have different identities: that of the first one in the order of the slices, and the first other one.
    TwoDatabases { a: Identity, b: Identity },
    /// Memory was refused.
    Memory,
}

/// What a peek tells, and of which drives.
#[derive(Drop)]
pub struct Peeked {
    /// The newest table that the drives which answered hold, where a boot's votes take it.
    pub answer: Result<Table, PeekRefusal>,
    /// The site's drives that answered every read: of what lies on the others nothing is told. None where memory was refused.
    pub calm: DriveSet,
}

/// The newest table on the site's drives, where a boot's votes take it: all replicas that show tables are of one database, and more than half of the
/// places that it lists were found. It looks at the slices of all drives of the site, brought up or not; where a read fails it looks anew without that
/// drive, and tells which drives answered. It writes nothing and syncs nothing, so a crash may take back what was read. Whether the places have room for a text, and numbers are left to
/// draw, a boot alone asks.
pub fn peek<S: Shelf>(shelf: &mut S, alloc: Global, geometry: &Geometry, site: &Site) -> Peeked
    requires sound { IsSound geometry.now }
    requires on_shelf { IsOnShelf (S.sizes shelf.old) site.now }
    ensures answer { IsPeeked S.Shelf shelf.old shelf.new geometry.now site.now result }
    ensures still { S.tale shelf.new ≡ S.tale shelf.old }
    ensures kept { KeptAmong S.Shelf shelf.old shelf.new site.now.drives }
{
    let all = set_of(site.drives.as_slice());
    match look(shelf, alloc, geometry, site, &all) {
        Ok(looked) => told(looked),
        Err(AllocError) => Peeked {
            answer: Err(PeekRefusal::Memory),
            calm: DriveSet::new(),
        },
    }
}

fn told(looked: Looked) -> Peeked
    requires { IsMarked looked.survey.replicas looked.survey.newest }
    ensures answer { IsPeekBy looked.survey result.answer }
    ensures calm { result.calm ≡ looked.calm }
{
    let Looked { survey, calm } = looked;
    Peeked {
        answer: taken(survey),
        calm,
    }
}

// The set of these drives.
fn set_of(drives: &[DriveNo]) -> DriveSet
    requires { (drive : DriveNo) → Contains drives.now drive → drive.0 < 256 }
    ensures { AreAllOf drives.now result }
{
    let mut set = DriveSet::new();
    for drive in drives {
        set.insert(*drive);
    }
    set
}

// The table that a boot takes, or why it takes none.
fn taken(survey: Survey) -> Result<Table, PeekRefusal>
    requires { IsMarked survey.replicas survey.newest }
    ensures { IsPeekBy survey result }
{
    match choose(&survey) {
        Choice::Empty => Err(PeekRefusal::Empty),
        Choice::TwoDatabases { a, b } => Err(PeekRefusal::TwoDatabases { a, b }),
        Choice::NoQuorum { readable, needed } => Err(PeekRefusal::NoQuorum { readable, needed }),
        Choice::Newest(_) => newest_of(survey),
    }
}

fn newest_of(survey: Survey) -> Result<Table, PeekRefusal>
    requires { WasChosen survey }
    ensures { IsPeekBy survey result }
{
    let Survey { newest, .. } = survey;
    match newest {
        Some(newest) => Ok(newest.table),
        None => Err(PeekRefusal::Empty),
    }
}
