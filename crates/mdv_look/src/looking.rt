// What a boot reads: the replicas on the drives that answer every read.
ghost use Rattle.std.specs.Prelude.{◌≡◌, ◌<◌, Contains, true, false, IfOk};
ghost use Rattle.mdv_base.specs.declared.drive.DriveNo.{DriveNo};
ghost use Rattle.mdv_name.specs.Sound.{IsSound};
ghost use Rattle.mdv_shelf.specs.Drives.{KeptAmong};
ghost use Rattle.mdv_shelf.specs.Shelves.{DriveFailures};
ghost use Rattle.mdv_survey.specs.Replica.{IsOnShelf};
ghost use Rattle.mdv_look.specs.Looking.{AreLeftOf, HasFailedOn, IsLookCounted, IsLooked};

use mdv_base::{DriveNo, DriveSet};
use mdv_name::Geometry;
use mdv_shelf::Shelf;
use mdv_shown::Site;
use mdv_survey::{Survey, survey};
use std::alloc::{AllocError, Global};

/// What a look read, and of which drives.
#[derive(Drop)]
pub struct Looked {
    /// What the last look found: the replicas on the drives that answered every read, and the newest of their tables.
    pub survey: Survey,
    /// The drives that were to be looked at and answered every read.
    pub calm: DriveSet,
}

/// Looks at the slices of the site on these drives. Where a read fails it looks anew, without the drives on which one did: what they have doesn't
/// count, whatever was read of it. It writes nothing and syncs nothing. An error tells that memory was refused.
pub fn look<S: Shelf>(
    shelf: &mut S,
    alloc: Global,
    geometry: &Geometry,
    site: &Site,
    up: &DriveSet,
) -> Result<Looked, AllocError>
    requires sound { IsSound geometry.now }
    requires on_shelf { IsOnShelf (S.sizes shelf.old) site.now }
    ensures looked { IsLooked S.Shelf shelf.old shelf.new geometry.now site.now up.now result }
    ensures counted { IsLookCounted S.Shelf shelf.old shelf.new geometry.now site.now up.now result }
    ensures kept { KeptAmong S.Shelf shelf.old shelf.new site.now.drives }
{
    let found = survey(shelf, alloc, geometry, site, up)?;
    let drives = site.drives.as_slice();
    let left = left_of(drives, up, &found.failed);
    if !has_failed(drives, up, &found.failed) {
        return Ok(Looked {
            survey: found,
            calm: left,
        });
    }
    look(shelf, alloc, geometry, site, &left)
}

// A read failed on one of the drives that are up.
fn has_failed(drives: &[DriveNo], up: &DriveSet, failed: &DriveSet) -> bool
    ensures yes { result ≡ true → HasFailedOn drives.now up.now failed.now }
    ensures no { result ≡ false → HasFailedOn drives.now up.now failed.now → ⊥ }
{
    for drive in drives {
        if up.contains(*drive) && failed.contains(*drive) {
            return true;
        }
    }
    false
}

// Those of the drives that are up and on which no read failed.
fn left_of(drives: &[DriveNo], up: &DriveSet, failed: &DriveSet) -> DriveSet
    requires { (drive : DriveNo) → Contains drives.now drive → drive.0 < 256 }
    ensures { AreLeftOf drives.now up.now failed.now result }
{
    let mut left = DriveSet::new();
    for drive in drives {
        if up.contains(*drive) && !failed.contains(*drive) {
            left.insert(*drive);
        }
    }
    left
}
