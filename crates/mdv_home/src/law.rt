ghost use Rattle.mdv_home.specs.Drives.{OwnDrives as DrivesAreOwn, SlicesWithin};
ghost use Rattle.mdv_home.specs.Sites.{SitesAreOwn};
ghost use Rattle.mdv_home.specs.View.{ViewIsOwn};

/// The drives that are a host's own are those of which its table says so, and no other host's. Each has a block.
pub fn drives_are_own()
    ensures { DrivesAreOwn }
{}

/// Each slice of a table has a block and lies within its drive.
pub fn slices_are_within()
    ensures { SlicesWithin }
{}

/// A host sees just the slices on its own drives.
pub fn views_are_own()
    ensures { ViewIsOwn }
{}

/// A boot of a host brings up the host's own drives, and looks at slices of theirs alone. What the host sees of the table tells it
/// which: there is nothing on other drives that it has to know.
pub fn sites_are_own()
    ensures { SitesAreOwn }
{}
