ghost use Rattle.std.specs.Prelude.{◌≡◌};

use crate::disk::Disk;

/// A file that is held for its lock alone: no call reaches it any more.
#[derive(Drop)]
pub struct Held {
    disk: Disk,
}

impl Held {
    pub fn new(disk: Disk) -> Held
        ensures { result.disk ≡ disk }
    {
        Held { disk }
    }
}
