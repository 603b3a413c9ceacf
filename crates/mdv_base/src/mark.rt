ghost use Rattle.std.specs.Prelude.{◌≡◌, ◌↔◌, ◌≤◌, IsTrue};
ghost use Rattle.mdv_base.specs.Mark.{IsBelow};

/// Numbers of claims, marks and prewrite entries are below this one.
pub const NUMBER_LIMIT: u64 = 1 << 63;

/// Under which mark a table was written: the number that the boot drew, and how many commits it
/// made before. The boot goes before the count, so a table of a later boot is the newer one however
/// many commits an earlier boot made.
#[derive(Clone, Copy, Debug, PartialEq, Eq)]
pub struct Mark {
    pub boot: u64,
    pub count: u64,
}

impl Mark {
    /// Whether the other mark is the newer one.
    pub fn is_below(self, other: Mark) -> bool
        ensures { IsTrue result ↔ IsBelow self other }
    {
        self.boot < other.boot || (self.boot == other.boot && self.count < other.count)
    }
}

/// Which database a replica belongs to: a word that differs between runs, and the number of the
/// creation in that run. A database that is deleted and made anew has another identity.
#[derive(Clone, Copy, Debug, PartialEq, Eq)]
pub struct Identity {
    pub fresh: u64,
    pub number: u32,
}
