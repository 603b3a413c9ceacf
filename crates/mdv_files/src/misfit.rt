ghost use Rattle.std.specs.Prelude.{IsSome, IfSome, IfNone, map};
ghost use Rattle.std.specs.String.{string_bytes};
ghost use Rattle.mdv_files.specs.Misfit.{IsMisfit, misfit_text, Fits};

use mdv_home::host_in;
use mdv_name::Geometry;
use std::fmt;

/// Which part of a use doesn't fit the others.
#[derive(Clone, Copy, Debug, PartialEq, Eq)]
pub enum Misfit {
    /// There are so many words in place of one.
    Words(usize),
    /// The table doesn't have this host.
    Host,
}

/// What doesn't fit where the words and the table of drives aren't those of a use.
pub fn misfit_of(words: &[String], table: &Geometry) -> Option<Misfit>
    ensures fits { IfNone result (Fits (map string_bytes words.now) table.now) }
    ensures faulty { IsSome result → Fits (map string_bytes words.now) table.now → ⊥ }
    ensures misfit { IfSome result (IsMisfit (map string_bytes words.now) table.now) }
{
    let [host] = words else {
        return Some(Misfit::Words(words.len()));
    };
    match host_in(table.hosts.as_slice(), host.as_bytes()) {
        Some(_) => None,
        None => Some(Misfit::Host),
    }
}

impl fmt::Display for Misfit {
    ghost output = { λ m. Some (misfit_text m) };

    ghost use Rattle.std.specs.Prelude.{Some};

    fn fmt<W: fmt::Write>(&self, f: &mut fmt::Formatter<W>) -> fmt::Result {
        match *self {
            Misfit::Words(count) => write!(f, "words: {count} in place of the one host"),
            Misfit::Host => write!(f, "host: drives.tab doesn't have this host"),
        }
    }
}
