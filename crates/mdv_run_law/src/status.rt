ghost use Rattle.std.specs.Prelude.{◌≡◌, ◌≤◌, ◌↔◌, IsTrue};
ghost use Rattle.mdv_run_law.specs.Status.{status_number, status_text};

use mdv_base::Identity;
use std::fmt;

/// How a run ended. The program ends with the variant's number, 0 to 10.
#[derive(Clone, Copy, Debug, PartialEq, Eq)]
pub enum RunStatus {
    /// The script was read to its end, and no line was refused.
    Done,
    /// The script was read to its end, and some reply told is a refusal.
    SomeRefused,
    /// The words or the table of drives aren't of their form, the host isn't the table's, or the drives
    /// differ from the table's in number or blocks.
    Usage,
    /// The readable replicas are no read quorum.
    NoQuorum { readable: u32, needed: u32 },
    /// The replicas that are left are no write quorum.
    Panic { active: u32, listed: u32 },
    /// The script couldn't be read.
    ReadFault,
    /// A reply couldn't be told.
    WriteFault,
    /// Memory was refused.
    NoMemory,
    /// The readable replicas show two databases.
    TwoDatabases { a: Identity, b: Identity },
    /// So many lines and bytes were taken, one of them at its limit, and one more byte came.
    ScriptTooLong { lines: u32, bytes: u64 },
    /// A boot number or a commit count would reach 2^63.
    NumbersSpent,
}

impl RunStatus {
    /// The number with which the program ends, 0 to 10.
    pub fn number(&self) -> u8
        ensures { result ≡ status_number self.now }
    {
        match self {
            RunStatus::Done => 0,
            RunStatus::SomeRefused => 1,
            RunStatus::Usage => 2,
            RunStatus::NoQuorum { .. } => 3,
            RunStatus::Panic { .. } => 4,
            RunStatus::ReadFault => 5,
            RunStatus::WriteFault => 6,
            RunStatus::NoMemory => 7,
            RunStatus::TwoDatabases { .. } => 8,
            RunStatus::ScriptTooLong { .. } => 9,
            RunStatus::NumbersSpent => 10,
        }
    }

    /// Whether standard error tells of it.
    pub fn is_failure(&self) -> bool
        ensures { IsTrue result ↔ (2 ≤ status_number self.now) }
    {
        self.number() >= 2
    }
}

/// A status as standard error tells it: its name with its values, and behind `Usage` the line of usage.
impl fmt::Display for RunStatus {
    ghost output = { λ status. Some (status_text status) };

    ghost use Rattle.std.specs.Prelude.{Some};

    fn fmt<W: fmt::Write>(&self, f: &mut fmt::Formatter<W>) -> fmt::Result {
        match self {
            RunStatus::Done => write!(f, "Done"),
            RunStatus::SomeRefused => write!(f, "SomeRefused"),
            RunStatus::Usage => write!(f, "Usage\nusage: metad HOST < SCRIPT"),
            RunStatus::NoQuorum { readable, needed } => write!(f, "NoQuorum {readable} {needed}"),
            RunStatus::Panic { active, listed } => write!(f, "Panic {active} {listed}"),
            RunStatus::ReadFault => write!(f, "ReadFault"),
            RunStatus::WriteFault => write!(f, "WriteFault"),
            RunStatus::NoMemory => write!(f, "NoMemory"),
            RunStatus::TwoDatabases { a, b } => {
                write!(
                    f,
                    "TwoDatabases {} {} {} {}",
                    a.fresh, a.number, b.fresh, b.number
                )
            }
            RunStatus::ScriptTooLong { lines, bytes } => write!(f, "ScriptTooLong {lines} {bytes}"),
            RunStatus::NumbersSpent => write!(f, "NumbersSpent"),
        }
    }
}
