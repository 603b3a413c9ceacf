ghost use Rattle.std.specs.Prelude.{◌≡◌, ◌+◌, ◌≤◌, ◌∷◌, ◌++◌, length, decimal};
ghost use Rattle.arrayvec.specs.ArrayString.{array_string_len};
ghost use Rattle.mdv_base.specs.Refusal.{number_of, name_of, values_of, refusal_text};

use crate::{Name, StateWord};
use arrayvec::ArrayString;
use itoa::Buffer;

/// The text of a reply: at most 79 bytes and room for a newline.
pub type ReplyText = ArrayString<80>;

/// Why a line was refused. The variants stand in the order of their numbers, 1 to 29; the order in
/// which causes are judged is another one, the same for all commands.
#[derive(Clone, Copy, Debug, PartialEq, Eq)]
pub enum Refusal {
    /// The line isn't in the grammar.
    BadLine,
    /// No local database is adopted.
    NoDatabase,
    /// A first replica, or the last replicas or drives, without `-f`.
    NeedForce,
    /// The volume isn't in the plan.
    NoSuchVolume,
    /// The volume, pool, host or mediator is there already.
    NameTaken,
    /// The slice or drive isn't in the table of drives, or not for this database.
    NoSuchSlice,
    /// The slice has another use.
    SliceInUse,
    /// Fewer than three columns, or a width of 0.
    TooFew,
    /// A limit is passed.
    TooMany,
    /// No block would remain, or what was asked for doesn't fit.
    TooSmall,
    /// Another volume uses the volume.
    HasParent,
    /// The volume or slice is of another kind than the command needs.
    WrongKind,
    /// The named state differs.
    WrongState(StateWord),
    /// It would take the last usable copy of a block.
    LastCopy,
    /// The free runs are too short; together they have so many blocks.
    NoSpace(u64),
    /// A soft partition over a soft partition.
    Nested,
    /// The record has so many bytes, and the smallest slot so much room, in bytes.
    ReplicaFull { bytes: u64, room: u64 },
    /// The set isn't open in this run.
    NotOwner,
    /// The set's table names this host as owner.
    OwnedByOther(Name),
    /// The set isn't known.
    NoSuchSet,
    /// The host isn't in the set, or not in the table of drives.
    NoSuchHost,
    /// A block is past the volume's end.
    OutOfRange,
    /// A drive failed, and some block keeps no copy.
    IoFault,
    /// Memory was refused.
    OutOfMemory,
    /// An interlace outside 16 to 204800 blocks.
    BadInterlace,
    /// The pool isn't in the plan.
    NoSuchPool,
    /// The spare stands in for a component.
    SpareInUse,
    /// So many places of the set are readable, and so many are needed.
    SetNoQuorum { readable: u32, needed: u32 },
    /// The line has more than 4096 bytes.
    LineTooLong,
}

impl Refusal {
    /// Its number, 1 to 29.
    pub fn number(&self) -> u8
        ensures { result ≡ number_of self.now }
    {
        match self {
            Refusal::BadLine => 1,
            Refusal::NoDatabase => 2,
            Refusal::NeedForce => 3,
            Refusal::NoSuchVolume => 4,
            Refusal::NameTaken => 5,
            Refusal::NoSuchSlice => 6,
            Refusal::SliceInUse => 7,
            Refusal::TooFew => 8,
            Refusal::TooMany => 9,
            Refusal::TooSmall => 10,
            Refusal::HasParent => 11,
            Refusal::WrongKind => 12,
            Refusal::WrongState(_) => 13,
            Refusal::LastCopy => 14,
            Refusal::NoSpace(_) => 15,
            Refusal::Nested => 16,
            Refusal::ReplicaFull { .. } => 17,
            Refusal::NotOwner => 18,
            Refusal::OwnedByOther(_) => 19,
            Refusal::NoSuchSet => 20,
            Refusal::NoSuchHost => 21,
            Refusal::OutOfRange => 22,
            Refusal::IoFault => 23,
            Refusal::OutOfMemory => 24,
            Refusal::BadInterlace => 25,
            Refusal::NoSuchPool => 26,
            Refusal::SpareInUse => 27,
            Refusal::SetNoQuorum { .. } => 28,
            Refusal::LineTooLong => 29,
        }
    }

    pub fn name(&self) -> &'static str
        ensures value { result.now ≡ name_of self.now }
        ensures short { length result.now ≤ 14 }
    {
        match self {
            Refusal::BadLine => "BadLine",
            Refusal::NoDatabase => "NoDatabase",
            Refusal::NeedForce => "NeedForce",
            Refusal::NoSuchVolume => "NoSuchVolume",
            Refusal::NameTaken => "NameTaken",
            Refusal::NoSuchSlice => "NoSuchSlice",
            Refusal::SliceInUse => "SliceInUse",
            Refusal::TooFew => "TooFew",
            Refusal::TooMany => "TooMany",
            Refusal::TooSmall => "TooSmall",
            Refusal::HasParent => "HasParent",
            Refusal::WrongKind => "WrongKind",
            Refusal::WrongState(_) => "WrongState",
            Refusal::LastCopy => "LastCopy",
            Refusal::NoSpace(_) => "NoSpace",
            Refusal::Nested => "Nested",
            Refusal::ReplicaFull { .. } => "ReplicaFull",
            Refusal::NotOwner => "NotOwner",
            Refusal::OwnedByOther(_) => "OwnedByOther",
            Refusal::NoSuchSet => "NoSuchSet",
            Refusal::NoSuchHost => "NoSuchHost",
            Refusal::OutOfRange => "OutOfRange",
            Refusal::IoFault => "IoFault",
            Refusal::OutOfMemory => "OutOfMemory",
            Refusal::BadInterlace => "BadInterlace",
            Refusal::NoSuchPool => "NoSuchPool",
            Refusal::SpareInUse => "SpareInUse",
            Refusal::SetNoQuorum { .. } => "SetNoQuorum",
            Refusal::LineTooLong => "LineTooLong",
        }
    }

    /// The reply, as `refused E3 NeedForce`, without its newline.
    pub fn text(&self) -> ReplyText
        ensures value { result.bytes ≡ refusal_text self.now }
        ensures short { array_string_len result ≤ 79 }
    {
        let mut number = Buffer::new();
        let mut text = ArrayString::new();
        text.push_str("refused E");
        text.push_str(number.format(self.number()));
        text.push_str(" ");
        text.push_str(self.name());
        self.push_values(&mut text);
        text
    }

    // Each carried value behind a blank.
    fn push_values(&self, text: &mut ReplyText)
        requires { array_string_len text.old ≤ 30 }
        ensures value { text.new.bytes ≡ text.old.bytes ++ values_of self.now }
        ensures short { array_string_len text.new ≤ array_string_len text.old + 42 }
    {
        match self {
            Refusal::WrongState(word) => push_word(text, word.as_str()),
            Refusal::NoSpace(blocks) => push_number(text, *blocks),
            Refusal::ReplicaFull { bytes, room } => {
                push_number(text, *bytes);
                push_number(text, *room);
            }
            Refusal::OwnedByOther(host) => push_word(text, host.as_str()),
            Refusal::SetNoQuorum { readable, needed } => {
                push_number(text, u64::from(*readable));
                push_number(text, u64::from(*needed));
            }
            _ => {}
        }
    }
}

fn push_word(text: &mut ReplyText, word: &str)
    requires { array_string_len text.old + length word.now ≤ 79 }
    ensures value { text.new.bytes ≡ text.old.bytes ++ 32 ∷ word.now }
    ensures length { array_string_len text.new ≡ array_string_len text.old + length word.now + 1 }
{
    text.push_str(" ");
    text.push_str(word);
}

fn push_number(text: &mut ReplyText, number: u64)
    requires { array_string_len text.old ≤ 59 }
    ensures value { text.new.bytes ≡ text.old.bytes ++ 32 ∷ decimal number }
    ensures short { array_string_len text.new ≤ array_string_len text.old + 21 }
{
    let mut buffer = Buffer::new();
    push_word(text, buffer.format(number));
}
