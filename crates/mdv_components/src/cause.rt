ghost use Rattle.std.specs.Prelude.{◌≡◌};
ghost use Rattle.mdv_components.specs.Causes.{nothing as spec_nothing, told};
ghost use Rattle.mdv_components.specs.Ordered.{CausesStandInOrder};

use mdv_base::{Refusal, StateWord};

/// Why a change is refused, in the order in which the causes are looked at.
#[derive(Clone, Copy, Debug, PartialEq, Eq)]
pub enum Cause {
    NoSuchVolume,
    NoSuchPool,
    /// There is no such slice, or not on a drive of the database.
    NoSuchSlice,
    NameTaken,
    WrongKind,
    /// The volume, component or spare is in another state than the command needs.
    WrongState,
    /// It would take the last usable copy of a block.
    LastCopy,
    TooFew,
    TooMany,
    BadInterlace,
    SliceInUse,
    HasParent,
    /// A soft partition over a soft partition.
    Nested,
    /// The spare stands in for a component.
    SpareInUse,
    TooSmall,
    /// The free runs of the base have too few blocks.
    NoSpace,
}

/// What a refusal tells beside its name.
#[derive(Clone, Copy, Debug, PartialEq, Eq)]
pub struct Carried {
    /// The state that stands in the way, of `WrongState`.
    pub state: StateWord,
    /// How many blocks there would be, of `NoSpace`.
    pub blocks: u64,
}

impl Carried {
    /// Of a change that is refused neither for a state nor for want of blocks.
    pub fn nothing() -> Carried
        ensures { result ≡ spec_nothing }
    {
        Carried {
            state: StateWord::Okay,
            blocks: 0,
        }
    }
}

impl Cause {
    /// The refusal that is told for it.
    pub fn refusal(self, carried: Carried) -> Refusal
        ensures { result ≡ told carried self }
    {
        match self {
            Cause::NoSuchVolume => Refusal::NoSuchVolume,
            Cause::NoSuchPool => Refusal::NoSuchPool,
            Cause::NoSuchSlice => Refusal::NoSuchSlice,
            Cause::NameTaken => Refusal::NameTaken,
            Cause::WrongKind => Refusal::WrongKind,
            Cause::WrongState => Refusal::WrongState(carried.state),
            Cause::LastCopy => Refusal::LastCopy,
            Cause::TooFew => Refusal::TooFew,
            Cause::TooMany => Refusal::TooMany,
            Cause::BadInterlace => Refusal::BadInterlace,
            Cause::SliceInUse => Refusal::SliceInUse,
            Cause::HasParent => Refusal::HasParent,
            Cause::Nested => Refusal::Nested,
            Cause::SpareInUse => Refusal::SpareInUse,
            Cause::TooSmall => Refusal::TooSmall,
            Cause::NoSpace => Refusal::NoSpace(carried.blocks),
        }
    }
}

/// The causes stand in the one order in which refusals of all commands are judged.
pub fn causes_stand_in_order()
    ensures { CausesStandInOrder }
{}
