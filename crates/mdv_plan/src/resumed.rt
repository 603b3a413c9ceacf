//! What is copied to the components of a submirror that comes back.
ghost use Rattle.std.specs.Prelude.{◌≡◌};
ghost use Rattle.mdv_plan.specs.Resumed.{okay_resumed as spec_okay_resumed, resumed as spec_resumed, part_resumed as spec_part_resumed};
ghost use Rattle.mdv_plan.specs.Resumed.{is_marked as spec_is_marked, has_dirty as spec_has_dirty};

use crate::status::{PartStatus, Resync, State};

fn okay_resumed(dirty: bool) -> State
    ensures { result ≡ spec_okay_resumed dirty }
{
    if dirty {
        State::Resyncing(Resync::Regions)
    } else {
        State::Okay
    }
}

fn resumed(dirty: bool, state: State) -> State
    ensures { result ≡ spec_resumed dirty state }
{
    match state {
        State::Okay => okay_resumed(dirty),
        State::Resyncing(_) => State::Resyncing(Resync::Whole),
        _ => state,
    }
}

/// A component of a submirror that comes back, where the mirror has dirty regions or none: these are copied
/// to it where it was Okay, and everything where it was Resyncing. It lies where it lay.
pub fn part_resumed(dirty: bool, part: PartStatus) -> PartStatus
    ensures { result ≡ spec_part_resumed dirty part }
{
    PartStatus {
        state: resumed(dirty, part.state),
        ..part
    }
}

fn is_marked(byte: u8) -> bool
    ensures { result ≡ spec_is_marked byte }
{
    byte != 0
}

/// Whether any region is dirty of these, eight a byte.
pub fn has_dirty(bytes: &[u8]) -> bool
    ensures { result ≡ spec_has_dirty bytes.now }
{
    bytes.iter().any(|byte| is_marked(*byte))
}
