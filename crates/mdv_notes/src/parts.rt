//! The states of components.
ghost use Rattle.std.specs.Prelude.{◌≡◌, map};
ghost use Rattle.mdv_notes.specs.Parts.{changed_at, part_noted as spec_part_noted, part_resumed as spec_part_resumed};

use crate::note::PartNote;
use mdv_plan::{PartStatus, Resync, State, part_resumed};

fn part_noted(note: PartNote, part: PartStatus) -> PartStatus
    ensures { result ≡ spec_part_noted note part }
{
    match note {
        PartNote::Okay => PartStatus {
            state: State::Okay,
            ..part
        },
        PartNote::Resyncing(resync) => PartStatus {
            state: State::Resyncing(resync),
            ..part
        },
        PartNote::Failed => PartStatus {
            state: State::Maintenance,
            spare: None,
        },
        PartNote::Spared(spare) => PartStatus {
            state: State::Resyncing(Resync::Whole),
            spare: Some(spare),
        },
        PartNote::LastErred => PartStatus {
            state: State::LastErred,
            ..part
        },
        PartNote::Enabled => PartStatus {
            state: State::Resyncing(Resync::Whole),
            spare: None,
        },
    }
}

/// Notes this of the component at the place, where there is one. The others stay.
pub fn note_part(parts: &mut [PartStatus], place: u8, note: PartNote)
    ensures { parts.new ≡ changed_at place (spec_part_noted note) parts.old }
{
    let place = usize::from(place);
    if place < parts.len() {
        parts[place] = part_noted(note, parts[place]);
    }
}

/// Notes of the components of a submirror that comes back what is copied to them: the dirty regions, where
/// the mirror has some, to what is Okay, and everything to what is Resyncing.
pub fn resume_parts(parts: &mut [PartStatus], dirty: bool)
    ensures { parts.new ≡ map (spec_part_resumed dirty) parts.old }
{
    for part in parts.iter_mut() {
        *part = part_resumed(dirty, *part);
    }
}
