//! The states of spares.
ghost use Rattle.std.specs.Prelude.{◌≡◌};
ghost use Rattle.mdv_notes.specs.Noted.{noted_of};
ghost use Rattle.mdv_notes.specs.Spares.{spares_noted, left, taken, spares_after};
ghost use Rattle.mdv_notes.specs.declared.note.Note.TheVariants.{SpareBroken, SpareAvailable};

use crate::note::PartNote;
use mdv_base::SliceName;
use mdv_plan::{Keyed, Sorted, SpareState, SpareStatus, SpareUse, Table};

// One more than the greatest key of a spare's state.
const KEYS: usize = 4294967296;

type Spares = Sorted<SpareStatus, KEYS>;

fn note_spare(spares: &mut Spares, slice: SliceName, state: SpareState)
    ensures { spares.new ≡ spares_noted slice state spares.old }
{
    let _ascending = spares.as_slice();
    let asked = SpareStatus { slice, state };
    if let Some(old) = spares.find(asked.key()) {
        let slice = old.slice;
        spares.replace(SpareStatus { slice, state });
    }
}

fn leave(spares: &mut Spares, note: PartNote, under: Option<SpareUse>)
    ensures { spares.new ≡ left note under spares.old }
{
    if let Some(spare) = under {
        match note {
            PartNote::Okay | PartNote::Resyncing(_) | PartNote::LastErred => (),
            PartNote::Failed | PartNote::Spared(_) => {
                note_spare(spares, spare.slice, SpareState::Broken);
            }
            PartNote::Enabled => note_spare(spares, spare.slice, SpareState::Available),
        }
    }
}

fn take(spares: &mut Spares, note: PartNote)
    ensures { spares.new ≡ taken note spares.old }
{
    if let PartNote::Spared(spare) = note {
        note_spare(spares, spare.slice, SpareState::InUse);
    }
}

/// Notes of the spares what a note of a component says of them: the one on which the component lay, if it
/// lay on one, and the one that it takes. The others stay.
pub fn note_spares(spares: &mut Spares, note: PartNote, under: Option<SpareUse>)
    ensures { spares.new ≡ spares_after note under spares.old }
{
    leave(spares, note, under);
    take(spares, note);
}

/// Notes the spare Broken in all pools that have it. It takes no memory.
pub fn note_broken(table: &mut Table, spare: SliceName)
    ensures { table.new ≡ noted_of table.old (SpareBroken spare) }
{
    note_spare(&mut table.status.spares, spare, SpareState::Broken);
}

/// Notes the spare Available in all pools that have it. It takes no memory.
pub fn note_available(table: &mut Table, spare: SliceName)
    ensures { table.new ≡ noted_of table.old (SpareAvailable spare) }
{
    note_spare(&mut table.status.spares, spare, SpareState::Available);
}
