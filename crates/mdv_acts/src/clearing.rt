// How masters are blanked before places are formatted.
ghost use Rattle.std.specs.Prelude.{◌≤◌, ◌<◌, [], ◌∷◌, OnErr, OnOk, flat_map};
ghost use Rattle.mdv_replica.specs.Replica.{IsPlaced};
ghost use Rattle.mdv_acts.specs.Acts.{ArePlaced, Blanks, HaveGone, HaveStopped, blanks_asked, blanks_behind, blanks_on};
ghost use Rattle.mdv_acts.specs.Asked.{AreAsked, drives_asked};

use crate::place::place_at;
use mdv_base::Failed;
use mdv_name::SliceLine;
use mdv_replica::{PlaceAt, wipe};
use mdv_shelf::Shelf;

/// Where a slice gets more than one place, their masters are blanked: on each slice that of the first place before all others, so that no replica which lay
/// there is found any more, whatever is blanked and formatted behind it.
pub fn clear_all<S: Shelf>(
    shelf: &mut S,
    lines: &[SliceLine],
    count: u8,
    blocks: u32,
) -> Result<(), Failed>
    requires asked { AreAsked (S.sizes shelf.old) lines.now count blocks }
    ensures gone { OnOk result (HaveGone S.Shelf shelf.old shelf.new (drives_asked lines.now) (blanks_asked lines.now count blocks)) }
    ensures stopped { OnErr result (HaveStopped S.Shelf shelf.old shelf.new (drives_asked lines.now) (blanks_asked lines.now count blocks)) }
{
    if count <= 1 {
        return Ok(());
    }
    clear_slices(shelf, lines, count, blocks)?;
    Ok(())
}

fn clear_slices<S: Shelf>(
    shelf: &mut S,
    lines: &[SliceLine],
    count: u8,
    blocks: u32,
) -> Result<(), Failed>
    requires asked { AreAsked (S.sizes shelf.old) lines.now count blocks }
    ensures gone { OnOk result (HaveGone S.Shelf shelf.old shelf.new (drives_asked lines.now) (flat_map (blanks_on count blocks) lines.now)) }
    ensures stopped { OnErr result (HaveStopped S.Shelf shelf.old shelf.new (drives_asked lines.now) (flat_map (blanks_on count blocks) lines.now)) }
{
    for line in lines {
        clear_slice(shelf, *line, count, blocks)?;
    }
    Ok(())
}

// Blanks the master of the first place, and then those of the others, the last one first.
fn clear_slice<S: Shelf>(
    shelf: &mut S,
    line: SliceLine,
    count: u8,
    blocks: u32,
) -> Result<(), Failed>
    requires some { 1 ≤ count }
    requires placed { ArePlaced (S.sizes shelf.old) line count blocks }
    ensures gone { OnOk result (HaveGone S.Shelf shelf.old shelf.new (line.at.drive ∷ []) (blanks_on count blocks line)) }
    ensures stopped { OnErr result (HaveStopped S.Shelf shelf.old shelf.new (line.at.drive ∷ []) (blanks_on count blocks line)) }
{
    blank(shelf, place_at(line, blocks, count, 0))?;
    clear_behind(shelf, line, count, blocks, count - 1)?;
    Ok(())
}

// Those from this number down to the second one.
fn clear_behind<S: Shelf>(
    shelf: &mut S,
    line: SliceLine,
    count: u8,
    blocks: u32,
    number: u8,
) -> Result<(), Failed>
    requires below { number < count }
    requires placed { ArePlaced (S.sizes shelf.old) line count blocks }
    ensures gone { OnOk result (HaveGone S.Shelf shelf.old shelf.new (line.at.drive ∷ []) (blanks_behind line count blocks number)) }
    ensures stopped { OnErr result (HaveStopped S.Shelf shelf.old shelf.new (line.at.drive ∷ []) (blanks_behind line count blocks number)) }
{
    if number == 0 {
        return Ok(());
    }
    blank(shelf, place_at(line, blocks, count, number))?;
    clear_behind(shelf, line, count, blocks, number - 1)?;
    Ok(())
}

/// Blanks the master of a place.
pub(crate) fn blank<S: Shelf>(shelf: &mut S, at: PlaceAt) -> Result<(), Failed>
    requires { IsPlaced (S.sizes shelf.old) at }
    ensures gone { OnOk result (HaveGone S.Shelf shelf.old shelf.new (at.drive ∷ []) (Blanks at ∷ [])) }
    ensures stopped { OnErr result (HaveStopped S.Shelf shelf.old shelf.new (at.drive ∷ []) (Blanks at ∷ [])) }
{
    wipe(shelf, at)?;
    Ok(())
}
