// The look at all slices of a site.
ghost use Rattle.std.specs.Prelude.{◌≡◌, ◌*◌, Contains, length, IfOk, OnOk};
ghost use Rattle.mdv_name.specs.Sound.{IsSound};
ghost use Rattle.mdv_shelf.specs.Drives.{KeptAmong};
ghost use Rattle.mdv_shelf.specs.Tale.{last};
ghost use Rattle.mdv_survey.specs.Counts.{AreLinesBy, IsCounted, IsLineBy};
ghost use Rattle.mdv_survey.specs.Replica.{IsOnShelf};
ghost use Rattle.mdv_survey.specs.Slots.{OnlyReads};
ghost use Rattle.mdv_survey.specs.Steps.{IsLineLook, WasOneLook};
ghost use Rattle.mdv_survey.specs.Survey.{IsSurvey, IsSurveyOf, KeptToo, ListsLine, LooksAtLine, answers_in};

use crate::body::ReadFault;
use crate::replica::{Finds, Survey};
use crate::slice::look_at_slice;
use mdv_base::{DriveNo, DriveSet};
use mdv_name::{Geometry, SliceLine};
use mdv_shelf::Shelf;
use mdv_shown::Site;
use std::alloc::{AllocError, Global};

/// Looks at each slice of the site on a drive that is up: which replicas of its key are there, and which of their tables is the newest. A
/// call that fails ends the look at its drive, and at no other one. What was found there before stays in the answer, which tells the drives. It writes nothing.
pub fn survey<S: Shelf>(
    shelf: &mut S,
    alloc: Global,
    geometry: &Geometry,
    site: &Site,
    up: &DriveSet,
) -> Result<Survey, AllocError>
    requires sound { IsSound geometry.now }
    requires on_shelf { IsOnShelf (S.sizes shelf.old) site.now }
    ensures answer { IfOk result (IsSurvey site.now up.now) }
    ensures reads { OnlyReads S.Shelf (λ t. IfOk result (IsSurveyOf geometry.now site.now up.now (last t))) shelf.old shelf.new }
    ensures failed { IfOk result (λ s. WasOneLook S.Shelf shelf.old shelf.new geometry.now site.now up.now s.failed) }
    ensures counted { IsCounted S.Shelf shelf.old shelf.new (765 * length site.now.lines) (λ t n. IfOk result (λ s. AreLinesBy geometry.now site.now up.now s.failed (last t) site.now.lines n)) }
    ensures kept { KeptAmong S.Shelf shelf.old shelf.new site.now.drives }
{
    let mut finds = Finds::new(alloc);
    let mut failed = DriveSet::new();
    for line in site.lines.as_slice() {
        look_where_up(
            shelf,
            alloc,
            geometry,
            site,
            *line,
            up,
            &mut finds,
            &mut failed,
        )?;
    }
    let Finds {
        replicas,
        newest,
        others,
    } = finds;
    Ok(Survey {
        replicas,
        newest,
        others,
        failed,
    })
}

// Looks at the slice where its drive is up and no call on it had failed, and notes the drive where one does now.
fn look_where_up<S: Shelf>(
    shelf: &mut S,
    alloc: Global,
    geometry: &Geometry,
    site: &Site,
    line: SliceLine,
    up: &DriveSet,
    finds: &mut Finds,
    failed: &mut DriveSet,
) -> Result<(), AllocError>
    requires sound { IsSound geometry.now }
    requires on_shelf { IsOnShelf (S.sizes shelf.old) site.now }
    requires one_of { Contains site.now.lines line }
    ensures listed { ListsLine site.now up.now line finds.old finds.new }
    ensures reads { OnlyReads S.Shelf (λ t. IfOk result (λ _. LooksAtLine geometry.now site.now up.now line (last t) failed.old finds.old failed.new finds.new)) shelf.old shelf.new }
    ensures looked { OnOk result (IsLineLook S.Shelf geometry.now site.now up.now line shelf.old shelf.new failed.old failed.new) }
    ensures counted { IsCounted S.Shelf shelf.old shelf.new 765 (λ t n. IfOk result (λ _. IsLineBy geometry.now site.now up.now failed.new (last t) line n)) }
    ensures kept { KeptToo S.Shelf shelf.old shelf.new site.now.drives }
{
    if !is_answering(up, failed, line.at.drive) {
        return Ok(());
    }
    match look_at_slice(shelf, alloc, geometry, site, line, finds) {
        Ok(()) => Ok(()),
        Err(ReadFault::Failed) => {
            failed.insert(line.at.drive);
            Ok(())
        }
        Err(ReadFault::Memory) => Err(AllocError),
    }
}

fn is_answering(up: &DriveSet, failed: &DriveSet, drive: DriveNo) -> bool
    ensures { result ≡ answers_in up.now failed.now drive }
{
    up.contains(drive) && !failed.contains(drive)
}
