// How the places of the open database change: more come, or those on some slices go; and where all go, the database.
ghost use Rattle.std.specs.Prelude.{◌≡◌, ◌≤◌, Bool, Some, length, true, false};
ghost use Rattle.mdv_places.specs.Asked.{asked_of};
ghost use Rattle.mdv_places.specs.Changing.{MayMove};
ghost use Rattle.mdv_places.specs.Ending.{IsSole};
ghost use Rattle.mdv_store.specs.Opened.{Opened};
ghost use Rattle.mdv_store.specs.Seats.{AreLaid};
ghost use Rattle.mdv_words.specs.Line.{IsCount, IsLength};
ghost use Rattle.mdv_words.specs.declared.command.Command.TheVariants.{AddPlaces, DropPlaces};
ghost use Rattle.mdv_engine_law.specs.Commands.{IsAllowed};
ghost use Rattle.mdv_engine_law.specs.Hosts.{IsReady};
ghost use Rattle.mdv_engine.specs.Ends.{AddsPlaces, FreelyLoses, LosesPlaces};
ghost use Rattle.mdv_engine.specs.Engine.{IsWell, case_at};
ghost use Rattle.mdv_engine.specs.Moving.{AreToGo, HasChanged, HasClosed, IsAnswerOf, IsFaultOf, OpenHas};

use crate::engine::Engine;
use mdv_base::{Failed, Refusal, SliceName};
use mdv_engine_law::{Answer, Ended, Outcome};
use mdv_places::{Move, PlacesFault, change_places, end};
use mdv_shelf::Shelf;
use std::alloc::Global;

impl Engine {
    // So many places more on each of these slices.
    pub(crate) fn add_places<S: Shelf>(
        &mut self,
        shelf: &mut S,
        alloc: Global,
        slices: &[SliceName],
        count: u8,
        blocks: u32,
    ) -> Answer
        requires ready { IsReady self.old.host (S.sizes shelf.old) }
        requires form { (1 ≤ length slices.now) × IsCount count × IsLength blocks }
        requires well { IsWell self.old.host self.old.state }
        requires opened { (o : Opened) × (self.old.state.opened ≡ Some o) }
        requires allowed { (force : Bool) × IsAllowed (case_at self.old) (AddPlaces slices.now force count blocks) }
        ensures { AddsPlaces S.Shelf shelf.old shelf.new self.old slices.now count blocks result self.new }
    {
        let Ok(lines) = self.lines_asked(alloc, slices) else {
            return Answer::Said(Outcome::Refused(Refusal::OutOfMemory));
        };
        let asked = Move::Add {
            lines: lines.as_slice(),
            count,
            blocks,
        };
        moved(self.change_places(shelf, alloc, &asked))
    }

    // `metadb -d SLICE ..`, or with `-f`.
    pub(crate) fn drop_places<S: Shelf>(
        &mut self,
        shelf: &mut S,
        alloc: Global,
        slices: &[SliceName],
        force: bool,
    ) -> Answer
        requires ready { IsReady self.old.host (S.sizes shelf.old) }
        requires well { IsWell self.old.host self.old.state }
        ensures { LosesPlaces S.Shelf shelf.old shelf.new self.old slices.now force result self.new }
    {
        if let Some(refusal) = self.drop_refusal(slices, force) {
            return Answer::Said(Outcome::Refused(refusal));
        }
        if self.are_to_go(slices) {
            self.drop_all(shelf, alloc, slices)
        } else {
            moved(self.change_places(shelf, alloc, &Move::Drop { slices }))
        }
    }

    // All go: the first place alone is left, and where all others are wiped the database ends.
    fn drop_all<S: Shelf>(&mut self, shelf: &mut S, alloc: Global, slices: &[SliceName]) -> Answer
        requires ready { IsReady self.old.host (S.sizes shelf.old) }
        requires well { IsWell self.old.host self.old.state }
        requires allowed { (force : Bool) × IsAllowed (case_at self.old) (DropPlaces slices.now force) }
        requires all { AreToGo self.old.state slices.now true }
        ensures { FreelyLoses S.Shelf shelf.old shelf.new self.old slices.now result self.new }
    {
        match self.change_places(shelf, alloc, &Move::First) {
            Ok(true) => self.end_database(shelf),
            Ok(false) => Answer::Said(Outcome::Refused(Refusal::IoFault)),
            Err(fault) => unmoved(fault),
        }
    }

    // The places of the open database change as asked.
    fn change_places<S: Shelf>(
        &mut self,
        shelf: &mut S,
        alloc: Global,
        asked: &Move,
    ) -> Result<bool, PlacesFault>
        requires { OpenHas self.old.state (λ o. MayMove (S.sizes shelf.old) self.old.host.drives o (asked_of asked.now) × AreLaid (S.sizes shelf.old) o.seats) }
        ensures { (o : Opened) → self.old.state.opened ≡ Some o → HasChanged S.Shelf shelf.old shelf.new self.old o (asked_of asked.now) result self.new }
    {
        let Some(store) = &mut self.state.database else {
            return Err(PlacesFault::Memory);
        };
        change_places(store, shelf, alloc, &self.host.drives, asked)
    }

    // The master of the only place is blanked. No database is open then; where a call failed none may be made till a boot
    // finds what is there.
    fn end_database<S: Shelf>(&mut self, shelf: &mut S) -> Answer
        requires { OpenHas self.old.state (λ o. IsSole o × AreLaid (S.sizes shelf.old) o.seats) }
        ensures { (o : Opened) → self.old.state.opened ≡ Some o → HasClosed S.Shelf shelf.old shelf.new self.old o result self.new }
    {
        let Some(store) = self.state.database.take() else {
            return Answer::Said(Outcome::Refused(Refusal::NoDatabase));
        };
        match end(store, shelf) {
            Ok(()) => Answer::Said(Outcome::Ok),
            Err(Failed) => {
                self.state.clean = false;
                Answer::Said(Outcome::Refused(Refusal::IoFault))
            }
        }
    }
}

// What is answered to a change of places. A wipe that failed isn't told.
fn moved(came: Result<bool, PlacesFault>) -> Answer
    ensures { IsAnswerOf came result }
{
    match came {
        Ok(_) => Answer::Said(Outcome::Ok),
        Err(fault) => unmoved(fault),
    }
}

fn unmoved(fault: PlacesFault) -> Answer
    ensures { IsFaultOf fault result }
{
    match fault {
        PlacesFault::Failed => Answer::Said(Outcome::Refused(Refusal::IoFault)),
        PlacesFault::TooLong(fault) => Answer::Said(Outcome::Refused(Refusal::ReplicaFull {
            bytes: fault.bytes,
            room: fault.room,
        })),
        PlacesFault::Lost { active, listed } => Answer::Over(Ended::Lost { active, listed }),
        PlacesFault::Spent => Answer::Over(Ended::Spent),
        PlacesFault::Memory => Answer::Said(Outcome::Refused(Refusal::OutOfMemory)),
    }
}
