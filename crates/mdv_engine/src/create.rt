ghost use Rattle.std.specs.Prelude.{◌≡◌, ◌<◌, ◌≤◌, ◌+◌, ◌*◌, ◌^◌, ◌&&◌, ◌||◌, not, Bool, nat_lt, is_some, length, IfOk, None};
ghost use Rattle.std.specs.List.{list_any};
ghost use Rattle.mdv_name.specs.SliceIndex.{same_slice as spec_same_slice, slice_at as spec_slice_at};
ghost use Rattle.mdv_words.specs.declared.command.Command.TheVariants.{AddPlaces};
ghost use Rattle.mdv_words.specs.Line.{IsCount, IsInForm, IsLength};
ghost use Rattle.mdv_words.specs.Listed.{AreInForm};
ghost use Rattle.mdv_shelf.specs.Shelves.{DriveFailures};
ghost use Rattle.mdv_config.specs.Slices.{IsSound};
ghost use Rattle.mdv_engine_law.specs.Commands.{IsAllowed};
ghost use Rattle.mdv_engine_law.specs.Hosts.{IsReady, lines_asked as spec_lines_asked};
ghost use Rattle.mdv_engine_law.specs.Refusals.{is_doubled as spec_is_doubled, is_missing as spec_is_missing, is_plain as spec_is_plain, is_short as spec_is_short, is_taken as spec_is_taken, places_open as spec_places_open, refusal_of, told_of_others};
ghost use Rattle.mdv_engine.specs.Counts.{IsCommandCounted};
ghost use Rattle.mdv_engine.specs.Ends.{AddsPlaces, CreationEnds, CreationMoments, HasAnswered, KeptAsAsked};
ghost use Rattle.mdv_engine.specs.Engine.{IsWell, answer_of, case_at};

use crate::engine::Engine;
use crate::lists::{list_more, list_of};
use crate::replicas::told_of;
use mdv_base::{Identity, Place, Refusal, SliceName, StateWord};
use mdv_engine_law::{Answer, Ended, Outcome};
use mdv_name::SliceLine;
use mdv_plan::{meets_db, same_slice, slice_at};
use mdv_shelf::Shelf;
use mdv_store::{CreateFault, create};
use std::alloc::{AllocError, Global};

// A database lists at most so many places.
const MOST_PLACES: usize = 50;

// On each slice so many blocks lie in front of its first replica.
const FIRST_BLOCK: u64 = 16;

impl Engine {
    // `metadb -a SLICE ..`, or with `-f`, for so many replicas of so many blocks on each slice: of a first database, or more of the open one.
    #[tactic(auto, using(mdv_shelf::proofs::Among::among_none))]
    pub(crate) fn make<S: Shelf>(
        &mut self,
        shelf: &mut S,
        alloc: Global,
        slices: &[SliceName],
        force: bool,
        count: u8,
        blocks: u32,
    ) -> Answer
        requires ready { IsReady self.old.host (S.sizes shelf.old) }
        requires form { IsInForm (AddPlaces slices.now force count blocks) }
        requires well { IsWell self.old.host self.old.state }
        requires begun { self.old.state.begun + 1 < 2 ^ 32 }
        ensures moments { CreationMoments S.Shelf shelf.old shelf.new self.old slices.now count blocks }
        ensures end { CreationEnds S.Shelf shelf.old shelf.new self.old slices.now force count blocks result self.new }
        ensures answer { HasAnswered (DriveFailures S.Shelf shelf.old shelf.new) (AddPlaces slices.now force count blocks) self.old result self.new }
        ensures counted { IsCommandCounted S.Shelf shelf.old shelf.new self.old.host (AddPlaces slices.now force count blocks) result self.old.state.opened self.new.state.opened }
        ensures kept { KeptAsAsked S.Shelf shelf.old shelf.new self.old.host self.old.state (AddPlaces slices.now force count blocks) }
    {
        match self.creation_refusal(slices, force, count, blocks) {
            Some(refusal) => Answer::Said(Outcome::Refused(refusal)),
            None => self.make_or_add(shelf, alloc, slices, count, blocks),
        }
    }

    // The first cause that a creation is refused for before anything is done.
    pub(crate) fn creation_refusal(
        &self,
        slices: &[SliceName],
        force: bool,
        count: u8,
        blocks: u32,
    ) -> Option<Refusal>
        requires sound { IsSound self.now.host.drives }
        requires well { IsWell self.now.host self.now.state }
        requires count { IsCount count }
        requires blocks { IsLength blocks }
        ensures { result ≡ refusal_of (case_at self.now) (AddPlaces slices.now force count blocks) }
    {
        if self.lack_one(slices) {
            return Some(Refusal::NoSuchSlice);
        }
        if self.have_plain(slices) {
            return Some(Refusal::WrongKind);
        }
        if self.is_down() {
            return Some(Refusal::WrongState(StateWord::Down));
        }
        if self.are_too_many(slices.len(), count) {
            return Some(Refusal::TooMany);
        }
        if self.needs_force(force) {
            return Some(Refusal::NeedForce);
        }
        if self.are_taken(slices) {
            return Some(Refusal::SliceInUse);
        }
        if self.are_short(slices, count, blocks) {
            return Some(Refusal::TooSmall);
        }
        self.refusal_beside(slices, count, blocks)
    }

    // What speaks against so many places beside those of a database that is open, where nothing else does.
    fn refusal_beside(&self, slices: &[SliceName], count: u8, blocks: u32) -> Option<Refusal>
        requires well { IsWell self.now.host self.now.state }
        requires few { length (spec_places_open self.now.state.opened) + length slices.now * count ≤ 50 }
        requires count { IsCount count }
        requires blocks { IsLength blocks }
        ensures { result ≡ told_of_others self.now.state.opened slices.now count blocks }
    {
        let store = self.state.database.as_ref()?;
        let list = list_more(list_of(store), slices, count, blocks);
        told_of(store, list)
    }

    pub(crate) fn lack_one(&self, slices: &[SliceName]) -> bool
        requires sound { IsSound self.now.host.drives }
        ensures { result ≡ list_any (spec_is_missing self.now.host) slices.now }
    {
        slices.iter().any(|slice| self.is_missing(*slice))
    }

    pub(crate) fn have_plain(&self, slices: &[SliceName]) -> bool
        requires sound { IsSound self.now.host.drives }
        ensures { result ≡ list_any (λ slice. spec_is_plain (spec_slice_at self.now.host.drives.slices slice)) slices.now }
    {
        slices.iter().any(|slice| self.is_plain(*slice))
    }

    // Whether a first database would be made though memory isn't clean.
    fn is_down(&self) -> bool
        ensures { result ≡ (not (is_some self.now.state.opened) && not self.now.state.clean) }
    {
        self.state.database.is_none() && !self.state.clean
    }

    fn needs_force(&self, force: bool) -> bool
        ensures { result ≡ (not (is_some self.now.state.opened) && not force) }
    {
        self.state.database.is_none() && !force
    }

    fn are_taken(&self, slices: &[SliceName]) -> bool
        requires sound { IsSound self.now.host.drives }
        ensures { result ≡ (list_any (spec_is_taken (case_at self.now)) slices.now || spec_is_doubled slices.now) }
    {
        self.have_taken(slices) || is_doubled(slices)
    }

    // Whether another slice that is set aside for replicas has a block of one of these, or a place lies on one.
    fn have_taken(&self, slices: &[SliceName]) -> bool
        requires sound { IsSound self.now.host.drives }
        ensures { result ≡ list_any (spec_is_taken (case_at self.now)) slices.now }
    {
        let places = self.places();
        slices.iter().any(|slice| meets_db(&self.host.drives, *slice) || are_on(places, *slice))
    }

    fn are_short(&self, slices: &[SliceName], count: u8, blocks: u32) -> bool
        requires sound { IsSound self.now.host.drives }
        ensures { result ≡ list_any (spec_is_short self.now.host count blocks) slices.now }
    {
        slices
            .iter()
            .any(|slice| self.is_short(*slice, count, blocks))
    }

    fn is_missing(&self, slice: SliceName) -> bool
        requires sound { IsSound self.now.host.drives }
        ensures { result ≡ spec_is_missing self.now.host slice }
    {
        slice_at(&self.host.drives, slice).is_none()
    }

    fn is_plain(&self, slice: SliceName) -> bool
        requires sound { IsSound self.now.host.drives }
        ensures { result ≡ spec_is_plain (spec_slice_at self.now.host.drives.slices slice) }
    {
        match slice_at(&self.host.drives, slice) {
            Some(at) => !at.db,
            None => false,
        }
    }

    fn are_too_many(&self, slices: usize, count: u8) -> bool
        requires { IsCount count }
        ensures { result ≡ nat_lt 50 (length (spec_places_open self.now.state.opened) + slices * count) }
    {
        slices > MOST_PLACES || self.places().len() + slices * usize::from(count) > MOST_PLACES
    }

    // The places that the open database lists.
    fn places(&self) -> &[Place]
        ensures value { result.now ≡ spec_places_open self.now.state.opened }
        ensures few { length result.now ≤ 50 }
    {
        match &self.state.database {
            Some(store) => list_of(store),
            None => &[],
        }
    }

    fn is_short(&self, slice: SliceName, count: u8, blocks: u32) -> bool
        requires sound { IsSound self.now.host.drives }
        ensures { result ≡ spec_is_short self.now.host count blocks slice }
    {
        let room = match slice_at(&self.host.drives, slice) {
            Some(at) => at.blocks,
            None => 0,
        };
        room < FIRST_BLOCK + u64::from(count) * u64::from(blocks)
    }

    // A database is made, or where one is open its places become more.
    pub(crate) fn make_or_add<S: Shelf>(
        &mut self,
        shelf: &mut S,
        alloc: Global,
        slices: &[SliceName],
        count: u8,
        blocks: u32,
    ) -> Answer
        requires ready { IsReady self.old.host (S.sizes shelf.old) }
        requires form { (1 ≤ length slices.now) × IsCount count × IsLength blocks }
        requires well { IsWell self.old.host self.old.state }
        requires begun { self.old.state.begun + 1 < 2 ^ 32 }
        requires allowed { (force : Bool) × IsAllowed (case_at self.old) (AddPlaces slices.now force count blocks) }
        ensures { AddsPlaces S.Shelf shelf.old shelf.new self.old slices.now count blocks result self.new }
    {
        if self.state.database.is_some() {
            self.add_places(shelf, alloc, slices, count, blocks)
        } else {
            self.make_database(shelf, alloc, slices, count, blocks)
        }
    }

    // Makes the database. A failed format leaves none; where too few places took its table, some may have it though
    // nobody was told of it, so the run ends.
    pub(crate) fn make_database<S: Shelf>(
        &mut self,
        shelf: &mut S,
        alloc: Global,
        slices: &[SliceName],
        count: u8,
        blocks: u32,
    ) -> Answer
        requires ready { IsReady self.old.host (S.sizes shelf.old) }
        requires form { (1 ≤ length slices.now) × IsCount count × IsLength blocks }
        requires begun { self.old.state.begun + 1 < 2 ^ 32 }
        requires entries { AreInForm self.old.state.entries }
        requires none { self.old.state.opened ≡ None }
        requires allowed { (force : Bool) × IsAllowed (case_at self.old) (AddPlaces slices.now force count blocks) }
        ensures { AddsPlaces S.Shelf shelf.old shelf.new self.old slices.now count blocks result self.new }
    {
        let identity = Identity {
            fresh: self.host.fresh,
            number: self.state.begun,
        };
        self.state.begun += 1;
        let Ok(lines) = self.lines_asked(alloc, slices) else {
            return Answer::Said(Outcome::Refused(Refusal::OutOfMemory));
        };
        let key = &self.host.site.key;
        match create(shelf, alloc, key, identity, lines.as_slice(), count, blocks) {
            Ok(store) => {
                self.state.database = Some(store);
                Answer::Said(Outcome::Ok)
            }
            Err(fault) => unmade(fault),
        }
    }

    pub(crate) fn lines_asked(
        &self,
        alloc: Global,
        slices: &[SliceName],
    ) -> Result<Vec<SliceLine>, AllocError>
        requires sound { IsSound self.now.host.drives }
        ensures { IfOk result (λ lines. lines.items ≡ spec_lines_asked self.now.host slices.now) }
    {
        let mut lines = Vec::new(alloc);
        for slice in slices {
            if let Some(at) = slice_at(&self.host.drives, *slice) {
                lines.push(SliceLine { name: *slice, at })?;
            }
        }
        Ok(lines)
    }
}

fn unmade(fault: CreateFault) -> Answer
    ensures { result ≡ answer_of fault }
{
    match fault {
        CreateFault::Failed => Answer::Said(Outcome::Refused(Refusal::IoFault)),
        CreateFault::Lost { active, listed } => Answer::Over(Ended::Lost { active, listed }),
        CreateFault::Memory => Answer::Said(Outcome::Refused(Refusal::OutOfMemory)),
    }
}

fn is_doubled(slices: &[SliceName]) -> bool
    ensures { result ≡ spec_is_doubled slices.now }
{
    let mut rest = slices;
    while let [first, behind @ ..] = rest {
        if is_among(*first, behind) {
            return true;
        }
        rest = behind;
    }
    false
}

pub(crate) fn are_on(places: &[Place], slice: SliceName) -> bool
    ensures { result ≡ list_any (λ p. spec_same_slice p.slice slice) places.now }
{
    places.iter().any(|place| same_slice(place.slice, slice))
}

fn is_among(slice: SliceName, slices: &[SliceName]) -> bool
    ensures { result ≡ list_any (spec_same_slice slice) slices.now }
{
    slices.iter().any(|other| same_slice(slice, *other))
}
