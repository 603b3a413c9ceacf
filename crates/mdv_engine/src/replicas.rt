ghost use Rattle.std.specs.Prelude.{◌≡◌, ◌<◌, ◌≤◌, ◌+◌, ◌^◌, length, take, Some, None, IfOk, IfErr, IfSome, is_some};
ghost use Rattle.std.specs.List.{list_any};
ghost use Rattle.mdv_base.specs.Order.{first_refusal};
ghost use Rattle.mdv_store.specs.Opened.{shortage};
ghost use Rattle.mdv_store.specs.Shares.{short_in};
ghost use Rattle.mdv_store.specs.declared.seats.Need.TheVariants.{Half};
ghost use Rattle.mdv_shelf.specs.Shelves.{AtEachTale, AtEnd, DriveFailures};
ghost use Rattle.mdv_config.specs.Slices.{IsSound};
ghost use Rattle.mdv_words.specs.declared.command.Command.TheVariants.{AddListed, DropPlaces};
ghost use Rattle.mdv_words.specs.Listed.{meant};
ghost use Rattle.mdv_engine_law.specs.Hosts.{IsReady, key_of};
ghost use Rattle.mdv_engine_law.specs.Line.{ToMakeListed};
ghost use Rattle.mdv_engine_law.specs.Places.{are_all as spec_are_all};
ghost use Rattle.mdv_engine_law.specs.Refusals.{held_of_drop, is_behind as spec_is_behind, is_down as spec_is_down, is_without as spec_is_without, refusal_of, state_of_less as spec_state_of_less, told_of_lists};
ghost use Rattle.mdv_engine_law.specs.Standing.{CarryMoment};
ghost use Rattle.mdv_engine.specs.Counts.{IsCommandCounted};
ghost use Rattle.mdv_engine.specs.Ends.{HasAnswered, KeptAsAsked, NamedEnd};
ghost use Rattle.mdv_engine.specs.Engine.{IsWell, case_at};
ghost use Rattle.mdv_engine.specs.Listed.{IsToMake};

use crate::create::are_on;
use crate::engine::Engine;
use crate::lists::{list_left, list_of};
use mdv_base::{DriveName, Place, Places, Refusal, SliceName, StateWord};
use mdv_engine_law::{Answer, Outcome};
use mdv_places::{copy_of, list_less};
use mdv_plan::{Lists, slice_at};
use mdv_shelf::Shelf;
use mdv_store::{CommitFault, Need, Store, short};
use mdv_words::replicas_listed;
use std::alloc::Global;

// What stands behind the slices of a list.
const NO_SLICE: SliceName = SliceName {
    drive: DriveName {
        controller: 0,
        target: 0,
        disk: 0,
    },
    slice: 0,
};

// What an entry of replicas asks for that nothing speaks against: of these slices so many, which are no more than the fifty places of a database.
#[derive(Clone, Copy)]
struct Creation {
    slices: [SliceName; 50],
    len: usize,
    count: u8,
    blocks: u32,
}

impl Engine {
    // `metadb -a mddbNN`, or with `-f`: as the first entry of that number says.
    pub(crate) fn make_listed<S: Shelf>(
        &mut self,
        shelf: &mut S,
        alloc: Global,
        number: u8,
        force: bool,
    ) -> Answer
        requires ready { IsReady self.old.host (S.sizes shelf.old) }
        requires well { IsWell self.old.host self.old.state }
        requires begun { self.old.state.begun + 1 < 2 ^ 32 }
        ensures moments { AtEachTale S.Shelf (CarryMoment self.old.host (ToMakeListed (key_of self.old.host) number) self.old.state) shelf.old shelf.new }
        ensures end { AtEnd S.Shelf (NamedEnd (DriveFailures S.Shelf shelf.old shelf.new) self.old (AddListed number force) result self.new) shelf.old shelf.new }
        ensures answer { HasAnswered (DriveFailures S.Shelf shelf.old shelf.new) (meant self.old.state.entries (AddListed number force)) self.old result self.new }
        ensures counted { IsCommandCounted S.Shelf shelf.old shelf.new self.old.host (meant self.old.state.entries (AddListed number force)) result self.old.state.opened self.new.state.opened }
        ensures kept { KeptAsAsked S.Shelf shelf.old shelf.new self.old.host self.old.state (meant self.old.state.entries (AddListed number force)) }
    {
        match self.creation_listed(number, force) {
            Ok(creation) => self.make_or_add(
                shelf,
                alloc,
                &creation.slices[..creation.len],
                creation.count,
                creation.blocks,
            ),
            Err(refusal) => Answer::Said(Outcome::Refused(refusal)),
        }
    }

    // What the entry asks for, or the first cause that it is refused for before anything is done.
    fn creation_listed(&self, number: u8, force: bool) -> Result<Creation, Refusal>
        requires sound { IsSound self.now.host.drives }
        requires well { IsWell self.now.host self.now.state }
        ensures ok { IfOk result (λ c. (c.len ≤ 50) × IsToMake self.now number force (take c.len c.slices) c.count c.blocks) }
        ensures err { IfErr result (λ r. refusal_of (case_at self.now) (meant self.now.state.entries (AddListed number force)) ≡ Some r) }
    {
        let Some(said) = replicas_listed(self.state.entries.as_slice(), number) else {
            return Err(Refusal::BadLine);
        };
        match self.creation_refusal(said.slices, force, said.count, said.blocks) {
            Some(refusal) => Err(refusal),
            None => Ok(Creation {
                slices: few_slices(said.slices),
                len: said.slices.len(),
                count: said.count,
                blocks: said.blocks,
            }),
        }
    }

    // The first cause that places to be dropped are refused for before anything is done.
    pub(crate) fn drop_refusal(&self, slices: &[SliceName], force: bool) -> Option<Refusal>
        requires sound { IsSound self.now.host.drives }
        requires well { IsWell self.now.host self.now.state }
        ensures { refusal_of (case_at self.now) (DropPlaces slices.now force) ≡ result }
    {
        match &self.state.database {
            Some(store) => self.less_refusal(store, slices, force),
            None => Some(Refusal::NoDatabase),
        }
    }

    fn less_refusal(&self, store: &Store, slices: &[SliceName], force: bool) -> Option<Refusal>
        requires sound { IsSound self.now.host.drives }
        requires half { shortage store.now ≡ None }
        ensures { first_refusal (held_of_drop (case_at self.now) (Some store.now) slices.now force) ≡ result }
    {
        if self.lack_one(slices) {
            return Some(Refusal::NoSuchSlice);
        }
        if self.have_plain(slices) {
            return Some(Refusal::WrongKind);
        }
        if let Some(word) = self.state_of_less(store, slices) {
            return Some(Refusal::WrongState(word));
        }
        if are_all(store, slices) && !force {
            return Some(Refusal::NeedForce);
        }
        told_of(store, list_left(list_of(store), slices))
    }

    // What speaks against it by the state of places.
    fn state_of_less(&self, store: &Store, slices: &[SliceName]) -> Option<StateWord>
        requires sound { IsSound self.now.host.drives }
        ensures { result ≡ spec_state_of_less (case_at self.now) store.now slices.now }
    {
        if is_without_one(store, slices) {
            return Some(StateWord::Absent);
        }
        if are_all(store, slices) && self.have_down(list_of(store)) {
            return Some(StateWord::Down);
        }
        if is_inactive(store, list_left(list_of(store), slices)) {
            return Some(StateWord::Inactive);
        }
        if are_all(store, slices) && is_behind(list_of(store)) {
            return Some(StateWord::Inactive);
        }
        None
    }

    // Whether no place of the open database is left without those on these slices.
    pub(crate) fn are_to_go(&self, slices: &[SliceName]) -> bool
        ensures { IfSome self.now.state.opened (λ o. result ≡ spec_are_all o slices.now) }
    {
        match &self.state.database {
            Some(store) => are_all(store, slices),
            None => false,
        }
    }

    fn have_down(&self, places: &[Place]) -> bool
        requires sound { IsSound self.now.host.drives }
        ensures { result ≡ list_any (spec_is_down self.now.host self.now.state.up) places.now }
    {
        places.iter().any(|place| self.is_down_at(place))
    }

    fn is_down_at(&self, place: &Place) -> bool
        requires sound { IsSound self.now.host.drives }
        ensures { result ≡ spec_is_down self.now.host self.now.state.up place.now }
    {
        match slice_at(&self.host.drives, place.slice) {
            Some(at) => !self.state.up.contains(at.drive),
            None => true,
        }
    }
}

// The same slices once more, at the front.
fn few_slices(slices: &[SliceName]) -> [SliceName; 50]
    requires { length slices.now ≤ 50 }
    ensures { take (length slices.now) result ≡ slices.now }
{
    let mut few = [NO_SLICE; 50];
    few[..slices.len()].copy_from_slice(slices);
    few
}

// E17, where the record of this list beside that of the open database is too long.
pub(crate) fn told_of(store: &Store, list: Places) -> Option<Refusal>
    requires { shortage store.now ≡ None }
    ensures { result ≡ told_of_lists store.now list }
{
    let lists = Lists::Two(copy_of(list_of(store)), list);
    match store.check_lists(&lists) {
        Err(CommitFault::TooLong(fault)) => Some(Refusal::ReplicaFull {
            bytes: fault.bytes,
            room: fault.room,
        }),
        _ => None,
    }
}

fn is_without_one(store: &Store, slices: &[SliceName]) -> bool
    ensures { result ≡ list_any (spec_is_without store.now) slices.now }
{
    let places = list_of(store);
    slices.iter().any(|slice| !are_on(places, *slice))
}

// Whether no place is left without those on these slices.
fn are_all(store: &Store, slices: &[SliceName]) -> bool
    ensures { result ≡ spec_are_all store.now slices.now }
{
    list_less(list_of(store), slices).as_slice().is_empty()
}

// Whether the first of these places isn't the first one of its slice: the wipes of those before it would hide it.
fn is_behind(places: &[Place]) -> bool
    ensures { result ≡ spec_is_behind places.now }
{
    match places.first() {
        Some(place) => place.start != 16,
        None => false,
    }
}

fn is_inactive(store: &Store, places: Places) -> bool
    ensures { result ≡ is_some (short_in Half store.now.seats places) }
{
    short(store.seats(), &Lists::One(places), Need::Half).is_some()
}
