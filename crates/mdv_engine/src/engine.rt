ghost use Rattle.std.specs.Prelude.{◌<◌, ◌+◌, ◌^◌};
ghost use Rattle.mdv_shelf.specs.Calls.{OnReplies};
ghost use Rattle.mdv_shelf.specs.Drives.{KeptAmong};
ghost use Rattle.mdv_shelf.specs.Shelves.{AtEachTale, AtEnd, DriveFailures, GivingFailed, KeptOn, KeptInTime};
ghost use Rattle.mdv_engine_law.specs.Answers.{accepted, refusing};
ghost use Rattle.mdv_engine_law.specs.Hosts.{IsReady};
ghost use Rattle.mdv_words.specs.Line.{IsInForm};
ghost use Rattle.mdv_words.specs.Listed.{meant};
ghost use Rattle.mdv_engine_law.specs.Line.{asked_by, unbooted, Nothing};
ghost use Rattle.mdv_engine_law.specs.Replies.{IsPlain};
ghost use Rattle.mdv_engine_law.specs.Standing.{BootMoment, CarryMoment, OnlyReplied};
ghost use Rattle.mdv_engine.specs.Counts.{IsBootedCounted, IsCommandCounted};
ghost use Rattle.mdv_engine.specs.Ends.{BootEndsAs, CarriesOut, HasAnswered, HasBooted, HasBootedFrom, HasOnlyReplied, HasRebooted, HasReplied, IsReplyCounted, IsTurnCounted, KeptAsAsked, LineMoments, NamedEnd, OnlyAnswers, RefusalMoments, TurnEnds, kept_by, left_by};
ghost use Rattle.mdv_engine.specs.Engine.{IsFitting, IsWell, boot_answer};
ghost use Rattle.mdv_config.specs.Slices.{IsSound};

use crate::state::State;
use mdv_base::Refusal;
use mdv_config::is_of_geometry;
use mdv_engine_law::{Answer, Ended, Host, Outcome, Reply, tell};
use mdv_shelf::{Bench, Shelf};
use mdv_store::{BootEnd, Booted, Store, boot};
use mdv_words::Command;
use std::alloc::Global;

/// The engine of one host, once it has booted.
#[derive(Drop)]
pub struct Engine {
    pub host: Host,
    pub state: State,
}

impl Engine {
    /// Boots the host: it brings up each drive of its own, and adopts the database whose newest table is found at more
    /// than half of its places, under a new number. Where no readable replica shows a table the engine has no database.
    /// It isn't answered where not more than half of the places are found (`NoQuorum`), where two databases show tables
    /// (`TwoDatabases`), where fewer than half of the places took the table anew (`Lost`), where a number would reach
    /// 2^63 (`Spent`), and where memory is wanting (`Memory`).
    pub fn boot<S: Shelf>(shelf: &mut S, alloc: Global, host: Host) -> Result<Engine, Ended>
        requires { IsReady host (S.sizes shelf.old) }
        ensures moments { AtEachTale S.Shelf (BootMoment host) shelf.old shelf.new }
        ensures end { BootEndsAs S.Shelf shelf.old shelf.new host (unbooted 0) (boot_answer result) (left_by result) }
        ensures answer { HasBooted (DriveFailures S.Shelf shelf.old shelf.new) host result }
        ensures counted { IsBootedCounted S.Shelf shelf.old shelf.new host (boot_answer result) (left_by result) }
        ensures kept { KeptAmong S.Shelf shelf.old shelf.new host.site.drives }
    {
        match boot_from(shelf, alloc, &host, 0) {
            Ok(state) => Ok(Engine { host, state }),
            Err(end) => Err(end),
        }
    }

    /// Boots the host anew: all is forgotten but how many creations were begun. Where it isn't answered no database is open.
    pub fn reboot<S: Shelf>(&mut self, shelf: &mut S, alloc: Global) -> Result<(), Ended>
        requires { IsReady self.old.host (S.sizes shelf.old) }
        ensures moments { AtEachTale S.Shelf (BootMoment self.old.host) shelf.old shelf.new }
        ensures end { BootEndsAs S.Shelf shelf.old shelf.new self.old.host self.old.state (boot_answer result) self.new.state }
        ensures answer { HasRebooted (DriveFailures S.Shelf shelf.old shelf.new) self.old result self.new }
        ensures counted { IsBootedCounted S.Shelf shelf.old shelf.new self.old.host (boot_answer result) self.new.state }
        ensures kept { KeptAmong S.Shelf shelf.old shelf.new self.old.host.site.drives }
    {
        let begun = self.state.begun;
        self.state = State::unbooted(alloc, begun);
        match boot_from(shelf, alloc, &self.host, begun) {
            Ok(state) => {
                self.state = state;
                Ok(())
            }
            Err(end) => Err(end),
        }
    }

    /// Carries a command out, and tells its reply.
    pub fn exec<B: Bench>(&mut self, bench: &mut B, alloc: Global, command: &Command) -> Reply
        requires ready { IsReady self.old.host (B.sizes bench.old) }
        requires well { IsWell self.old.host self.old.state }
        requires begun { self.old.state.begun + 1 < 2 ^ 32 }
        requires form { IsInForm command.now }
        ensures moments { LineMoments B.Shelf self.old.host (asked_by self.old.host command.now) self.old.state (CarriesOut self.old.host command.now) bench.old bench.new }
        ensures end { TurnEnds B.Shelf bench.old bench.new self.old command.now result self.new }
        ensures answer { HasReplied (DriveFailures B.Shelf bench.old bench.new) (GivingFailed B.Shelf bench.old bench.new) self.old (meant self.old.state.entries command.now) result self.new }
        ensures counted { IsTurnCounted B.Shelf bench.old bench.new self.old.host (meant self.old.state.entries command.now) result self.old.state.opened self.new.state.opened }
        ensures kept { KeptInTime B.Shelf bench.old bench.new }
    {
        let answer = self.carry_out(bench, alloc, command);
        tell(bench, &answer)
    }

    /// Tells this refusal, whose text is one line.
    pub fn refuse<B: Bench>(&mut self, bench: &mut B, refusal: &Refusal) -> Reply
        requires { IsPlain refusal.now }
        ensures moments { RefusalMoments B.Shelf self.old.host self.old.state refusal.now bench.old bench.new }
        ensures end { AtEnd B.Shelf (OnlyReplied (GivingFailed B.Shelf bench.old bench.new) (refusing refusal.now) result) bench.old bench.new }
        ensures answer { HasOnlyReplied (DriveFailures B.Shelf bench.old bench.new) (GivingFailed B.Shelf bench.old bench.new) (Outcome.Refused refusal.now) self.old result self.new }
        ensures counted { IsReplyCounted B.Shelf bench.old bench.new result }
        ensures kept { KeptInTime B.Shelf bench.old bench.new }
    {
        tell(bench, &Answer::Said(Outcome::Refused(*refusal)))
    }

    /// Tells `ok`, as of a boot that was answered.
    pub fn accept<B: Bench>(&mut self, bench: &mut B) -> Reply
        ensures moments { LineMoments B.Shelf self.old.host Nothing self.old.state (OnlyAnswers accepted) bench.old bench.new }
        ensures end { AtEnd B.Shelf (OnlyReplied (GivingFailed B.Shelf bench.old bench.new) accepted result) bench.old bench.new }
        ensures answer { HasOnlyReplied (DriveFailures B.Shelf bench.old bench.new) (GivingFailed B.Shelf bench.old bench.new) Outcome.Ok self.old result self.new }
        ensures counted { IsReplyCounted B.Shelf bench.old bench.new result }
        ensures kept { KeptOn B.Shelf bench.old bench.new OnReplies }
    {
        tell(bench, &Answer::Said(Outcome::Ok))
    }

    fn carry_out<S: Shelf>(&mut self, shelf: &mut S, alloc: Global, command: &Command) -> Answer
        requires ready { IsReady self.old.host (S.sizes shelf.old) }
        requires well { IsWell self.old.host self.old.state }
        requires begun { self.old.state.begun + 1 < 2 ^ 32 }
        requires form { IsInForm command.now }
        ensures moments { AtEachTale S.Shelf (CarryMoment self.old.host (asked_by self.old.host command.now) self.old.state) shelf.old shelf.new }
        ensures end { AtEnd S.Shelf (NamedEnd (DriveFailures S.Shelf shelf.old shelf.new) self.old command.now result self.new) shelf.old shelf.new }
        ensures answer { HasAnswered (DriveFailures S.Shelf shelf.old shelf.new) (meant self.old.state.entries command.now) self.old result self.new }
        ensures counted { IsCommandCounted S.Shelf shelf.old shelf.new self.old.host (meant self.old.state.entries command.now) result self.old.state.opened self.new.state.opened }
        ensures kept { KeptAsAsked S.Shelf shelf.old shelf.new self.old.host self.old.state (meant self.old.state.entries command.now) }
    {
        match command {
            Command::AddPlaces {
                slices,
                force,
                count,
                blocks,
            } => self.make(shelf, alloc, slices.as_slice(), *force, *count, *blocks),
            Command::AddListed { number, force } => {
                self.make_listed(shelf, alloc, *number, *force)
            }
            Command::DropPlaces { slices, force } => {
                self.drop_places(shelf, alloc, slices.as_slice(), *force)
            }
            Command::Alter { alteration } => self.alter(shelf, alloc, alteration),
            Command::Read { volume, at, count } => self.read(shelf, alloc, *volume, *at, *count),
            Command::Write { volume, at, what } => self.write(shelf, alloc, *volume, *at, what),
            Command::Print { names } => Answer::Said(self.print(alloc, names.as_slice())),
        }
    }
}

// What a boot finds, and what is kept then.
fn boot_from<S: Shelf>(
    shelf: &mut S,
    alloc: Global,
    host: &Host,
    begun: u32,
) -> Result<State, Ended>
    requires { IsReady host.now (S.sizes shelf.old) }
    ensures moments { AtEachTale S.Shelf (BootMoment host.now) shelf.old shelf.new }
    ensures end { BootEndsAs S.Shelf shelf.old shelf.new host.now (unbooted begun) (boot_answer result) (kept_by begun result) }
    ensures answer { HasBootedFrom (DriveFailures S.Shelf shelf.old shelf.new) host.now begun result }
    ensures counted { IsBootedCounted S.Shelf shelf.old shelf.new host.now (boot_answer result) (kept_by begun result) }
    ensures kept { KeptAmong S.Shelf shelf.old shelf.new host.now.site.drives }
{
    let Booted { end, up, clean, .. } = boot(shelf, alloc, &host.drives, &host.site);
    match end {
        BootEnd::Adopted(store) => {
            let database = fitting(host, store);
            Ok(State::booted(alloc, database, up, clean, begun))
        }
        BootEnd::Empty => Ok(State::booted(alloc, None, up, clean, begun)),
        BootEnd::TwoDatabases { a, b } => Err(Ended::TwoDatabases { a, b }),
        BootEnd::NoQuorum { readable, needed } => Err(Ended::NoQuorum { readable, needed }),
        BootEnd::Lost { active, listed } => Err(Ended::Lost { active, listed }),
        BootEnd::Spent => Err(Ended::Spent),
        BootEnd::Memory => Err(Ended::Memory),
    }
}

// The database whose table is one of the host's table of drives, as each is that a boot reads.
fn fitting(host: &Host, store: Store) -> Option<Store>
    requires { IsSound host.now.drives }
    ensures { IsFitting host.now.drives store result }
{
    if is_of_geometry(store.table(), &host.drives) {
        Some(store)
    } else {
        None
    }
}
