ghost use Rattle.std.specs.Prelude.{◌≡◌, IfOk, IfErr, IfSome};
ghost use Rattle.mdv_config.specs.Slices.{IsSound};
ghost use Rattle.mdv_words.specs.Line.{IsInForm};
ghost use Rattle.mdv_words.specs.declared.command.Alteration.{Alteration as AnyAlteration};
ghost use Rattle.mdv_words.specs.declared.command.Command.TheVariants as command;
ghost use Rattle.mdv_engine.specs.Counts.{IsCommandCounted};
ghost use Rattle.mdv_shelf.specs.Drives.{KeptAmong};
ghost use Rattle.mdv_shelf.specs.Shelves.{AtEnd, DriveFailures};
ghost use Rattle.mdv_engine_law.specs.Altering.{change_of as spec_change_of};
ghost use Rattle.mdv_engine_law.specs.Hosts.{IsReady};
ghost use Rattle.mdv_engine.specs.Ends.{AlterAnswered, AlterEnds, AlterMoments, CommandEnd, HasAnswered, IsAlterCounted, IsNext};
ghost use Rattle.mdv_engine.specs.Engine.{HasChangeCause, IsCommittable, IsNextTable, IsWell, commit_answer, drives_open};

use crate::engine::Engine;
use mdv_base::Refusal;
use mdv_change::{ApplyFault, Change};
use mdv_engine_law::{Answer, Ended, Outcome};
use mdv_keeping::next_table;
use mdv_plan::Table;
use mdv_remake::{change_of, clearing_of, row_of};
use mdv_shelf::Shelf;
use mdv_store::CommitFault;
use mdv_words::Alteration;
use std::alloc::{AllocError, Global};

impl Engine {
    // A change of volumes.
    #[tactic(auto, using(mdv_shelf::proofs::Among::among_none))]
    pub(crate) fn alter<S: Shelf>(
        &mut self,
        shelf: &mut S,
        alloc: Global,
        alteration: &Alteration,
    ) -> Answer
        requires ready { IsReady self.old.host (S.sizes shelf.old) }
        requires well { IsWell self.old.host self.old.state }
        requires form { IsInForm (command.Alter alteration.now) }
        ensures moments { AlterMoments S.Shelf shelf.old shelf.new self.old alteration.now }
        ensures end { AtEnd S.Shelf (CommandEnd (DriveFailures S.Shelf shelf.old shelf.new) self.old (command.Alter alteration.now) result self.new) shelf.old shelf.new }
        ensures answer { HasAnswered (DriveFailures S.Shelf shelf.old shelf.new) (command.Alter alteration.now) self.old result self.new }
        ensures counted { IsCommandCounted S.Shelf shelf.old shelf.new self.old.host (command.Alter alteration.now) result self.old.state.opened self.new.state.opened }
        ensures kept { KeptAmong S.Shelf shelf.old shelf.new (drives_open self.old.state.opened) }
    {
        match self.altered(alloc, alteration) {
            Ok(next) => self.commit(shelf, next),
            Err(refusal) => Answer::Said(Outcome::Refused(refusal)),
        }
    }

    // The table that the alteration makes of the open one.
    fn altered(&self, alloc: Global, alteration: &Alteration) -> Result<Table, Refusal>
        requires sound { IsSound self.now.host.drives }
        requires well { IsWell self.now.host self.now.state }
        requires form { IsInForm (command.Alter alteration.now) }
        ensures ok { IfOk result (IsNextTable self.now.host self.now.state alteration.now) }
        ensures err { IfErr result (HasChangeCause self.now.host self.now.state alteration.now) }
    {
        let Some(store) = &self.state.database else {
            return Err(Refusal::NoDatabase);
        };
        let change = match asked(alloc, alteration) {
            Ok(Some(change)) => change,
            Ok(None) => return Err(Refusal::BadLine),
            Err(_) => return Err(Refusal::OutOfMemory),
        };
        let table = store.table();
        let drives = self.host.site.drives.as_slice();
        match next_table(alloc, &self.host.drives, drives, table, &change) {
            Ok(next) => Ok(next),
            Err(ApplyFault::Refused(refusal)) => Err(refusal),
            Err(ApplyFault::Memory) => Err(Refusal::OutOfMemory),
        }
    }

    // Commits the next table. Where too few places took it, it is open which table a crash leaves, so the run ends.
    #[tactic(auto, using(mdv_shelf::proofs::Among::among_none))]
    fn commit<S: Shelf>(&mut self, shelf: &mut S, next: Table) -> Answer
        requires ready { IsReady self.old.host (S.sizes shelf.old) }
        requires well { IsWell self.old.host self.old.state }
        requires fits { IfSome self.old.state.opened (λ o. IsCommittable self.old.host o next) }
        ensures moments { (alteration : AnyAlteration) → IsNext self.old alteration next → AlterMoments S.Shelf shelf.old shelf.new self.old alteration }
        ensures end { (alteration : AnyAlteration) → IsNext self.old alteration next → AlterEnds S.Shelf shelf.old shelf.new self.old alteration result self.new }
        ensures answer { (alteration : AnyAlteration) → IsNext self.old alteration next → AlterAnswered S.Shelf shelf.old shelf.new self.old alteration result self.new }
        ensures counted { (alteration : AnyAlteration) → IsNext self.old alteration next → IsAlterCounted S.Shelf shelf.old shelf.new self.old alteration result self.new }
        ensures kept { KeptAmong S.Shelf shelf.old shelf.new (drives_open self.old.state.opened) }
    {
        let Some(store) = &mut self.state.database else {
            return Answer::Said(Outcome::Refused(Refusal::NoDatabase));
        };
        match store.commit(shelf, next) {
            Ok(()) => Answer::Said(Outcome::Ok),
            Err(fault) => uncommitted(fault),
        }
    }
}

// The change of a table that it asks.
fn asked(alloc: Global, alteration: &Alteration) -> Result<Option<Change>, AllocError>
    requires { IsInForm (command.Alter alteration.now) }
    ensures { IfOk result (λ change. change ≡ spec_change_of alteration.now) }
{
    match alteration {
        Alteration::Make(entry) => change_of(alloc, entry),
        Alteration::Attach { volume, row } => Ok(Some(Change::AddRow {
            volume: *volume,
            row: row_of(alloc, row)?,
        })),
        Alteration::Clear { names, below } => Ok(Some(clearing_of(
            alloc,
            names.as_slice(),
            *below,
        )?)),
        Alteration::ClearAll => Ok(Some(Change::ClearAll)),
    }
}

fn uncommitted(fault: CommitFault) -> Answer
    ensures { result ≡ commit_answer fault }
{
    match fault {
        CommitFault::Lost { active, listed } => Answer::Over(Ended::Lost { active, listed }),
        CommitFault::TooLong(fault) => Answer::Said(Outcome::Refused(Refusal::ReplicaFull {
            bytes: fault.bytes,
            room: fault.room,
        })),
        CommitFault::Spent => Answer::Over(Ended::Spent),
    }
}
