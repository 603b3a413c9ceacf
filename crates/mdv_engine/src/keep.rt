ghost use Rattle.mdv_shelf.specs.Shelves.{DriveFailures, GivingFailed, KeptOn};
ghost use Rattle.mdv_shelf.specs.Calls.{OnReplies};
ghost use Rattle.mdv_engine_law.specs.Line.{Nothing};
ghost use Rattle.mdv_engine.specs.Ends.{IsReplyCounted, LineMoments};
ghost use Rattle.mdv_engine.specs.Tab.{HasKept, HasRepliedTab, IsRefusalOf, KeepsLines, TabEnds};

use crate::engine::Engine;
use mdv_base::Refusal;
use mdv_engine_law::{Answer, Outcome, Reply, tell};
use mdv_shelf::Bench;
use mdv_status::ValueText;
use mdv_tab::{TabFault, read_tab};
use std::alloc::Global;

impl Engine {
    /// Keeps the entries of a `tab` block in place of those before, and tells their number. `lines` are the lines
    /// between `tab` and `end`, each with its newline. Where one begins an entry that is of no form it is refused
    /// E1; of more than 65,536 bytes, or of more than 1,024 entries in front of any such, E9; where memory is
    /// wanting, E24. The entries that were kept before stay then. A boot forgets them.
    pub fn keep_tab<B: Bench>(&mut self, bench: &mut B, alloc: Global, lines: &[u8]) -> Reply
        ensures moments { LineMoments B.Shelf self.old.host Nothing self.old.state (KeepsLines lines.now) bench.old bench.new }
        ensures end { TabEnds B.Shelf bench.old bench.new self.old lines.now result self.new }
        ensures answer { HasRepliedTab (DriveFailures B.Shelf bench.old bench.new) (GivingFailed B.Shelf bench.old bench.new) self.old lines.now result self.new }
        ensures counted { IsReplyCounted B.Shelf bench.old bench.new result }
        ensures kept { KeptOn B.Shelf bench.old bench.new OnReplies }
    {
        let outcome = self.keep(alloc, lines);
        tell(bench, &Answer::Said(outcome))
    }

    fn keep(&mut self, alloc: Global, lines: &[u8]) -> Outcome
        ensures { HasKept self.old lines.now result self.new }
    {
        let entries = match read_tab(alloc, lines) {
            Ok(entries) => entries,
            Err(fault) => return Outcome::Refused(refusal_of(fault)),
        };
        let Ok(text) = ValueText::of_entries(alloc, entries.len() as u32) else {
            return Outcome::Refused(Refusal::OutOfMemory);
        };
        self.state.entries = entries;
        Outcome::Values(text)
    }
}

fn refusal_of(fault: TabFault) -> Refusal
    ensures { IsRefusalOf fault result }
{
    match fault {
        TabFault::BadLine(_) => Refusal::BadLine,
        TabFault::TooMany => Refusal::TooMany,
        TabFault::Memory => Refusal::OutOfMemory,
    }
}
