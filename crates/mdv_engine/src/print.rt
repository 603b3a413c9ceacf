ghost use Rattle.mdv_engine.specs.Printing.{HasPrinted, IsPrint};

use crate::engine::Engine;
use mdv_base::{Named, Refusal};
use mdv_engine_law::{Outcome, names_refusal};
use mdv_listing::listing;
use mdv_plan::Table;
use mdv_status::ValueText;
use std::alloc::Global;

impl Engine {
    // `metastat -p`, or with names.
    pub(crate) fn print(&self, alloc: Global, names: &[Named]) -> Outcome
        ensures { HasPrinted self.now.state names.now result }
    {
        let Some(store) = &self.state.database else {
            return Outcome::Refused(Refusal::NoDatabase);
        };
        let table = store.table();
        match names_refusal(&table.plan, names) {
            Some(refusal) => Outcome::Refused(refusal),
            None => printed(alloc, table, names),
        }
    }
}

// The text of the table, or of these names of it, where there is memory for it.
fn printed(alloc: Global, table: &Table, names: &[Named]) -> Outcome
    ensures { IsPrint table.now.plan names.now result }
{
    let Ok(lines) = listing(alloc, table, names) else {
        return Outcome::Refused(Refusal::OutOfMemory);
    };
    match ValueText::of_lines(lines) {
        Ok(text) => Outcome::Values(text),
        Err(_) => Outcome::Refused(Refusal::OutOfMemory),
    }
}
