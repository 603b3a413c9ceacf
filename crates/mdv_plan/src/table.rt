ghost use Rattle.std.specs.Prelude.{◌≡◌};
ghost use Rattle.mdv_plan.specs.Table.{empty_table, no_set as spec_no_set};

use crate::listed::{Copied, Listed};
use crate::lists::Lists;
use crate::plan::Plan;
use crate::set::SetData;
use crate::sorted::Sorted;
use crate::status::Status;
use mdv_base::Places;
use std::alloc::{AllocError, Global};

/// All that a database keeps: its plan, which commands change, and the states of what it has.
#[derive(Drop)]
pub struct Table {
    pub plan: Plan,
    pub status: Status,
}

impl Table {
    /// The table of a new local database: its replicas lie at these places, and it has nothing else.
    pub fn empty(alloc: Global, places: Places) -> Table
        ensures { result ≡ empty_table places }
    {
        Table {
            plan: Plan {
                lists: Lists::One(places),
                set: no_set(alloc),
                pending: Listed::new(alloc),
                pools: Sorted::new(alloc),
                volumes: Sorted::new(alloc),
            },
            status: Status {
                volumes: Sorted::new(alloc),
                spares: Sorted::new(alloc),
            },
        }
    }
}

fn no_set(alloc: Global) -> SetData
    ensures { result ≡ spec_no_set }
{
    SetData {
        owner: None,
        hosts: Listed::new(alloc),
        drives: Listed::new(alloc),
        mediators: Listed::new(alloc),
    }
}

impl Copied for Table {
    fn copied(&self, alloc: Global) -> Result<Table, AllocError> {
        Ok(Table {
            plan: self.plan.copied(alloc)?,
            status: self.status.copied(alloc)?,
        })
    }
}
