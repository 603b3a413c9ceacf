ghost use Rattle.std.specs.Prelude.{◌≡◌, IfOk};
ghost use Rattle.mdv_codec.specs.Record.{IsRecord};
ghost use Rattle.mdv_whole.specs.Parted.{table_of as spec_table_of, spare_states as spec_spare_states};
ghost use Rattle.mdv_whole.specs.Text.{IsDecoded};

use crate::halves::sorted_halves;
use crate::parting::{Parted, part_volumes};
use crate::spares::{States, are_settled, spare_states};
use mdv_codec::{Recorded, read_record};
use mdv_fields::RecordError;
use mdv_plan::{Plan, Sorted, Status, Table};
use std::alloc::{AllocError, Global};

/// Reads the table whose text these bytes are.
pub fn decode(alloc: Global, bytes: &[u8]) -> Result<Table, RecordError>
    ensures { IsDecoded bytes.now result }
{
    let recorded = read_record(alloc, bytes)?;
    let spares = spare_states(alloc, recorded.pools.as_slice())?;
    if !are_settled(&spares, recorded.pools.as_slice()) {
        return Err(RecordError::NotARecord);
    }
    Ok(table_of(alloc, recorded, spares)?)
}

// The table of a record, of whose spares the states are these.
fn table_of(alloc: Global, recorded: Recorded, spares: States) -> Result<Table, AllocError>
    requires fits { IsRecord recorded }
    requires states { spares ≡ spec_spare_states recorded.pools }
    ensures { IfOk result (λ table. table ≡ spec_table_of recorded) }
{
    let Recorded {
        front,
        pools,
        mut volumes,
    } = recorded;
    let Parted { planned, noted } = part_volumes(alloc, volumes.as_mut_slice())?;
    let status = Status {
        volumes: Sorted::from_ascending(noted),
        spares,
    };
    let plan = Plan {
        lists: front.lists,
        set: front.set,
        pending: front.pending,
        pools: sorted_halves(alloc, pools.as_slice())?,
        volumes: Sorted::from_ascending(planned),
    };
    Ok(Table { plan, status })
}
