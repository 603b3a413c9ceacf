ghost use Rattle.std.specs.Prelude.{◌↔◌, IsTrue, IfOk};
ghost use Rattle.mdv_shape.specs.Shape.{IsShaped};

use crate::covered::are_covered;
use crate::kinds::are_below;
use crate::owners::have_owners;
use crate::seats::are_seated;
use crate::sizes::are_sized;
use mdv_plan::Table;
use std::alloc::{AllocError, Global};

/// Whether the table holds together, whatever drives there are.
pub fn is_shaped(alloc: Global, table: &Table) -> Result<bool, AllocError>
    ensures { IfOk result (λ yes. IsTrue yes ↔ IsShaped table.now) }
{
    let plan = &table.plan;
    if !are_below(plan) || !are_sized(plan) {
        return Ok(false);
    }
    let owned = have_owners(alloc, plan)?;
    let seated = are_seated(alloc, table)?;
    let covered = are_covered(alloc, table)?;
    Ok(owned && (seated && covered))
}
