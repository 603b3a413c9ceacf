//! Whether a submirror, or one of its components, has the last usable copy of a block.
ghost use Rattle.std.specs.Prelude.{◌≡◌, IfOk, not};
ghost use Rattle.std.specs.List.{list_any};
ghost use Rattle.mdv_copies.specs.Copies.{IsRun, any_below, has_copy, is_bare, is_bare_on, is_last as spec_is_last, is_last_on as spec_is_last_on};
ghost use Rattle.mdv_copies.specs.Legs.{legs_of};

use crate::legs::{Leg, legs_of, others};
use crate::runs::{beside_in, run_of};
use mdv_base::VolId;
use mdv_plan::{Base, Table};
use mdv_rows::rows_of;
use mdv_submirrors::size_of;
use std::alloc::{AllocError, Global};

fn run_of_any(table: &Table, volumes: &[VolId], block: u64) -> u64
    ensures { IsRun (λ b. list_any (has_copy table.now b) volumes.now) block result }
{
    for volume in volumes {
        let run = run_of(table, *volume, block);
        if run > 0 {
            return run;
        }
    }
    0
}

/// Whether none of the volumes has a usable copy of some block below the last. It goes from run to run.
pub fn has_bare(table: &Table, volumes: &[VolId], blocks: u64) -> bool
    ensures { result ≡ any_below (is_bare table.now volumes.now) blocks }
{
    let mut block: u64 = 0;
    while block < blocks {
        let run = run_of_any(table, volumes, block);
        if run == 0 {
            return true;
        }
        block = block.saturating_add(run).min(blocks);
    }
    false
}

/// Whether some block of the mirror has no usable copy in a submirror beside this one.
pub(crate) fn is_last(
    alloc: Global,
    table: &Table,
    legs: &[Leg],
    mirror: VolId,
    volume: VolId,
) -> Result<bool, AllocError>
    requires { legs.now ≡ legs_of table.now mirror }
    ensures { IfOk result (λ last. last ≡ spec_is_last table.now mirror volume) }
{
    let beside = others(alloc, legs, volume)?;
    Ok(has_bare(table, beside.as_slice(), size_of(&table.plan, mirror)))
}

// How many blocks from this one on lie beside the component or have a usable copy in one of the volumes.
fn kept_run(table: &Table, volumes: &[VolId], volume: VolId, on: Base, block: u64) -> u64
    ensures { IsRun (λ b. not (is_bare_on table.now volumes.now volume on b)) block result }
{
    let beside = beside_in(rows_of(&table.plan, volume), on, block);
    if beside > 0 {
        return beside;
    }
    run_of_any(table, volumes, block)
}

// Whether some block of the component below the last has a usable copy in none of the volumes.
fn has_bare_on(table: &Table, volumes: &[VolId], volume: VolId, on: Base, blocks: u64) -> bool
    ensures { result ≡ any_below (is_bare_on table.now volumes.now volume on) blocks }
{
    let mut at: u64 = 0;
    while at < blocks {
        let run = kept_run(table, volumes, volume, on, at);
        if run == 0 {
            return true;
        }
        at = at.saturating_add(run).min(blocks);
    }
    false
}

/// Whether some block of the mirror that lies on the component of this submirror which has this base has no
/// usable copy in a submirror beside this one.
pub fn is_last_on(
    alloc: Global,
    table: &Table,
    mirror: VolId,
    volume: VolId,
    on: Base,
) -> Result<bool, AllocError>
    ensures { IfOk result (λ last. last ≡ spec_is_last_on table.now mirror volume on) }
{
    let legs = legs_of(alloc, table, mirror)?;
    let beside = others(alloc, legs.as_slice(), volume)?;
    let blocks = size_of(&table.plan, mirror);
    Ok(has_bare_on(table, beside.as_slice(), volume, on, blocks))
}
