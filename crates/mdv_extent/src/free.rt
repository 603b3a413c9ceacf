//! Which blocks of a base are free, and which stay used once extents are given back.
ghost use Rattle.std.specs.Prelude.{◌≡◌, ◌≤◌, ◌++◌, ℕ, All, IfOk, OnOk};
ghost use Rattle.std.specs.List.Sorted.{IsNonDecreasingBy};
ghost use Rattle.mdv_extent.specs.Runs.{released, IsInOrder};
ghost use Rattle.mdv_extent.specs.Free.{IsUsed, IsFree, between, free_of};

use crate::Run;
use std::alloc::{AllocError, Global};
use std::collections::HashSet;

/// The longest runs of the blocks of a base that no used run and no header covers, ascending; a header is
/// the block before a used run. The used runs may come in any order. With none the whole base is free.
///
/// The caller's used runs begin at block 1 or later and end within the base.
pub fn free_runs(alloc: Global, blocks: u64, used: &[Run]) -> Result<Vec<Run>, AllocError>
    requires { All (IsUsed blocks) used.now }
    ensures value { IfOk result (λ free. free.items ≡ free_of blocks used.now) }
    ensures free { IfOk result (λ free. IsFree blocks used.now free.items) }
    ensures order { IfOk result (λ free. (high : ℕ) → blocks ≤ high → IsInOrder 0 high free.items) }
{
    let mut used = Vec::from_slice(alloc, used)?;
    used.sort_unstable_by_key(|run| run.at);
    gaps(alloc, blocks, used.as_slice())
}

/// The free runs of a base whose used runs come in order.
fn gaps(alloc: Global, blocks: u64, used: &[Run]) -> Result<Vec<Run>, AllocError>
    requires used { All (IsUsed blocks) used.now }
    requires order { IsNonDecreasingBy (λ (r : Run). r.at) used.now }
    ensures { IfOk result (λ free. IsFree blocks used.now free.items) }
{
    let mut free = Vec::new(alloc);
    let mut next = 0;
    for run in used {
        push_between(&mut free, next, run.at - 1)?;
        next = next.max(run.at + run.blocks);
    }
    push_between(&mut free, next, blocks)?;
    Ok(free)
}

/// Adds the blocks from one up to another as a run, where there are any.
fn push_between(free: &mut Vec<Run>, low: u64, high: u64) -> Result<(), AllocError>
    ensures { OnOk result (free.new.items ≡ free.old.items ++ between low high) }
{
    if low < high {
        let blocks = high - low;
        free.push(Run { at: low, blocks })?;
    }
    Ok(())
}

/// The used runs that aren't among those that go, in their order.
pub fn release(alloc: Global, used: &[Run], gone: &[Run]) -> Result<Vec<Run>, AllocError>
    ensures { IfOk result (λ kept. kept.items ≡ released used.now gone.now) }
{
    let gone: HashSet<Run> = gone.iter().copied().collect(alloc)?;
    used.iter()
        .copied()
        .filter(|run| !gone.contains(run))
        .collect(alloc)
}
