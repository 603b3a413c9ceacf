//! Whether extents that are asked for or read lie apart on their base.
ghost use Rattle.std.specs.Prelude.{◌≡◌, ◌↔◌, ◌&&◌, IfOk, IsTrue, nat_lt, nat_le};
ghost use Rattle.std.specs.List.Sorted.{IsNonDecreasingBy};
ghost use Rattle.mdv_extent.specs.declared.run.Run.{Run};
ghost use Rattle.mdv_extent.specs.Runs.{end_of};
ghost use Rattle.mdv_extent.specs.Extents.{LieApart, lie_apart as spec_lie_apart};

use crate::Run;
use std::alloc::{AllocError, Global};

/// Whether these can be the extents of all soft partitions on a base of so many blocks: each has a block, and
/// one before it for its header, and ends within the base, and no block has two of them with their headers.
/// They may come in any order.
pub fn lie_apart(alloc: Global, blocks: u64, extents: &[Run]) -> Result<bool, AllocError>
    ensures apart { IfOk result (λ yes. IsTrue yes ↔ LieApart blocks extents.now) }
    ensures value { IfOk result (λ yes. yes ≡ spec_lie_apart blocks extents.now) }
{
    let mut extents = Vec::from_slice(alloc, extents)?;
    extents.sort_unstable_by_key(|run| run.at);
    Ok(stand_apart(blocks, extents.as_slice()))
}

/// Whether extents that come in order lie apart.
fn stand_apart(blocks: u64, extents: &[Run]) -> bool
    requires { IsNonDecreasingBy (λ (r : Run). r.at) extents.now }
    ensures { IsTrue result ↔ LieApart blocks extents.now }
{
    let mut end = 0;
    for run in extents {
        if !is_behind(*run, end, blocks) {
            return false;
        }
        end = run.at + run.blocks;
    }
    true
}

/// Whether the extent has blocks, a block for its header from that one on, and ends within the base.
fn is_behind(run: Run, end: u64, blocks: u64) -> bool
    ensures { result ≡ (nat_lt end run.at && (nat_lt 0 run.blocks && nat_le (end_of run) blocks)) }
{
    end < run.at && 0 < run.blocks && run.at <= blocks && run.blocks <= blocks - run.at
}
