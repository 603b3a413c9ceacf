ghost use Rattle.std.specs.Prelude.{◌≡◌, ◌↔◌, ◌<◌, IfErr, OnOk, IsTrue, nat_lt};
ghost use Rattle.std.specs.List.{All, list_any};
ghost use Rattle.mdv_extent.specs.declared.run.Run.{Run};
ghost use Rattle.mdv_extent.specs.Runs.{end_of};
ghost use Rattle.mdv_extent.specs.Extents.{IsApart};
ghost use Rattle.mdv_soft.specs.Softs.{IsNoSoft, IsSoft, meet};

use crate::NoSoft;
use mdv_extent::{MAX_EXTENTS, Run};

/// Whether extents make a soft partition on a base of so many blocks, or the first cause for which they don't.
pub(crate) fn judge(blocks: u64, extents: &[Run]) -> Result<(), NoSoft>
    ensures made { OnOk result (IsSoft blocks extents.now) }
    ensures refused { IfErr result (λ why. IsNoSoft blocks extents.now why) }
{
    if extents.is_empty() {
        return Err(NoSoft::TooFew);
    }
    if extents.len() > MAX_EXTENTS {
        return Err(NoSoft::TooMany);
    }
    if extents.iter().any(|run| run.blocks == 0) {
        return Err(NoSoft::EmptyExtent);
    }
    if extents.iter().any(|run| run.at == 0) {
        return Err(NoSoft::NoHeader);
    }
    if extents.iter().any(|run| is_past(run, blocks)) {
        return Err(NoSoft::PastTheEnd);
    }
    if !lie_apart(extents) {
        return Err(NoSoft::SharedBlock);
    }
    Ok(())
}

// Whether the run ends behind the last of so many blocks.
fn is_past(run: &Run, blocks: u64) -> bool
    ensures { result ≡ nat_lt blocks (end_of run.now) }
{
    run.at > blocks || run.blocks > blocks - run.at
}

// Whether no two of the extents, with their headers, have a block in common. It needs no memory, as `lie_apart` of `mdv_extent` does: 16
// extents are 120 pairs.
fn lie_apart(extents: &[Run]) -> bool
    requires { All (λ (r : Run). 0 < r.at) extents.now }
    ensures { IsTrue result ↔ IsApart extents.now }
{
    let mut rest = extents;
    while let Some((run, behind)) = rest.split_first() {
        if meets_one(*run, behind) {
            return false;
        }
        rest = behind;
    }
    true
}

// Whether the extent has a block in common with one of these.
fn meets_one(run: Run, others: &[Run]) -> bool
    ensures { result ≡ list_any (λ (s : Run). meet run s) others.now }
{
    others.iter().any(|other| meets(run, *other))
}

// Whether the later one's header is a block of the earlier one, or both begin at one block.
fn meets(run: Run, other: Run) -> bool
    ensures { result ≡ meet run other }
{
    if run.at <= other.at {
        other.at - run.at <= run.blocks
    } else {
        run.at - other.at <= other.blocks
    }
}
