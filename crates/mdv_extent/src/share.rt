//! How blocks are found for a soft partition in the free runs of its base.
ghost use Rattle.std.specs.Prelude.{◌≡◌, ◌≤◌, ◌<◌, ◌⊎◌, ◌^◌, ◌-◌, IfOk, IfErr, Ok, Err, All, length, nat_lt};
ghost use Rattle.std.specs.List.{find};
ghost use Rattle.mdv_extent.specs.Runs.{IsInOrder};
ghost use Rattle.mdv_extent.specs.declared.run.Run.{Run};
ghost use Rattle.mdv_extent.specs.Share.{allotted, gathered, shared, room_in};

use crate::{MAX_EXTENTS, Run};
use std::alloc::{AllocFailed, Global};

/// Why no extents are given.
#[derive(Clone, Copy, Debug, PartialEq, Eq)]
pub enum SpaceFault {
    /// The free runs have fewer blocks than are needed, one of each run kept for a header: so many.
    NoSpace(u64),
    /// More than `MAX_EXTENTS` extents would be needed.
    TooMany,
    /// Memory is wanting.
    Memory,
}

impl<T: Drop> From<AllocFailed<T>> for SpaceFault {
    ghost use Rattle.mdv_extent.specs.declared.share.SpaceFault.TheVariants.{Memory};

    ghost from_gives = { λ _ fault. fault ≡ Memory };

    fn from(_error: AllocFailed<T>) -> SpaceFault {
        SpaceFault::Memory
    }
}

/// Extents of so many blocks together, out of the free runs of a base. The first run that has a block more
/// than is needed gives one extent. Where there is none, the runs of at least two blocks give in order all
/// but one of their blocks, until there are enough. Each extent has its header in the block before it, the
/// first of its free run.
///
/// The caller's runs are disjoint and ascending and end at block 2^63 or below, and it needs a block at least.
pub fn allocate(alloc: Global, free: &[Run], need: u64) -> Result<Vec<Run>, SpaceFault>
    requires order { IsInOrder 0 (2 ^ 63) free.now }
    requires some { 1 ≤ need }
    ensures ok { IfOk result (λ extents. allotted free.now need ≡ Ok extents.items) }
    ensures err { IfErr result (λ fault. (fault ≡ SpaceFault.Memory) ⊎ (allotted free.now need ≡ Err fault)) }
{
    match first_longer(free, need) {
        Some(run) => {
            let at = run.at + 1;
            Ok(vec![in alloc; Run { at, blocks: need }]?)
        }
        None => gather(alloc, free, need),
    }
}

/// The first run that has a block more than is needed.
fn first_longer(free: &[Run], need: u64) -> Option<Run>
    ensures { result ≡ find (λ (r : Run). nat_lt need r.blocks) free.now }
{
    free.iter().copied().find(|run| need < run.blocks)
}

/// Extents out of several runs.
fn gather(alloc: Global, free: &[Run], need: u64) -> Result<Vec<Run>, SpaceFault>
    requires order { IsInOrder 0 (2 ^ 63) free.now }
    ensures ok { IfOk result (λ extents. gathered free.now need ≡ Ok extents.items) }
    ensures err { IfErr result (λ fault. (fault ≡ SpaceFault.Memory) ⊎ (gathered free.now need ≡ Err fault)) }
{
    let room = total_room(free);
    if room < need {
        return Err(SpaceFault::NoSpace(room));
    }
    share(alloc, free, need)
}

/// How many blocks the runs can give, one of each kept for a header.
fn total_room(free: &[Run]) -> u64
    requires { room_in free.now < 2 ^ 64 }
    ensures { result ≡ room_in free.now }
{
    free.iter().map(|run| run.blocks.saturating_sub(1)).sum()
}

/// What run after run gives until there are enough blocks.
fn share(alloc: Global, free: &[Run], need: u64) -> Result<Vec<Run>, SpaceFault>
    requires { All (λ (r : Run). r.at < 2 ^ 64 - 1) free.now }
    ensures few { IfOk result (λ extents. length extents.items ≤ 16) }
    ensures ok { IfOk result (λ extents. shared free.now need ≡ extents.items) }
    ensures err { IfErr result (λ fault. (fault ≡ SpaceFault.Memory) ⊎ ((fault ≡ SpaceFault.TooMany) × (16 < length (shared free.now need)))) }
{
    let mut extents = Vec::new(alloc);
    let mut rest = need;
    for run in free {
        let blocks = run.blocks.saturating_sub(1).min(rest);
        if blocks > 0 {
            if extents.len() == MAX_EXTENTS {
                return Err(SpaceFault::TooMany);
            }
            let at = run.at + 1;
            extents.push(Run { at, blocks })?;
            rest -= blocks;
        }
    }
    Ok(extents)
}
