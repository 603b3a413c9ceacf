//! Which volumes and pools are used by volumes.
ghost use Rattle.std.specs.Prelude.{◌≡◌, ◌++◌, List, IfOk, OnOk};
ghost use Rattle.mdv_keys.specs.Below.{PoolId, VolId, kind_below};
ghost use Rattle.mdv_keys.specs.Marks.{AreMarks, AreMarked, below_unmarked, kind_pool as spec_kind_pool, pool_key, pool_list, pools_unmarked};

use crate::marks::{Marks, PoolMarks, VolumeMarks, mark_volumes};
use mdv_base::PoolId;
use mdv_plan::{Volume, VolumeKind, add_named};
use std::alloc::{AllocError, Global};

/// Marks the volumes that a volume of this kind names. Where memory is wanting, none.
pub fn mark_named(
    alloc: Global,
    marks: &mut VolumeMarks,
    kind: &VolumeKind,
) -> Result<(), AllocError>
    ensures { OnOk result ((vs : List VolId) → AreMarked marks.old vs → AreMarked marks.new (vs ++ kind_below kind.now)) }
{
    let mut below = Vec::new(alloc);
    add_named(&mut below, kind)?;
    mark_volumes(marks, below.as_slice());
    Ok(())
}

/// The volumes that those name which aren't marked. The work is linear in all names.
pub fn used_beside(
    alloc: Global,
    volumes: &[Volume],
    marked: &VolumeMarks,
) -> Result<VolumeMarks, AllocError>
    ensures { IfOk result (λ marks. AreMarked marks (below_unmarked marked.now volumes.now)) }
{
    let mut used = Marks::new(alloc)?;
    for volume in volumes {
        if !marked.has(volume.number.0) {
            mark_named(alloc, &mut used, &volume.kind)?;
        }
    }
    Ok(used)
}

fn kind_pool(kind: &VolumeKind) -> Option<PoolId>
    ensures { result ≡ spec_kind_pool kind.now }
{
    match kind {
        VolumeKind::Stripe(stripe) => stripe.spares,
        VolumeKind::Raid(raid) => raid.spares,
        _ => None,
    }
}

fn mark_pool(marks: &mut PoolMarks, pool: Option<PoolId>)
    ensures { (qs : List PoolId) → AreMarks pool_key 1000 marks.old qs → AreMarks pool_key 1000 marks.new (qs ++ pool_list pool) }
{
    if let Some(pool) = pool {
        marks.add(pool.0);
    }
}

/// The pools from which those volumes take their spares that aren't marked.
pub fn pools_beside(
    alloc: Global,
    volumes: &[Volume],
    marked: &VolumeMarks,
) -> Result<PoolMarks, AllocError>
    ensures { IfOk result (λ marks. AreMarks pool_key 1000 marks (pools_unmarked marked.now volumes.now)) }
{
    let mut used = Marks::new(alloc)?;
    for volume in volumes {
        if !marked.has(volume.number.0) {
            mark_pool(&mut used, kind_pool(&volume.kind));
        }
    }
    Ok(used)
}
