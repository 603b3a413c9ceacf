//! Whether each block of a mirror has a copy that may be read.
ghost use Rattle.std.specs.Prelude.{◌≡◌, IfOk};
ghost use Rattle.mdv_shape.specs.Covered.{up_in as spec_up_in, is_covered as spec_is_covered, are_covered as spec_are_covered};

use mdv_base::VolId;
use mdv_copies::{Leg, has_bare, legs_of};
use mdv_plan::{Table, Volume, VolumeKind};
use std::alloc::{AllocError, Global};

// Those that aren't offline.
fn up_in(alloc: Global, legs: &[Leg]) -> Result<Vec<VolId>, AllocError>
    ensures { IfOk result (λ list. list.items ≡ spec_up_in legs.now) }
{
    let mut list = Vec::new(alloc);
    for leg in legs {
        if !leg.offline {
            list.push(leg.volume)?;
        }
    }
    Ok(list)
}

fn is_covered(alloc: Global, table: &Table, volume: &Volume) -> Result<bool, AllocError>
    ensures { IfOk result (λ yes. yes ≡ spec_is_covered table.now volume.now) }
{
    match &volume.kind {
        VolumeKind::Mirror(mirror) => {
            let legs = legs_of(alloc, table, volume.number)?;
            let up = up_in(alloc, legs.as_slice())?;
            Ok(!has_bare(table, up.as_slice(), mirror.blocks))
        }
        _ => Ok(true),
    }
}

/// Whether each block of each mirror has a copy that may be read in a submirror that isn't offline. It goes from run to run
/// of blocks.
pub(crate) fn are_covered(alloc: Global, table: &Table) -> Result<bool, AllocError>
    ensures { IfOk result (λ yes. yes ≡ spec_are_covered table.now) }
{
    for volume in table.plan.volumes.as_slice() {
        if !is_covered(alloc, table, volume)? {
            return Ok(false);
        }
    }
    Ok(true)
}
