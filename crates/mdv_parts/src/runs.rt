ghost use Rattle.std.specs.Prelude.{◌≡◌, IfOk};
ghost use Rattle.mdv_parts.specs.Runs.{slice_of as spec_slice_of, volume_of as spec_volume_of};
ghost use Rattle.mdv_parts.specs.Runs.{component_of as spec_component_of};
ghost use Rattle.mdv_parts.specs.Runs.{front, behind};

use crate::component::{Component, component_of, slice_of, volume_of};
use crate::items::Items;
use crate::part::Part;
use mdv_base::{SliceName, VolId};
use std::alloc::{AllocError, Global};

/// The components at the list's front, and what stands behind the last. Want of memory is the only
/// error, here and below.
pub fn split_components(
    alloc: Global,
    parts: &[Part],
) -> Result<(Items<Component>, &[Part]), AllocError>
    ensures named { IfOk result (λ r. r.0 ≡ front spec_component_of parts.now) }
    ensures rest { IfOk result (λ r. r.1.now ≡ behind spec_component_of parts.now) }
{
    let mut list = Items::new(alloc);
    let mut rest = parts;
    while let [first, on @ ..] = rest {
        let Some(component) = component_of(*first) else {
            return Ok((list, rest));
        };
        list.push(component)?;
        rest = on;
    }
    Ok((list, rest))
}

/// The volumes at the list's front, and what stands behind the last.
pub fn split_volumes(alloc: Global, parts: &[Part]) -> Result<(Items<VolId>, &[Part]), AllocError>
    ensures named { IfOk result (λ r. r.0 ≡ front spec_volume_of parts.now) }
    ensures rest { IfOk result (λ r. r.1.now ≡ behind spec_volume_of parts.now) }
{
    let mut list = Items::new(alloc);
    let mut rest = parts;
    while let [first, on @ ..] = rest {
        let Some(volume) = volume_of(*first) else {
            return Ok((list, rest));
        };
        list.push(volume)?;
        rest = on;
    }
    Ok((list, rest))
}

/// The slices at the list's front, and what stands behind the last.
pub fn split_slices(
    alloc: Global,
    parts: &[Part],
) -> Result<(Items<SliceName>, &[Part]), AllocError>
    ensures named { IfOk result (λ r. r.0 ≡ front spec_slice_of parts.now) }
    ensures rest { IfOk result (λ r. r.1.now ≡ behind spec_slice_of parts.now) }
{
    let mut list = Items::new(alloc);
    let mut rest = parts;
    while let [first, on @ ..] = rest {
        let Some(slice) = slice_of(*first) else {
            return Ok((list, rest));
        };
        list.push(slice)?;
        rest = on;
    }
    Ok((list, rest))
}
