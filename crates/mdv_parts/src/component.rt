ghost use Rattle.std.specs.Prelude.{◌≡◌};
ghost use Rattle.mdv_parts.specs.Runs.{slice_of as spec_slice_of, volume_of as spec_volume_of};
ghost use Rattle.mdv_parts.specs.Runs.{pool_of as spec_pool_of};
ghost use Rattle.mdv_parts.specs.Runs.{component_of as spec_component_of};

use crate::part::Part;
use mdv_base::{PoolId, SliceName, VolId};

/// What a volume stands on: a slice, or another volume of the same database.
#[derive(Clone, Copy, Debug, PartialEq, Eq)]
pub enum Component {
    Slice(SliceName),
    Volume(VolId),
}

/// The slice that the part names.
pub fn slice_of(part: Part) -> Option<SliceName>
    ensures { result ≡ spec_slice_of part }
{
    match part {
        Part::Slice(slice) => Some(slice),
        _ => None,
    }
}

/// The volume that the part names.
pub fn volume_of(part: Part) -> Option<VolId>
    ensures { result ≡ spec_volume_of part }
{
    match part {
        Part::Volume(volume) => Some(volume),
        _ => None,
    }
}

/// The pool that the part names.
pub fn pool_of(part: Part) -> Option<PoolId>
    ensures { result ≡ spec_pool_of part }
{
    match part {
        Part::Pool(pool) => Some(pool),
        _ => None,
    }
}

/// The component that the part names.
pub fn component_of(part: Part) -> Option<Component>
    ensures { result ≡ spec_component_of part }
{
    match part {
        Part::Slice(slice) => Some(Component::Slice(slice)),
        Part::Volume(volume) => Some(Component::Volume(volume)),
        _ => None,
    }
}
