//! One number for each base.
ghost use Rattle.std.specs.Prelude.{◌≡◌};
ghost use Rattle.mdv_fitting.specs.Keys.{base_key as spec_base_key};

use mdv_plan::Base;
use mdv_shape::slice_key;

// The numbers of slices are below it.
const SLICES: u64 = 1 << 32;

pub(crate) fn base_key(base: Base) -> u64
    ensures { result ≡ spec_base_key base }
{
    match base {
        Base::Slice(slice) => u64::from(slice_key(slice)),
        Base::Volume(volume) => SLICES + u64::from(volume.0),
    }
}
