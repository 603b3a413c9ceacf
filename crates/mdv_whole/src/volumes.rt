//! Volumes, each with what is noted of it.
ghost use Rattle.mdv_codec.specs.Recorded.{volume_text};
ghost use Rattle.mdv_whole.specs.Sides.{volume_of};

use crate::beside::Beside;
use crate::kinds::lay_kind;
use mdv_fields::Spelled;
use mdv_plan::{Volume, VolumeStatus};

impl Beside<VolumeStatus> for Volume {
    ghost text = { λ v s. volume_text (volume_of v s) };

    fn lay_with(&self, noted: &VolumeStatus, out: &mut [u8], used: usize) -> usize {
        let used = self.number.lay(out, used);
        lay_kind(out, used, &self.kind, &noted.kind)
    }
}
