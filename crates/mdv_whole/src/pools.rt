//! Pools, each spare with its state.
ghost use Rattle.mdv_codec.specs.Recorded.{spare_part_text, pool_part_text};
ghost use Rattle.mdv_whole.specs.Sides.{spare_of, pool_of};

use crate::beside::{Beside, lay_all};
use crate::spares::{States, state_in};
use mdv_codec::RecordedSpare;
use mdv_fields::Spelled;
use mdv_plan::{Pool, Spare};

impl Beside<States> for Spare {
    ghost text = { λ s states. spare_part_text (spare_of states s) };

    fn lay_with(&self, noted: &States, out: &mut [u8], used: usize) -> usize {
        let spare = *self;
        let state = state_in(noted, spare.slice);
        RecordedSpare { spare, state }.lay(out, used)
    }
}

impl Beside<States> for Pool {
    ghost text = { λ p states. pool_part_text (pool_of states p) };

    fn lay_with(&self, noted: &States, out: &mut [u8], used: usize) -> usize {
        let spares = self.spares.as_slice();
        let used = self.number.lay(out, used);
        let used = (spares.len() as u16).lay(out, used);
        lay_all(out, used, spares, noted)
    }
}
