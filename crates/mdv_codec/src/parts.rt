ghost use Rattle.mdv_codec.specs.Recorded.{PartFits, part_text, SubmirrorFits, submirror_text, SparePartFits, spare_part_text, OptionsFit, options_text};

use crate::recorded::{RecordedOptions, RecordedPart, RecordedSpare, RecordedSubmirror};
use mdv_base::VolId;
use mdv_fields::{Part, Reader, RecordError, Spelled};
use mdv_plan::{Component, PartStatus, ReadOption, Spare, SpareState, WriteOption};
use std::alloc::Global;

impl Part for RecordedPart {
    ghost fits = { PartFits };

    ghost text = { part_text };

    #[tactic(auto, unfolding(crate::specs::Recorded::part_text))]
    fn read(alloc: Global, rest: &mut Reader) -> Result<RecordedPart, RecordError> {
        let component = Component::read(alloc, rest)?;
        let status = PartStatus::read(alloc, rest)?;
        Ok(RecordedPart { component, status })
    }
}

impl Spelled for RecordedPart {
    ghost text = { part_text };

    fn lay(&self, out: &mut [u8], used: usize) -> usize {
        let used = self.component.lay(out, used);
        self.status.lay(out, used)
    }
}

impl Part for RecordedSubmirror {
    ghost fits = { SubmirrorFits };

    ghost text = { submirror_text };

    #[tactic(auto, unfolding(crate::specs::Recorded::submirror_text))]
    fn read(alloc: Global, rest: &mut Reader) -> Result<RecordedSubmirror, RecordError> {
        let volume = VolId::read(alloc, rest)?;
        let offline = bool::read(alloc, rest)?;
        Ok(RecordedSubmirror { volume, offline })
    }
}

impl Spelled for RecordedSubmirror {
    ghost text = { submirror_text };

    fn lay(&self, out: &mut [u8], used: usize) -> usize {
        let used = self.volume.lay(out, used);
        self.offline.lay(out, used)
    }
}

impl Part for RecordedSpare {
    ghost fits = { SparePartFits };

    ghost text = { spare_part_text };

    #[tactic(auto, unfolding(crate::specs::Recorded::spare_part_text))]
    fn read(alloc: Global, rest: &mut Reader) -> Result<RecordedSpare, RecordError> {
        let spare = Spare::read(alloc, rest)?;
        let state = SpareState::read(alloc, rest)?;
        Ok(RecordedSpare { spare, state })
    }
}

impl Spelled for RecordedSpare {
    ghost text = { spare_part_text };

    fn lay(&self, out: &mut [u8], used: usize) -> usize {
        let used = self.spare.lay(out, used);
        self.state.lay(out, used)
    }
}

impl Part for RecordedOptions {
    ghost fits = { OptionsFit };

    ghost text = { options_text };

    #[tactic(auto, unfolding(crate::specs::Recorded::options_text))]
    fn read(alloc: Global, rest: &mut Reader) -> Result<RecordedOptions, RecordError> {
        let read = ReadOption::read(alloc, rest)?;
        let write = WriteOption::read(alloc, rest)?;
        let pass = u8::read(alloc, rest)?;
        if pass < 1 || pass > 9 {
            return Err(RecordError::NotARecord);
        }
        Ok(RecordedOptions { read, write, pass })
    }
}

impl Spelled for RecordedOptions {
    ghost text = { options_text };

    fn lay(&self, out: &mut [u8], used: usize) -> usize {
        let used = self.read.lay(out, used);
        let used = self.write.lay(out, used);
        self.pass.lay(out, used)
    }
}
