ghost use Rattle.mdv_fields.specs.Numbers.{u32_text};
ghost use Rattle.mdv_fields.specs.Names.{VolumeIdFits};
ghost use Rattle.mdv_fields.specs.Parts.{place_text, PlaceFits, run_text, RunFits, base_text, BaseFits, component_text, ComponentFits, spare_text, SpareFits};
ghost use Rattle.mdv_fields.specs.Reading.{Reads};

use crate::fault::RecordError;
use crate::laying::lay;
use crate::part::{Part, Spelled};
use crate::reader::Reader;
use mdv_base::{Place, SliceName, VolId};
use mdv_extent::Run;
use mdv_plan::{Base, Component, MAX_VOLUMES, Spare};
use std::alloc::Global;

impl Part for Place {
    ghost fits = { PlaceFits };

    ghost text = { place_text };

    fn read(alloc: Global, rest: &mut Reader) -> Result<Place, RecordError> {
        let slice = SliceName::read(alloc, rest)?;
        let start = u32::read(alloc, rest)?;
        let blocks = u32::read(alloc, rest)?;
        Ok(Place {
            slice,
            start,
            blocks,
        })
    }
}

impl Spelled for Place {
    ghost text = { place_text };

    fn lay(&self, out: &mut [u8], used: usize) -> usize {
        let used = self.slice.lay(out, used);
        let used = self.start.lay(out, used);
        self.blocks.lay(out, used)
    }
}

impl Part for Run {
    ghost fits = { RunFits };

    ghost text = { run_text };

    fn read(alloc: Global, rest: &mut Reader) -> Result<Run, RecordError> {
        let at = u64::read(alloc, rest)?;
        let blocks = u64::read(alloc, rest)?;
        Ok(Run { at, blocks })
    }
}

impl Spelled for Run {
    ghost text = { run_text };

    fn lay(&self, out: &mut [u8], used: usize) -> usize {
        let used = self.at.lay(out, used);
        self.blocks.lay(out, used)
    }
}

impl Part for Base {
    ghost fits = { BaseFits };

    ghost text = { base_text };

    fn read(alloc: Global, rest: &mut Reader) -> Result<Base, RecordError> {
        match u8::read(alloc, rest)? {
            0 => Ok(Base::Slice(SliceName::read(alloc, rest)?)),
            1 => Ok(Base::Volume(read_wide_volume(alloc, rest)?)),
            _ => Err(RecordError::NotARecord),
        }
    }
}

impl Spelled for Base {
    ghost text = { base_text };

    fn lay(&self, out: &mut [u8], used: usize) -> usize {
        match self {
            Base::Slice(slice) => {
                let used = lay(out, used, &[0]);
                slice.lay(out, used)
            }
            Base::Volume(volume) => {
                let used = lay(out, used, &[1]);
                u32::from(volume.0).lay(out, used)
            }
        }
    }
}

// A volume whose number has four bytes.
fn read_wide_volume(alloc: Global, rest: &mut Reader) -> Result<VolId, RecordError>
    ensures { Reads VolumeIdFits (λ v. u32_text v.0) rest.old result rest.new }
{
    let number = u32::read(alloc, rest)?;
    if (number as usize) < MAX_VOLUMES {
        Ok(VolId(number as u16))
    } else {
        Err(RecordError::NotARecord)
    }
}

impl Part for Component {
    ghost fits = { ComponentFits };

    ghost text = { component_text };

    fn read(alloc: Global, rest: &mut Reader) -> Result<Component, RecordError> {
        let on = Base::read(alloc, rest)?;
        let start = u64::read(alloc, rest)?;
        let blocks = u64::read(alloc, rest)?;
        Ok(Component { on, start, blocks })
    }
}

impl Spelled for Component {
    ghost text = { component_text };

    fn lay(&self, out: &mut [u8], used: usize) -> usize {
        let used = self.on.lay(out, used);
        let used = self.start.lay(out, used);
        self.blocks.lay(out, used)
    }
}

impl Part for Spare {
    ghost fits = { SpareFits };

    ghost text = { spare_text };

    fn read(alloc: Global, rest: &mut Reader) -> Result<Spare, RecordError> {
        let slice = SliceName::read(alloc, rest)?;
        let start = u64::read(alloc, rest)?;
        let blocks = u64::read(alloc, rest)?;
        Ok(Spare {
            slice,
            start,
            blocks,
        })
    }
}

impl Spelled for Spare {
    ghost text = { spare_text };

    fn lay(&self, out: &mut [u8], used: usize) -> usize {
        let used = self.slice.lay(out, used);
        let used = self.start.lay(out, used);
        self.blocks.lay(out, used)
    }
}
