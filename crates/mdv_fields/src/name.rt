ghost use Rattle.std.specs.Prelude.{◌≡◌, length};
ghost use Rattle.mdv_base.specs.Name.{IsName};
ghost use Rattle.mdv_fields.specs.Reading.{Reads};
ghost use Rattle.mdv_fields.specs.Names.{drive_text, DriveFits, slice_text, SliceFits, volume_id_text, VolumeIdFits};
ghost use Rattle.mdv_fields.specs.Names.{pool_text, PoolFits, pool_id_text, PoolIdFits, flag_text, name_text, owner_text, OwnerFits};

use crate::fault::RecordError;
use crate::laying::lay;
use crate::part::{Part, Spelled};
use crate::reader::Reader;
use mdv_base::{DriveName, Name, PoolId, SliceName, VolId};
use mdv_plan::{MAX_POOLS, MAX_VOLUMES};
use std::alloc::Global;

impl Part for DriveName {
    ghost fits = { DriveFits };

    ghost text = { drive_text };

    fn read(alloc: Global, rest: &mut Reader) -> Result<DriveName, RecordError> {
        let controller = u8::read(alloc, rest)?;
        let target = u8::read(alloc, rest)?;
        let disk = u8::read(alloc, rest)?;
        Ok(DriveName {
            controller,
            target,
            disk,
        })
    }
}

impl Spelled for DriveName {
    ghost text = { drive_text };

    fn lay(&self, out: &mut [u8], used: usize) -> usize {
        lay(out, used, &[self.controller, self.target, self.disk])
    }
}

impl Part for SliceName {
    ghost fits = { SliceFits };

    ghost text = { slice_text };

    #[tactic(auto, unfolding(crate::specs::Names::slice_text))]
    fn read(alloc: Global, rest: &mut Reader) -> Result<SliceName, RecordError> {
        let drive = DriveName::read(alloc, rest)?;
        let slice = u8::read(alloc, rest)?;
        Ok(SliceName { drive, slice })
    }
}

impl Spelled for SliceName {
    ghost text = { slice_text };

    fn lay(&self, out: &mut [u8], used: usize) -> usize {
        let used = self.drive.lay(out, used);
        self.slice.lay(out, used)
    }
}

impl Part for VolId {
    ghost fits = { VolumeIdFits };

    ghost text = { volume_id_text };

    fn read(alloc: Global, rest: &mut Reader) -> Result<VolId, RecordError> {
        let number = u16::read(alloc, rest)?;
        if usize::from(number) < MAX_VOLUMES {
            Ok(VolId(number))
        } else {
            Err(RecordError::NotARecord)
        }
    }
}

impl Spelled for VolId {
    ghost text = { volume_id_text };

    fn lay(&self, out: &mut [u8], used: usize) -> usize {
        self.0.lay(out, used)
    }
}

impl Part for PoolId {
    ghost fits = { PoolIdFits };

    ghost text = { pool_id_text };

    fn read(alloc: Global, rest: &mut Reader) -> Result<PoolId, RecordError> {
        let number = u16::read(alloc, rest)?;
        if usize::from(number) < MAX_POOLS {
            Ok(PoolId(number))
        } else {
            Err(RecordError::NotARecord)
        }
    }
}

impl Spelled for PoolId {
    ghost text = { pool_id_text };

    fn lay(&self, out: &mut [u8], used: usize) -> usize {
        self.0.lay(out, used)
    }
}

impl Part for Option<PoolId> {
    ghost fits = { PoolFits };

    ghost text = { pool_text };

    fn read(alloc: Global, rest: &mut Reader) -> Result<Option<PoolId>, RecordError> {
        let flag = u8::read(alloc, rest)?;
        let number = u16::read(alloc, rest)?;
        match (flag, number) {
            (0, 0) => Ok(None),
            (1, _) if usize::from(number) < MAX_POOLS => Ok(Some(PoolId(number))),
            _ => Err(RecordError::NotARecord),
        }
    }
}

impl Spelled for Option<PoolId> {
    ghost text = { pool_text };

    #[tactic(auto, unfolding(crate::specs::Numbers::u16_text))]
    fn lay(&self, out: &mut [u8], used: usize) -> usize {
        match self {
            None => lay(out, used, &[0, 0, 0]),
            Some(pool) => {
                let used = lay(out, used, &[1]);
                pool.0.lay(out, used)
            }
        }
    }
}

impl Part for bool {
    ghost fits = { λ _. Unit {0} };

    ghost text = { flag_text };

    fn read(alloc: Global, rest: &mut Reader) -> Result<bool, RecordError> {
        match u8::read(alloc, rest)? {
            0 => Ok(false),
            1 => Ok(true),
            _ => Err(RecordError::NotARecord),
        }
    }
}

impl Spelled for bool {
    ghost text = { flag_text };

    fn lay(&self, out: &mut [u8], used: usize) -> usize {
        lay(out, used, &[u8::from(*self)])
    }
}

impl Part for Option<Name> {
    ghost fits = { OwnerFits };

    ghost text = { owner_text };

    fn read(alloc: Global, rest: &mut Reader) -> Result<Option<Name>, RecordError> {
        let size = u8::read(alloc, rest)?;
        if size == 0 {
            return Ok(None);
        }
        Ok(Some(read_name(rest, size)?))
    }
}

impl Spelled for Option<Name> {
    ghost text = { owner_text };

    fn lay(&self, out: &mut [u8], used: usize) -> usize {
        match self {
            None => lay(out, used, &[0]),
            Some(name) => name.lay(out, used),
        }
    }
}

impl Part for Name {
    ghost fits = { IsName };

    ghost text = { name_text };

    fn read(alloc: Global, rest: &mut Reader) -> Result<Name, RecordError> {
        let size = u8::read(alloc, rest)?;
        read_name(rest, size)
    }
}

impl Spelled for Name {
    ghost text = { name_text };

    fn lay(&self, out: &mut [u8], used: usize) -> usize {
        let text = self.as_bytes();
        let used = lay(out, used, &[text.len() as u8]);
        lay(out, used, text)
    }
}

// A name of so many bytes.
fn read_name(rest: &mut Reader, size: u8) -> Result<Name, RecordError>
    ensures { Reads (λ name. IsName name × (length name ≡ size)) (λ name. name) rest.old result rest.new }
{
    let text = rest.bytes(usize::from(size))?;
    Name::new(text).ok_or(RecordError::NotARecord)
}
