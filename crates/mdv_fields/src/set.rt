ghost use Rattle.mdv_fields.specs.Sets.{mediator_text, MediatorFits, set_text, SetFits, pending_text, PendingFits};
ghost use Rattle.std.specs.Prelude.{◌≡◌};
ghost use Rattle.std.proofs.Common.{rules};
ghost use Rattle.std.proofs.lemmas.Cmp.{nat_list_cmp_total};
ghost use Rattle.mdv_name.specs.Code.{drive_code};
ghost use Rattle.mdv_fields.specs.Sets.{IsBehindDrive, IsBehindPending};

use crate::fault::RecordError;
use crate::list::{lay_long, lay_short, read_long, read_short};
use crate::order::{Ordered, ascend};
use crate::part::{Part, Spelled};
use crate::reader::Reader;
use mdv_base::{DriveName, Name};
use mdv_plan::{Mediator, Pending, SetData};
use std::alloc::Global;
use std::cmp::Ordering;

impl Part for Mediator {
    ghost fits = { MediatorFits };

    ghost text = { mediator_text };

    fn read(alloc: Global, rest: &mut Reader) -> Result<Mediator, RecordError> {
        let host = Name::read(alloc, rest)?;
        let block = u32::read(alloc, rest)?;
        Ok(Mediator { host, block })
    }
}

impl Spelled for Mediator {
    ghost text = { mediator_text };

    fn lay(&self, out: &mut [u8], used: usize) -> usize {
        let used = self.host.lay(out, used);
        self.block.lay(out, used)
    }
}

impl Ordered for DriveName {
    ghost below = { IsBehindDrive };

    fn is_below(&self, other: &DriveName) -> bool {
        code(*self) < code(*other)
    }

    ghost follows = { Prim.search rules };
}

impl Part for SetData {
    ghost fits = { SetFits };

    ghost text = { set_text };

    #[tactic(auto, unfolding(crate::specs::Sets::set_text))]
    fn read(alloc: Global, rest: &mut Reader) -> Result<SetData, RecordError> {
        let owner = <Option<Name>>::read(alloc, rest)?;
        let hosts = read_short(alloc, rest)?;
        let drives = read_long(alloc, rest)?;
        if !ascend(drives.as_slice()) {
            return Err(RecordError::NotARecord);
        }
        let mediators = read_short(alloc, rest)?;
        Ok(SetData {
            owner,
            hosts,
            drives,
            mediators,
        })
    }
}

impl Spelled for SetData {
    ghost text = { set_text };

    fn lay(&self, out: &mut [u8], used: usize) -> usize {
        let used = self.owner.lay(out, used);
        let used = lay_short(out, used, self.hosts.as_slice());
        let used = lay_long(out, used, self.drives.as_slice());
        lay_short(out, used, self.mediators.as_slice())
    }
}

impl Part for Pending {
    ghost fits = { PendingFits };

    ghost text = { pending_text };

    fn read(alloc: Global, rest: &mut Reader) -> Result<Pending, RecordError> {
        let set = Name::read(alloc, rest)?;
        let hosts = read_short(alloc, rest)?;
        Ok(Pending { set, hosts })
    }
}

impl Spelled for Pending {
    ghost text = { pending_text };

    fn lay(&self, out: &mut [u8], used: usize) -> usize {
        let used = self.set.lay(out, used);
        lay_short(out, used, self.hosts.as_slice())
    }
}

impl Ordered for Pending {
    ghost below = { IsBehindPending };

    fn is_below(&self, other: &Pending) -> bool {
        let order = self.set.as_bytes().cmp(other.set.as_bytes());
        matches!(order, Ordering::Less)
    }

    ghost follows = { λ x y z. nat_list_cmp_total.trans x.set y.set z.set };
}

// Drives in order of controller, target and disk.
fn code(drive: DriveName) -> u32
    ensures { result ≡ drive_code drive }
{
    u32::from(drive.controller) * 65536 + u32::from(drive.target) * 256 + u32::from(drive.disk)
}
