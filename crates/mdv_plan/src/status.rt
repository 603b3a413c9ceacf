ghost use Rattle.std.specs.Prelude.{◌≡◌, length, replicate, IfOk};
ghost use Rattle.std.specs.Borrow.{sem};
ghost use Rattle.mdv_plan.specs.Lent.{lends_bytes};
ghost use Rattle.mdv_name.specs.Code.{slice_code as spec_slice_code};

use crate::listed::{Copied, Listed};
use crate::sorted::{Keyed, Sorted};
use crate::volume::{MAX_COLUMNS, MAX_COMPONENTS, MAX_SUBMIRRORS, MAX_VOLUMES};
use mdv_base::{SliceName, VolId};
use std::alloc::{AllocError, Global};
use std::marker::Model;

/// The most dirty regions of a mirror.
pub const MAX_REGIONS: usize = 1024;

// Eight regions a byte.
const REGION_BYTES: usize = 128;

// One more than the greatest code of a slice.
const SLICE_CODES: usize = 4294967296;

/// What is copied to a component that is resyncing.
#[derive(Clone, Copy, Debug, PartialEq, Eq)]
pub enum Resync {
    Whole,
    /// The dirty regions of its mirror.
    Regions,
}

#[derive(Clone, Copy, Debug, PartialEq, Eq)]
pub enum State {
    Okay,
    Resyncing(Resync),
    Maintenance,
    LastErred,
}

/// The spare on which a component lies, from this block of the slice on.
#[derive(Clone, Copy, Debug, PartialEq, Eq)]
pub struct SpareUse {
    pub slice: SliceName,
    pub start: u64,
}

/// The state of a component.
#[derive(Clone, Copy, Debug, PartialEq, Eq)]
pub struct PartStatus {
    pub state: State,
    pub spare: Option<SpareUse>,
}

/// Which regions of a mirror are dirty: 1024 bits in 128 bytes, region 0 the highest bit of the first.
#[derive(Drop)]
pub struct Regions {
    bytes: Vec<u8>,
}

impl Model for Regions {
    ghost use Rattle.std.specs.Prelude.{◌≡◌, ℕ, List, length};

    ghost Value = { List ℕ };

    ghost view = { λ r. r.bytes.items };

    ghost invariant = { λ r. length r.bytes.items ≡ 128 };
}

impl Regions {
    /// None is dirty.
    pub fn clean(alloc: Global) -> Result<Regions, AllocError>
        ensures { IfOk result (λ r. r ≡ replicate 128 0) }
    {
        let bytes = vec![in alloc; 0; REGION_BYTES]?;
        Ok(Regions { bytes })
    }

    pub fn from_slice(alloc: Global, bytes: &[u8]) -> Result<Regions, AllocError>
        requires { length bytes.now ≡ 128 }
        ensures { IfOk result (λ r. r ≡ bytes.now) }
    {
        let bytes = Vec::from_slice(alloc, bytes)?;
        Ok(Regions { bytes })
    }

    /// The bytes, to be changed in place. There stay as many.
    pub fn as_mut_slice(&mut self) -> &mut [u8]
        ensures* lends { sem 𝓛 (lends_bytes self.entry result) }
        ensures value { result.now ≡ self.old }
        ensures size { length self.old ≡ 128 }
    {
        self.bytes.as_mut_slice()
    }

    pub fn as_slice(&self) -> &[u8]
        ensures value { result.now ≡ self.now }
        ensures size { length self.now ≡ 128 }
    {
        self.bytes.as_slice()
    }
}

impl Copied for Regions {
    fn copied(&self, alloc: Global) -> Result<Regions, AllocError> {
        let bytes = Vec::from_slice(alloc, self.bytes.as_slice())?;
        Ok(Regions { bytes })
    }
}

#[derive(Drop)]
pub struct MirrorStatus {
    /// Of each submirror, in order, whether it is offline.
    pub offline: Listed<bool, MAX_SUBMIRRORS>,
    pub dirty: Regions,
}

/// How far a RAID-5 volume is made.
#[derive(Clone, Copy, Debug, PartialEq, Eq)]
pub enum RaidState {
    Okay,
    /// Zeros are being written to it.
    Initializing,
    /// Parity is being made of the data that it has: `-k`.
    Keeping,
}

#[derive(Drop)]
pub struct RaidStatus {
    pub state: RaidState,
    pub columns: Listed<PartStatus, MAX_COLUMNS>,
}

/// What is noted of a volume, by its kind. Components come in the order of the rows.
#[derive(Drop)]
pub enum KindStatus {
    Stripe(Listed<PartStatus, MAX_COMPONENTS>),
    Mirror(MirrorStatus),
    Raid(RaidStatus),
    /// A soft partition has no state.
    Soft,
}

#[derive(Drop)]
pub struct VolumeStatus {
    pub number: VolId,
    pub kind: KindStatus,
}

#[derive(Clone, Copy, Debug, PartialEq, Eq)]
pub enum SpareState {
    Available,
    InUse,
    Broken,
}

/// The one state that a spare has in all pools.
#[derive(Clone, Copy, Debug, PartialEq, Eq)]
pub struct SpareStatus {
    pub slice: SliceName,
    pub state: SpareState,
}

/// What is noted while commands don't change the plan.
#[derive(Drop)]
pub struct Status {
    /// Of each volume of the plan.
    pub volumes: Sorted<VolumeStatus, MAX_VOLUMES>,
    /// Of each spare of the plan's pools, ascending by the name of the slice.
    pub spares: Sorted<SpareStatus, SLICE_CODES>,
}

impl Keyed for VolumeStatus {
    ghost key = { λ v. v.number.0 };

    fn key(&self) -> u32 {
        u32::from(self.number.0)
    }
}

impl Keyed for SpareStatus {
    ghost key = { λ s. spec_slice_code s.slice };

    fn key(&self) -> u32 {
        slice_code(self.slice)
    }
}

// One number for each slice.
pub(crate) fn slice_code(name: SliceName) -> u32
    ensures { result ≡ spec_slice_code name }
{
    let drive = name.drive;
    let code = u32::from(drive.controller) * 65536 + u32::from(drive.target) * 256;
    (code + u32::from(drive.disk)) * 256 + u32::from(name.slice)
}

impl Copied for MirrorStatus {
    fn copied(&self, alloc: Global) -> Result<MirrorStatus, AllocError> {
        Ok(MirrorStatus {
            offline: self.offline.copy(alloc)?,
            dirty: self.dirty.copied(alloc)?,
        })
    }
}

impl Copied for RaidStatus {
    fn copied(&self, alloc: Global) -> Result<RaidStatus, AllocError> {
        Ok(RaidStatus {
            state: self.state,
            columns: self.columns.copy(alloc)?,
        })
    }
}

impl Copied for KindStatus {
    fn copied(&self, alloc: Global) -> Result<KindStatus, AllocError> {
        Ok(match self {
            KindStatus::Stripe(parts) => KindStatus::Stripe(parts.copy(alloc)?),
            KindStatus::Mirror(mirror) => KindStatus::Mirror(mirror.copied(alloc)?),
            KindStatus::Raid(raid) => KindStatus::Raid(raid.copied(alloc)?),
            KindStatus::Soft => KindStatus::Soft,
        })
    }
}

impl Copied for VolumeStatus {
    fn copied(&self, alloc: Global) -> Result<VolumeStatus, AllocError> {
        Ok(VolumeStatus {
            number: self.number,
            kind: self.kind.copied(alloc)?,
        })
    }
}

impl Copied for Status {
    fn copied(&self, alloc: Global) -> Result<Status, AllocError> {
        Ok(Status {
            volumes: self.volumes.copied(alloc)?,
            spares: self.spares.copy(alloc)?,
        })
    }
}
