use crate::listed::{Copied, Listed};
use crate::sorted::Keyed;
use mdv_base::{PoolId, SliceName, VolId};
use mdv_extent::{MAX_EXTENTS, Run};
use std::alloc::{AllocError, Global};

/// The numbers of volumes are below this one, so a database has at most so many.
pub const MAX_VOLUMES: usize = 8192;

/// The most components of a stripe volume, over all its rows.
pub const MAX_COMPONENTS: usize = 100;

/// The most submirrors of a mirror.
pub const MAX_SUBMIRRORS: usize = 4;

/// The most columns of a RAID-5 volume.
pub const MAX_COLUMNS: usize = 32;

/// What a component or a soft partition lies on.
#[derive(Clone, Copy, Debug, PartialEq, Eq)]
pub enum Base {
    Slice(SliceName),
    Volume(VolId),
}

/// The blocks of one base that a volume uses.
#[derive(Clone, Copy, Debug, PartialEq, Eq)]
pub struct Component {
    pub on: Base,
    /// Its first block, counted in the base.
    pub start: u64,
    /// How many blocks are used from there on.
    pub blocks: u64,
}

/// One stripe. Its width is the number of its components.
#[derive(Drop)]
pub struct Row {
    /// How many blocks of a component follow each other before the next component's.
    pub interlace: u32,
    pub components: Listed<Component, MAX_COMPONENTS>,
}

/// Stripes that follow one another. One stripe alone is a striped volume; several, of width 1, a
/// concatenation.
#[derive(Drop)]
pub struct Stripe {
    pub rows: Listed<Row, MAX_COMPONENTS>,
    /// The pool from which failed components are replaced.
    pub spares: Option<PoolId>,
}

/// From which submirror a mirror is read.
#[derive(Clone, Copy, Debug, PartialEq, Eq)]
pub enum ReadOption {
    InTurn,
    Geometric,
    First,
}

/// How a mirror's submirrors are written.
#[derive(Clone, Copy, Debug, PartialEq, Eq)]
pub enum WriteOption {
    Parallel,
    Serial,
}

#[derive(Drop)]
pub struct Mirror {
    pub submirrors: Listed<VolId, MAX_SUBMIRRORS>,
    pub read: ReadOption,
    pub write: WriteOption,
    /// 1 to 9.
    pub pass: u8,
    /// The size, which stays when a smaller submirror is taken away.
    pub blocks: u64,
}

#[derive(Drop)]
pub struct Raid {
    pub columns: Listed<Component, MAX_COLUMNS>,
    /// How many blocks of a column follow each other before the next column's.
    pub interlace: u32,
    /// How many times the interlace each column holds.
    pub units: u64,
    pub spares: Option<PoolId>,
}

/// A soft partition: its extents, in order, are runs of the base's blocks.
#[derive(Drop)]
pub struct Soft {
    pub base: Base,
    /// The block of the base from which the extents are counted; not 0 only on a slice.
    pub start: u64,
    pub extents: Listed<Run, MAX_EXTENTS>,
}

#[derive(Drop)]
pub enum VolumeKind {
    Stripe(Stripe),
    Mirror(Mirror),
    Raid(Raid),
    Soft(Soft),
}

/// A volume by its number.
#[derive(Drop)]
pub struct Volume {
    pub number: VolId,
    pub kind: VolumeKind,
}

impl Keyed for Volume {
    ghost key = { λ v. v.number.0 };

    fn key(&self) -> u32 {
        u32::from(self.number.0)
    }
}

impl Copied for Row {
    fn copied(&self, alloc: Global) -> Result<Row, AllocError> {
        Ok(Row {
            interlace: self.interlace,
            components: self.components.copy(alloc)?,
        })
    }
}

impl Copied for Stripe {
    fn copied(&self, alloc: Global) -> Result<Stripe, AllocError> {
        Ok(Stripe {
            rows: self.rows.copied(alloc)?,
            spares: self.spares,
        })
    }
}

impl Copied for Mirror {
    fn copied(&self, alloc: Global) -> Result<Mirror, AllocError> {
        Ok(Mirror {
            submirrors: self.submirrors.copy(alloc)?,
            read: self.read,
            write: self.write,
            pass: self.pass,
            blocks: self.blocks,
        })
    }
}

impl Copied for Raid {
    fn copied(&self, alloc: Global) -> Result<Raid, AllocError> {
        Ok(Raid {
            columns: self.columns.copy(alloc)?,
            interlace: self.interlace,
            units: self.units,
            spares: self.spares,
        })
    }
}

impl Copied for Soft {
    fn copied(&self, alloc: Global) -> Result<Soft, AllocError> {
        Ok(Soft {
            base: self.base,
            start: self.start,
            extents: self.extents.copy(alloc)?,
        })
    }
}

impl Copied for VolumeKind {
    fn copied(&self, alloc: Global) -> Result<VolumeKind, AllocError> {
        Ok(match self {
            VolumeKind::Stripe(stripe) => VolumeKind::Stripe(stripe.copied(alloc)?),
            VolumeKind::Mirror(mirror) => VolumeKind::Mirror(mirror.copied(alloc)?),
            VolumeKind::Raid(raid) => VolumeKind::Raid(raid.copied(alloc)?),
            VolumeKind::Soft(soft) => VolumeKind::Soft(soft.copied(alloc)?),
        })
    }
}

impl Copied for Volume {
    fn copied(&self, alloc: Global) -> Result<Volume, AllocError> {
        Ok(Volume {
            number: self.number,
            kind: self.kind.copied(alloc)?,
        })
    }
}
