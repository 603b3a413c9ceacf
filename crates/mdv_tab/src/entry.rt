use mdv_base::{PoolId, SliceName, VolId};
use mdv_name::{PoolName, VolName};
use mdv_parts::{Component, Items, ReplicaOptions};

/// An entry of an md.tab. All its names have the set of the first one.
#[derive(Drop)]
pub enum Entry {
    /// `NAME numstripes`, and then each stripe, and `-h POOL`.
    Stripe {
        name: VolName,
        rows: Items<Row>,
        spares: Option<PoolId>,
    },
    /// `NAME -m sub ..` and its options.
    Mirror {
        name: VolName,
        submirrors: Items<VolId>,
        options: MirrorOptions,
        /// 1 to 9.
        pass: u8,
    },
    /// `NAME -r comp ..` and its options.
    Raid {
        name: VolName,
        columns: Items<Component>,
        options: RaidOptions,
    },
    /// `NAME -p base`, and its room there.
    Soft {
        name: VolName,
        base: Component,
        room: Room,
    },
    /// `hspNNN slice ..`, or without slices.
    Pool {
        name: PoolName,
        slices: Items<SliceName>,
    },
    /// `mddbNN slice ..` and its options.
    Replicas {
        number: u8,
        options: ReplicaOptions,
        slices: Items<SliceName>,
    },
}

/// A stripe of a volume: `width comp ..`, and `-i SIZE`. Its width is the number of its components.
#[derive(Drop)]
pub struct Row {
    pub components: Items<Component>,
    /// In blocks.
    pub interlace: Option<u64>,
}

/// From which submirror a mirror is read: in turn where nothing is said.
#[derive(Clone, Copy, Debug, PartialEq, Eq)]
pub enum ReadFrom {
    /// `-g`
    Geometric,
    /// `-r`
    First,
}

/// The options of a mirror.
#[derive(Clone, Copy, Debug, PartialEq, Eq)]
pub struct MirrorOptions {
    pub read: Option<ReadFrom>,
    /// `-S`
    pub serial: bool,
}

/// The options of a RAID-5 volume.
#[derive(Clone, Copy, Debug, PartialEq, Eq)]
pub struct RaidOptions {
    /// `-i SIZE`, in blocks.
    pub interlace: Option<u64>,
    /// `-h POOL`
    pub spares: Option<PoolId>,
    /// `-k`
    pub keep: bool,
}

/// Where a soft partition lies on its base.
#[derive(Drop)]
pub enum Room {
    /// So many blocks, 1 to 2^40, wherever there is room.
    Size(u64),
    /// `-o number -b number`, one or more.
    Extents(Items<Extent>),
}

/// So many blocks of the base from this one on.
#[derive(Clone, Copy, Debug, PartialEq, Eq)]
pub struct Extent {
    pub offset: u64,
    pub blocks: u64,
}
