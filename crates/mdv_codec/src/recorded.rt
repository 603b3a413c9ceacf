use mdv_base::{PoolId, VolId};
use mdv_extent::{MAX_EXTENTS, Run};
use mdv_plan::{
    Base, Component, Listed, Lists, MAX_COLUMNS, MAX_COMPONENTS, MAX_PENDING, MAX_POOLS,
    MAX_SPARES, MAX_SUBMIRRORS, MAX_VOLUMES, PartStatus, Pending, RaidState, ReadOption, Regions,
    SetData, Spare, SpareState, WriteOption,
};

/// A component and its state.
#[derive(Drop)]
pub struct RecordedPart {
    pub component: Component,
    pub status: PartStatus,
}

/// A submirror and whether it is offline.
#[derive(Drop)]
pub struct RecordedSubmirror {
    pub volume: VolId,
    pub offline: bool,
}

/// A spare and its state.
#[derive(Drop)]
pub struct RecordedSpare {
    pub spare: Spare,
    pub state: SpareState,
}

/// A stripe, each component with its state.
#[derive(Drop)]
pub struct RecordedRow {
    pub interlace: u32,
    pub parts: Listed<RecordedPart, MAX_COMPONENTS>,
}

#[derive(Drop)]
pub struct RecordedStripe {
    pub spares: Option<PoolId>,
    pub rows: Listed<RecordedRow, MAX_COMPONENTS>,
}

/// How a mirror is read and written, and in which pass it is resynced, 1 to 9.
#[derive(Drop)]
pub struct RecordedOptions {
    pub read: ReadOption,
    pub write: WriteOption,
    pub pass: u8,
}

/// A mirror, each submirror with whether it is offline.
#[derive(Drop)]
pub struct RecordedMirror {
    pub options: RecordedOptions,
    pub submirrors: Listed<RecordedSubmirror, MAX_SUBMIRRORS>,
    pub blocks: u64,
    pub dirty: Regions,
}

/// The columns of a RAID-5 volume with their states.
#[derive(Drop)]
pub struct RecordedColumns {
    pub units: u64,
    pub state: RaidState,
    pub parts: Listed<RecordedPart, MAX_COLUMNS>,
}

#[derive(Drop)]
pub struct RecordedRaid {
    pub spares: Option<PoolId>,
    pub interlace: u32,
    pub columns: RecordedColumns,
}

#[derive(Drop)]
pub struct RecordedSoft {
    pub base: Base,
    pub start: u64,
    pub extents: Listed<Run, MAX_EXTENTS>,
}

#[derive(Drop)]
pub enum RecordedKind {
    Stripe(RecordedStripe),
    Mirror(RecordedMirror),
    Raid(RecordedRaid),
    Soft(RecordedSoft),
}

/// A volume with all its states.
#[derive(Drop)]
pub struct RecordedVolume {
    pub number: VolId,
    pub kind: RecordedKind,
}

/// A pool, each spare with its state.
#[derive(Drop)]
pub struct RecordedPool {
    pub number: PoolId,
    pub spares: Listed<RecordedSpare, MAX_SPARES>,
}

/// What a record says before the pools: where the replicas lie, the set, and the pending sets, which ascend.
#[derive(Drop)]
pub struct RecordedFront {
    pub lists: Lists,
    pub set: SetData,
    pub pending: Listed<Pending, MAX_PENDING>,
}

/// All that a record says. Pools and volumes ascend.
#[derive(Drop)]
pub struct Recorded {
    pub front: RecordedFront,
    pub pools: Listed<RecordedPool, MAX_POOLS>,
    pub volumes: Listed<RecordedVolume, MAX_VOLUMES>,
}
