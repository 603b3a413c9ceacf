//! The status changes that devices and commands make between two changes of the plan.

use mdv_base::{SliceName, VolId};
use mdv_plan::{Resync, SpareUse};

/// A component of a volume of stripes, counted over all its rows, or a column of a RAID-5 volume. Of a
/// mirror, the volume is the submirror that has the component.
#[derive(Clone, Copy, Debug, PartialEq, Eq)]
pub struct PartAt {
    pub volume: VolId,
    /// From 0 on.
    pub place: u8,
}

/// What is noted of a component, and in the same note of the spares that it leaves or takes.
#[derive(Clone, Copy, Debug, PartialEq, Eq)]
pub enum PartNote {
    /// Its resync is done. It goes on lying where it lies.
    Okay,
    /// It is copied, whole or the dirty regions of its mirror alone. It goes on lying where it lies.
    Resyncing(Resync),
    /// It failed, and no spare is taken: it is in Maintenance. The spare on which it lay is Broken.
    Failed,
    /// It failed, and is copied whole to this spare, which is in use. The one on which it lay is Broken.
    Spared(SpareUse),
    /// It failed where no other copy stands: it is Last Erred, and keeps its spare.
    LastErred,
    /// It is put right (`metareplace -e`), and copied whole to its own slice. The spare on which it lay is
    /// Available.
    Enabled,
}

/// Regions of a mirror that follow one another. Those from 1024 on aren't there.
#[derive(Clone, Copy, Debug, PartialEq, Eq)]
pub struct RegionRange {
    pub first: u16,
    pub count: u16,
}

/// One status change. It changes no plan.
#[derive(Clone, Copy, Debug, PartialEq, Eq)]
pub enum Note {
    /// Of one component, and of the spares that it leaves or takes.
    Part(PartAt, PartNote),
    /// The spare failed before a component lay on it.
    SpareBroken(SliceName),
    /// The spare is put right (`metahs -e`), or free again.
    SpareAvailable(SliceName),
    /// Blocks of these regions of the mirror are about to be written: all new ones of a write in one note.
    RegionsDirty(VolId, RegionRange),
    /// The mirror's copies agree on these regions.
    RegionsClean(VolId, RegionRange),
    /// The submirror of the mirror, which is the first of the two, is written no more (`metaoffline`).
    SubOffline(VolId, VolId),
    /// It is written again (`metaonline`): what was written meanwhile is copied to its components.
    SubOnline(VolId, VolId),
    /// The RAID-5 volume is no longer Initializing.
    RaidOkay(VolId),
}
