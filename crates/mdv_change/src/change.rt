use mdv_base::{PoolId, SliceName, VolId};
use mdv_components::{MAX_NAMES, RaidAsked, RowAsked};
use mdv_plan::{Base, Listed};
use mdv_softs::SoftAsked;
use mdv_spares::Meant;
use mdv_submirrors::MirrorAsked;

/// What a command asks of a table.
#[derive(Drop)]
pub enum Change {
    /// `metainit d10 2 1 c0t0d0s0 2 c0t1d0s0 c0t2d0s0 -i 32b -h hsp001`: a volume of stripes that follow one
    /// another.
    MakeStripe {
        volume: VolId,
        rows: Listed<RowAsked, MAX_NAMES>,
        spares: Option<PoolId>,
    },
    /// `metainit d5 -r c0t0d0s0 c0t1d0s0 c0t2d0s0 -k -i 16b -h hsp001`: a RAID-5 volume.
    MakeRaid {
        volume: VolId,
        raid: RaidAsked,
    },
    /// `metainit d0 -m d10 d20 -g 2`: a mirror. Its size is that of the smallest submirror; the first is
    /// taken as it is, and copied to the others.
    MakeMirror {
        volume: VolId,
        mirror: MirrorAsked,
    },
    /// `metainit d40 -p c0t0d0s0 400b`: a soft partition, whose blocks come from the free ones of its base; or
    /// `metainit d40 -p c0t0d0s0 -o 1 -b 400`, with these extents.
    MakeSoft {
        volume: VolId,
        soft: SoftAsked,
    },
    /// `metattach d0 d30`: one submirror more, to which the others are copied.
    Attach {
        mirror: VolId,
        sub: VolId,
    },
    /// `metadetach d0 d20`: the submirror leaves the mirror; with `-f` also one that isn't all Okay.
    Detach {
        mirror: VolId,
        sub: VolId,
        force: bool,
    },
    /// `metaoffline d0 d20`: the submirror is neither read nor written until it comes back.
    Offline {
        mirror: VolId,
        sub: VolId,
    },
    /// `metaonline d0 d20`: it comes back, and what was written meanwhile is copied to it.
    Online {
        mirror: VolId,
        sub: VolId,
    },
    /// `metareplace -e d0 c0t0d0s0`: the component of a mirror or RAID-5 volume is copied whole again, to its own
    /// base; a spare on which it lay comes free.
    EnablePart {
        volume: VolId,
        part: Base,
    },
    /// `metareplace d0 c0t0d0s0 c0t2d0s0`: the new component comes in the place of the old one, and is copied
    /// whole.
    ReplacePart {
        volume: VolId,
        old: Base,
        new: Base,
    },
    /// `metattach d10 c0t3d0s0 c0t4d0s0 -i 32b`: one stripe more behind those of the volume. Where no interlace
    /// is asked for it has that of the last one.
    AddRow {
        volume: VolId,
        row: RowAsked,
    },
    /// `metattach d40 300b`: so many blocks more for a soft partition.
    Grow {
        volume: VolId,
        blocks: u64,
    },
    /// `metahs -a hsp001 c0t1d0s0`: spares behind those of the pool, which is made where there is none. As a new
    /// pool, `metainit hsp001 c0t1d0s0`, it must not be there yet.
    AddSpares {
        pool: PoolId,
        new: bool,
        spares: Listed<SliceName, MAX_NAMES>,
    },
    /// `metahs -a all c0t1d0s0`: spares behind those of every pool.
    AddSparesToAll {
        spares: Listed<SliceName, MAX_NAMES>,
    },
    /// `metahs -d hsp001 c0t1d0s0`: spares leave the pools that are meant.
    DeleteSpares {
        pools: Meant,
        spares: Listed<SliceName, MAX_NAMES>,
    },
    /// `metahs -r hsp001 c0t1d0s0 c0t2d0s0`: in the pools that are meant the new spare stands in the place of the
    /// old one.
    ReplaceSpare {
        pools: Meant,
        old: SliceName,
        new: SliceName,
    },
    /// `metahs -e c0t1d0s0`: spares that were Broken are Available again.
    EnableSpares {
        spares: Listed<SliceName, MAX_NAMES>,
    },
    /// `metaclear d10 hsp001`: these volumes and pools go, all or none. A use by a volume that goes too
    /// doesn't keep one.
    Clear {
        volumes: Listed<VolId, MAX_NAMES>,
        pools: Listed<PoolId, MAX_NAMES>,
    },
    /// `metaclear -r d10`: the same, and each volume below them goes too that nothing else uses.
    ClearBelow {
        volumes: Listed<VolId, MAX_NAMES>,
        pools: Listed<PoolId, MAX_NAMES>,
    },
    /// `metaclear -a`: all volumes and pools go.
    ClearAll,
}
