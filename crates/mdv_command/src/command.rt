use mdv_base::{Block, DriveName, Name, Named, PoolId, SliceName, VolId};
use mdv_name::VolName;
use mdv_parts::{Component, Items, ReplicaOptions};
use mdv_tab::Entry;

/// Which pools of hot spares of a database are meant.
#[derive(Clone, Copy, Debug, PartialEq, Eq)]
pub enum Pools {
    /// `all`
    All,
    One(PoolId),
}

/// A change of a set: `metaset -s SET` and what follows.
#[derive(Drop)]
pub enum SetChange {
    /// `-a -h HOST ..`
    AddHosts(Items<Name>),
    /// `-d -h HOST ..`
    DeleteHosts(Items<Name>),
    /// `-a -m HOST ..`
    AddMediators(Items<Name>),
    /// `-d -m HOST ..`
    DeleteMediators(Items<Name>),
    /// `-a [-l blocks] DRIVE ..`
    AddDrives {
        drives: Items<DriveName>,
        /// Blocks of each replica, 16 to 8192.
        blocks: Option<u16>,
    },
    /// `-d [-f] DRIVE ..`
    DeleteDrives {
        drives: Items<DriveName>,
        force: bool,
    },
    /// `-t [-f]`
    Take {
        force: bool,
    },
    /// `-r`
    Release,
}

/// What a line asks of the engine. The set of a command is that of `-s`, or of its names; None is the
/// local database.
#[derive(Drop)]
pub enum Command {
    /// `metadb`, or with its legend `metadb -i`
    ListReplicas {
        set: Option<Name>,
        legend: bool,
    },
    /// `metadb -a [-f] [-c n] [-l blocks] slice ..`
    AddReplicas {
        slices: Items<SliceName>,
        options: ReplicaOptions,
        force: bool,
    },
    /// `metadb -a [-f] mddbNN`: as that entry of the last `tab` block says.
    AddListed {
        number: u8,
        force: bool,
    },
    /// `metadb -d [-f] slice ..`
    DeleteReplicas {
        slices: Items<SliceName>,
        force: bool,
    },
    /// `metainit -a`: all entries of the last `tab` block.
    MakeAll,
    /// `metainit [-f] NAME`: that entry of the last `tab` block.
    MakeNamed {
        set: Option<Name>,
        named: Named,
        force: bool,
    },
    /// `metainit [-f] ENTRY`: a volume or a pool, never replicas.
    Make {
        entry: Entry,
        force: bool,
    },
    /// `metaclear [-r] [-f] NAME ..`; `-f` changes nothing.
    Clear {
        set: Option<Name>,
        names: Items<Named>,
        /// `-r`: the volumes below as well.
        below: bool,
    },
    /// `metaclear -a [-f]`
    ClearAll {
        set: Option<Name>,
    },
    /// `metattach MIRROR SUB`, or `metattach [-i interlace] STRIPE comp ..`
    Attach {
        volume: VolName,
        components: Items<Component>,
        /// In blocks.
        interlace: Option<u64>,
    },
    /// `metattach SOFT size`: so many blocks more, 1 to 2^40.
    Grow {
        volume: VolName,
        blocks: u64,
    },
    /// `metadetach [-f] MIRROR SUB`
    Detach {
        mirror: VolName,
        submirror: VolId,
        force: bool,
    },
    /// `metaoffline MIRROR SUB`
    Offline {
        mirror: VolName,
        submirror: VolId,
    },
    /// `metaonline MIRROR SUB`
    Online {
        mirror: VolName,
        submirror: VolId,
    },
    /// `metareplace -e VOL comp`
    Enable {
        volume: VolName,
        component: Component,
    },
    /// `metareplace VOL old new`
    Replace {
        volume: VolName,
        old: Component,
        new: Component,
    },
    /// `metahs -a POOL|all slice ..`
    AddSpares {
        set: Option<Name>,
        pools: Pools,
        slices: Items<SliceName>,
    },
    /// `metahs -d POOL|all slice ..`
    DeleteSpares {
        set: Option<Name>,
        pools: Pools,
        slices: Items<SliceName>,
    },
    /// `metahs -r POOL|all old new`
    ReplaceSpare {
        set: Option<Name>,
        pools: Pools,
        old: SliceName,
        new: SliceName,
    },
    /// `metahs -e slice ..`
    EnableSpares {
        set: Option<Name>,
        slices: Items<SliceName>,
    },
    /// `metahs -i [POOL ..]`: all pools where none is named.
    ListPools {
        set: Option<Name>,
        pools: Items<PoolId>,
    },
    /// `metastat [-p] [NAME ..]`: all where none is named.
    Status {
        set: Option<Name>,
        names: Items<Named>,
        /// `-p`: as md.tab text.
        printed: bool,
    },
    /// `metaset [-s SET]`
    ShowSets {
        set: Option<Name>,
    },
    ChangeSet {
        set: Name,
        change: SetChange,
    },
    /// `read VOL AT COUNT`: COUNT blocks of 512 bytes, 1 or more, from block AT of the volume on.
    Read {
        volume: VolName,
        at: u64,
        count: u64,
    },
    /// `write VOL AT HEX`: the block AT; HEX is 1 to 512 pairs of digits, the rest of it is zeros.
    Write {
        volume: VolName,
        at: u64,
        block: Block,
    },
    /// `fill VOL AT COUNT BYTE`: COUNT blocks, 1 or more, each byte of them BYTE.
    Fill {
        volume: VolName,
        at: u64,
        count: u64,
        byte: u8,
    },
    /// `idle N`: any number of steps.
    Idle {
        steps: u64,
    },
}
