//! What a table is like.

use mdv_base::{PoolId, SliceName, VolId};
use mdv_plan::{Base, Component, KindStatus, SpareState, State, Table, VolumeKind};

pub(crate) enum Fact {
    /// Whether there is such a volume.
    Has(VolId, bool),
    /// Whether a volume uses it.
    HasParent(VolId, bool),
    /// Whether a volume that is no soft partition uses it.
    IsTaken(VolId, bool),
    /// Whether a volume has the pool's spares.
    IsPoolNamed(PoolId, bool),
    /// So many volumes, and states of volumes.
    Volumes(usize, usize),
    Pools(usize),
    /// The state of the only component of a stripe; `None` of what is no such stripe.
    StripeState(VolId, Option<State>),
    /// The states of the components of a stripe or RAID-5 volume.
    Parts(VolId, &'static [State]),
    /// The first block and the blocks of the component with this base of a RAID-5 volume, or of a volume of one
    /// stripe.
    PartOn(VolId, Base, u64, u64),
    /// So many stripes, and so many states of components.
    Rows(VolId, usize, usize),
    /// The start and the extents of a soft partition, each as its first block and how many.
    Extents(VolId, u64, &'static [(u64, u64)]),
    /// So many submirrors, so many flags of them, and the blocks of a mirror.
    Submirrors(VolId, usize, usize, u64),
    /// Which submirrors of a mirror are offline.
    Flags(VolId, &'static [bool]),
    /// So many spares have a state, and so many of them are available.
    SpareStates(usize, usize),
    /// The state of the first spare.
    FirstSpare(Option<SpareState>),
    /// The slices of a pool's spares.
    HasSpares(PoolId, &'static [SliceName]),
    /// The first block of the last spare of a pool.
    LastStart(PoolId, u64),
}

pub(crate) fn holds(table: &Table, fact: &Fact) -> bool {
    let (plan, status) = (&table.plan, &table.status);
    match *fact {
        Fact::Has(volume, is) => plan.volumes.find(u32::from(volume.0)).is_some() == is,
        Fact::HasParent(volume, is) => plan.has_parent(volume) == is,
        Fact::IsTaken(volume, is) => plan.is_taken(volume) == is,
        Fact::IsPoolNamed(pool, is) => plan.is_pool_named(pool) == is,
        Fact::Volumes(volumes, states) => {
            plan.volumes.as_slice().len() == volumes && status.volumes.as_slice().len() == states
        }
        Fact::Pools(pools) => plan.pools.as_slice().len() == pools,
        Fact::StripeState(volume, state) => component(table, volume) == state,
        Fact::Parts(volume, states) => has_parts(table, volume, states),
        Fact::PartOn(volume, base, start, blocks) => {
            place(table, volume, base) == Some((start, blocks))
        }
        Fact::Rows(volume, rows, states) => stripes(table, volume) == Some((rows, states)),
        Fact::Extents(volume, start, extents) => has_extents(table, volume, start, extents),
        Fact::Submirrors(volume, subs, flags, blocks) => {
            mirror(table, volume) == Some((subs, flags, blocks))
        }
        Fact::Flags(volume, flags) => has_flags(table, volume, flags),
        Fact::SpareStates(all, free) => spares(table) == (all, free),
        Fact::FirstSpare(state) => first_spare(table) == state,
        Fact::HasSpares(pool, slices) => has_spares(table, pool, slices),
        Fact::LastStart(pool, start) => last_start(table, pool) == Some(start),
    }
}

/// The place of the first that doesn't hold.
pub(crate) fn first_false(table: &Table, facts: &[Fact]) -> Option<usize> {
    for place in 0..facts.len() {
        if !holds(table, &facts[place]) {
            return Some(place);
        }
    }
    None
}

fn component(table: &Table, volume: VolId) -> Option<State> {
    let status = table.status.volumes.find(u32::from(volume.0))?;
    let KindStatus::Stripe(parts) = &status.kind else {
        return None;
    };
    match parts.as_slice() {
        [part] => Some(part.state),
        _ => None,
    }
}

fn has_parts(table: &Table, volume: VolId, states: &[State]) -> bool {
    let parts = match table.status.volumes.find(u32::from(volume.0)) {
        Some(status) => match &status.kind {
            KindStatus::Stripe(parts) => parts.as_slice(),
            KindStatus::Raid(raid) => raid.columns.as_slice(),
            _ => return false,
        },
        None => return false,
    };
    let same = parts
        .iter()
        .zip(states)
        .all(|(part, state)| part.state == *state);
    parts.len() == states.len() && same
}

fn components(table: &Table, volume: VolId) -> Option<&[Component]> {
    match &table.plan.volumes.find(u32::from(volume.0))?.kind {
        VolumeKind::Stripe(stripe) => Some(stripe.rows.as_slice().first()?.components.as_slice()),
        VolumeKind::Raid(raid) => Some(raid.columns.as_slice()),
        _ => None,
    }
}

fn place(table: &Table, volume: VolId, base: Base) -> Option<(u64, u64)> {
    let components = components(table, volume)?;
    let found = components.iter().find(|component| component.on == base)?;
    Some((found.start, found.blocks))
}

fn mirror(table: &Table, volume: VolId) -> Option<(usize, usize, u64)> {
    let number = u32::from(volume.0);
    let volume = table.plan.volumes.find(number)?;
    let status = table.status.volumes.find(number)?;
    match (&volume.kind, &status.kind) {
        (VolumeKind::Mirror(mirror), KindStatus::Mirror(status)) => Some((
            mirror.submirrors.as_slice().len(),
            status.offline.as_slice().len(),
            mirror.blocks,
        )),
        _ => None,
    }
}

fn has_flags(table: &Table, volume: VolId, flags: &[bool]) -> bool {
    match table.status.volumes.find(u32::from(volume.0)) {
        Some(status) => match &status.kind {
            KindStatus::Mirror(mirror) => mirror.offline.as_slice() == flags,
            _ => false,
        },
        None => false,
    }
}

fn stripes(table: &Table, volume: VolId) -> Option<(usize, usize)> {
    let number = u32::from(volume.0);
    let volume = table.plan.volumes.find(number)?;
    let status = table.status.volumes.find(number)?;
    match (&volume.kind, &status.kind) {
        (VolumeKind::Stripe(stripe), KindStatus::Stripe(parts)) => {
            Some((stripe.rows.as_slice().len(), parts.as_slice().len()))
        }
        _ => None,
    }
}

fn has_extents(table: &Table, volume: VolId, start: u64, extents: &[(u64, u64)]) -> bool {
    match table.plan.volumes.find(u32::from(volume.0)) {
        Some(volume) => match &volume.kind {
            VolumeKind::Soft(soft) => {
                let runs = soft.extents.as_slice();
                let same = runs
                    .iter()
                    .zip(extents)
                    .all(|(run, e)| (run.at, run.blocks) == *e);
                soft.start == start && runs.len() == extents.len() && same
            }
            _ => false,
        },
        None => false,
    }
}

fn spares(table: &Table) -> (usize, usize) {
    let spares = table.status.spares.as_slice();
    let free = spares.iter().filter(|s| s.state == SpareState::Available);
    (spares.len(), free.count())
}

fn first_spare(table: &Table) -> Option<SpareState> {
    Some(table.status.spares.as_slice().first()?.state)
}

fn has_spares(table: &Table, pool: PoolId, slices: &[SliceName]) -> bool {
    match table.plan.pools.find(u32::from(pool.0)) {
        Some(pool) => {
            let spares = pool.spares.as_slice();
            let same = spares
                .iter()
                .zip(slices)
                .all(|(spare, s)| spare.slice == *s);
            spares.len() == slices.len() && same
        }
        None => false,
    }
}

fn last_start(table: &Table, pool: PoolId) -> Option<u64> {
    let pool = table.plan.pools.find(u32::from(pool.0))?;
    Some(pool.spares.as_slice().last()?.start)
}
