//! What the lines of a test ask of a table, and what they are told.
ghost use Rattle.std.specs.Prelude.{◌<◌, IfOk};
ghost use Rattle.mdv_change.specs.Apply.{IsNumbered};

use crate::drives::{drives, empty, replica};
use crate::facts::{Fact, holds};
use mdv_base::{DriveNo, PoolId, Refusal, SliceName, StateWord, VolId};
use mdv_change::{ApplyFault, Change, apply};
use mdv_components::{MAX_NAMES, RaidAsked, RowAsked};
use mdv_extent::Run;
use mdv_plan::*;
use mdv_softs::{RoomAsked, SoftAsked};
use mdv_spares::Meant;
use mdv_submirrors::MirrorAsked;
use std::alloc::Global;
use std::test::Fail;

/// A change of volumes and pools by their numbers.
pub(crate) enum Step {
    /// One row, with this interlace.
    Stripe(u8, &'static [Base], Option<u64>),
    /// With the spares of this pool.
    Raid(u8, &'static [Base], Option<PoolId>),
    Mirror(u8, &'static [VolId]),
    Attach(VolId, VolId),
    /// With `-f` or without.
    Detach(VolId, VolId, bool),
    Offline(VolId, VolId),
    Online(VolId, VolId),
    Enable(VolId, Base),
    /// The second component comes in the place of the first.
    Replace(VolId, Base, Base),
    MakeSoft(u8, Base, u64),
    /// With these extents.
    GiveSoft(u8, Base, &'static [Run]),
    Grow(VolId, u64),
    /// One stripe more, with this interlace.
    AddRow(VolId, &'static [Base], Option<u64>),
    NewPool(u8, &'static [SliceName]),
    Spares(u8, &'static [SliceName]),
    SparesToAll(&'static [SliceName]),
    DeleteSpares(Meant, &'static [SliceName]),
    /// The second slice comes in the place of the first.
    ReplaceSpare(Meant, SliceName, SliceName),
    EnableSpares(&'static [SliceName]),
    Clear(&'static [VolId], &'static [PoolId]),
    /// And what lies below the volumes.
    ClearBelow(&'static [VolId]),
    ClearAll,
}

pub(crate) enum Line {
    /// The change is refused by this number, or made: 0.
    Told(Step, u8),
    /// It is refused, since there are only so many blocks.
    Short(Step, u64),
    /// It is refused for this state.
    Held(Step, StateWord),
    Is(Fact),
    /// From here on the components of a stripe are in these states.
    In(VolId, &'static [State]),
    /// From here on the columns of a RAID-5 volume that is made are in these states.
    Columns(VolId, &'static [State]),
    /// From here on the only component of a stripe lies on the spare, and is in this state.
    Lies(VolId, SliceName, State),
    /// From here on a region of the mirror is dirty.
    Dirty(VolId),
    /// From here on there is a soft partition on a volume.
    Soft(u8, VolId),
    /// From here on the spare is in use.
    InUse(SliceName),
    /// From here on the spare is broken.
    Broken(SliceName),
    /// From here on the only column of a RAID-5 volume lies on the spare.
    OnSpare(u8, SliceName),
    /// From here on the replica has so many blocks.
    Replica(u32),
}

/// The place of the first line that isn't so, where the first one finds an empty table.
pub(crate) fn first_wrong(alloc: Global, lines: &[Line]) -> Result<Option<usize>, Fail> {
    let mut table = empty(alloc);
    for place in 0..lines.len() {
        if !is_so(alloc, &mut table, &lines[place])? {
            return Ok(Some(place));
        }
    }
    Ok(None)
}

fn is_so(alloc: Global, table: &mut Table, line: &Line) -> Result<bool, Fail> {
    match line {
        Line::Told(step, refusal) => Ok(told(alloc, table, step)? == *refusal),
        Line::Short(step, blocks) => Ok(
            outcome(alloc, table, step)? == Err(ApplyFault::Refused(Refusal::NoSpace(*blocks))),
        ),
        Line::Held(step, state) => Ok(
            outcome(alloc, table, step)? == Err(ApplyFault::Refused(Refusal::WrongState(*state))),
        ),
        Line::Is(fact) => Ok(holds(table, fact)),
        Line::In(stripe, states) => note_states(alloc, table, *stripe, states),
        Line::Columns(raid, states) => note_columns(alloc, table, *raid, states),
        Line::Lies(stripe, spare, state) => note_lying(alloc, table, *stripe, *spare, *state),
        Line::Dirty(mirror) => note_dirty(alloc, table, *mirror),
        Line::Soft(number, base) => add_soft(alloc, table, *number, *base),
        Line::InUse(spare) => note_spare(table, *spare, SpareState::InUse),
        Line::Broken(spare) => note_spare(table, *spare, SpareState::Broken),
        Line::Replica(blocks) => set_replica(table, *blocks),
        Line::OnSpare(number, spare) => lay_on_spare(alloc, table, *number, *spare),
    }
}

// The number of the refusal, or 0 where the change was made.
fn told(alloc: Global, table: &mut Table, step: &Step) -> Result<u8, Fail> {
    Ok(match outcome(alloc, table, step)? {
        Ok(()) => 0,
        Err(ApplyFault::Refused(refusal)) => refusal.number(),
        Err(ApplyFault::Memory) => Refusal::OutOfMemory.number(),
    })
}

// The drive of hostA is number 0.
fn outcome(alloc: Global, table: &mut Table, step: &Step) -> Result<Result<(), ApplyFault>, Fail> {
    let geometry = drives(alloc)?;
    let change = change_of(alloc, step)?;
    Ok(apply(alloc, &geometry, &[DriveNo(0)], table, &change))
}

fn change_of(alloc: Global, step: &Step) -> Result<Change, Fail>
    ensures { IfOk result IsNumbered }
{
    Ok(match *step {
        Step::Stripe(number, bases, interlace) => Change::MakeStripe {
            volume: volume(number),
            rows: one_row(alloc, bases, interlace)?,
            spares: None,
        },
        Step::Raid(number, bases, spares) => Change::MakeRaid {
            volume: volume(number),
            raid: raid(alloc, bases, spares)?,
        },
        Step::Mirror(number, subs) => Change::MakeMirror {
            volume: volume(number),
            mirror: mirror(alloc, subs)?,
        },
        Step::Attach(mirror, sub) => Change::Attach { mirror, sub },
        Step::Detach(mirror, sub, force) => Change::Detach { mirror, sub, force },
        Step::Offline(mirror, sub) => Change::Offline { mirror, sub },
        Step::Online(mirror, sub) => Change::Online { mirror, sub },
        Step::Enable(volume, part) => Change::EnablePart { volume, part },
        Step::Replace(volume, old, new) => Change::ReplacePart { volume, old, new },
        Step::MakeSoft(number, base, blocks) => Change::MakeSoft {
            volume: volume(number),
            soft: SoftAsked {
                base,
                room: RoomAsked::Blocks(blocks),
            },
        },
        Step::GiveSoft(number, base, runs) => Change::MakeSoft {
            volume: volume(number),
            soft: SoftAsked {
                base,
                room: RoomAsked::Extents(listed(alloc, runs)?),
            },
        },
        Step::Grow(volume, blocks) => Change::Grow { volume, blocks },
        Step::AddRow(volume, bases, interlace) => Change::AddRow {
            volume,
            row: row(alloc, bases, interlace)?,
        },
        Step::NewPool(number, slices) => Change::AddSpares {
            pool: pool(number),
            new: true,
            spares: listed(alloc, slices)?,
        },
        Step::Spares(number, slices) => Change::AddSpares {
            pool: pool(number),
            new: false,
            spares: listed(alloc, slices)?,
        },
        Step::SparesToAll(slices) => Change::AddSparesToAll {
            spares: listed(alloc, slices)?,
        },
        Step::DeleteSpares(pools, slices) => Change::DeleteSpares {
            pools,
            spares: listed(alloc, slices)?,
        },
        Step::ReplaceSpare(pools, old, new) => Change::ReplaceSpare { pools, old, new },
        Step::EnableSpares(slices) => Change::EnableSpares {
            spares: listed(alloc, slices)?,
        },
        Step::ClearBelow(volumes) => Change::ClearBelow {
            volumes: listed(alloc, volumes)?,
            pools: Listed::new(alloc),
        },
        Step::Clear(volumes, pools) => Change::Clear {
            volumes: listed(alloc, volumes)?,
            pools: listed(alloc, pools)?,
        },
        Step::ClearAll => Change::ClearAll,
    })
}

fn volume(number: u8) -> VolId
    ensures { result.0 < 8192 }
{
    VolId(u16::from(number))
}

fn pool(number: u8) -> PoolId
    ensures { result.0 < 1000 }
{
    PoolId(u16::from(number))
}

fn listed<T: Copy + Drop>(alloc: Global, items: &[T]) -> Result<Listed<T, MAX_NAMES>, Fail> {
    if items.len() > MAX_NAMES {
        Err::<(), _>("too many")?;
    }
    Ok(Listed::from_slice(alloc, items)?)
}

fn one_row(
    alloc: Global,
    bases: &[Base],
    interlace: Option<u64>,
) -> Result<Listed<RowAsked, MAX_NAMES>, Fail> {
    let mut rows = Listed::new(alloc);
    rows.push(row(alloc, bases, interlace)?)?;
    Ok(rows)
}

fn row(alloc: Global, bases: &[Base], interlace: Option<u64>) -> Result<RowAsked, Fail> {
    Ok(RowAsked {
        components: listed(alloc, bases)?,
        interlace,
    })
}

fn raid(alloc: Global, bases: &[Base], spares: Option<PoolId>) -> Result<RaidAsked, Fail> {
    Ok(RaidAsked {
        columns: listed(alloc, bases)?,
        interlace: Some(16),
        spares,
        keep: false,
    })
}

fn mirror(alloc: Global, subs: &[VolId]) -> Result<MirrorAsked, Fail> {
    Ok(MirrorAsked {
        submirrors: listed(alloc, subs)?,
        read: ReadOption::Geometric,
        write: WriteOption::Parallel,
        pass: 2,
    })
}

fn add_soft(alloc: Global, table: &mut Table, number: u8, base: VolId) -> Result<bool, Fail> {
    let soft = Soft {
        base: Base::Volume(base),
        start: 0,
        extents: Listed::from_slice(alloc, &[Run { at: 1, blocks: 9 }])?,
    };
    table.plan.volumes.put(Volume {
        number: volume(number),
        kind: VolumeKind::Soft(soft),
    })?;
    Ok(true)
}

fn note_spare(table: &mut Table, slice: SliceName, state: SpareState) -> Result<bool, Fail> {
    table.status.spares.put(SpareStatus { slice, state })?;
    Ok(true)
}

fn set_replica(table: &mut Table, blocks: u32) -> Result<bool, Fail> {
    table.plan.lists = Lists::One(replica(blocks));
    Ok(true)
}

fn lay_on_spare(
    alloc: Global,
    table: &mut Table,
    number: u8,
    slice: SliceName,
) -> Result<bool, Fail> {
    let part = PartStatus {
        state: State::Okay,
        spare: Some(SpareUse { slice, start: 0 }),
    };
    let raid = RaidStatus {
        state: RaidState::Okay,
        columns: Listed::from_slice(alloc, &[part])?,
    };
    table.status.volumes.put(VolumeStatus {
        number: volume(number),
        kind: KindStatus::Raid(raid),
    })?;
    Ok(true)
}

fn note_states(
    alloc: Global,
    table: &mut Table,
    stripe: VolId,
    states: &[State],
) -> Result<bool, Fail> {
    let mut parts = Vec::new(alloc);
    for state in states {
        parts.push(PartStatus {
            state: *state,
            spare: None,
        })?;
    }
    if parts.len() > MAX_COMPONENTS {
        return Ok(false);
    }
    table.status.volumes.replace(VolumeStatus {
        number: stripe,
        kind: KindStatus::Stripe(Listed::from_slice(alloc, parts.as_slice())?),
    });
    Ok(true)
}

fn note_columns(
    alloc: Global,
    table: &mut Table,
    raid: VolId,
    states: &[State],
) -> Result<bool, Fail> {
    let mut columns = Vec::new(alloc);
    for state in states {
        columns.push(PartStatus {
            state: *state,
            spare: None,
        })?;
    }
    if columns.len() > MAX_COLUMNS {
        return Ok(false);
    }
    table.status.volumes.replace(VolumeStatus {
        number: raid,
        kind: KindStatus::Raid(RaidStatus {
            state: RaidState::Okay,
            columns: Listed::from_slice(alloc, columns.as_slice())?,
        }),
    });
    Ok(true)
}

fn note_lying(
    alloc: Global,
    table: &mut Table,
    stripe: VolId,
    slice: SliceName,
    state: State,
) -> Result<bool, Fail> {
    let part = PartStatus {
        state,
        spare: Some(SpareUse { slice, start: 0 }),
    };
    table.status.volumes.replace(VolumeStatus {
        number: stripe,
        kind: KindStatus::Stripe(Listed::from_slice(alloc, &[part])?),
    });
    Ok(true)
}

// Of a mirror of two submirrors, the second offline.
fn note_dirty(alloc: Global, table: &mut Table, mirror: VolId) -> Result<bool, Fail> {
    table.status.volumes.replace(VolumeStatus {
        number: mirror,
        kind: KindStatus::Mirror(MirrorStatus {
            offline: Listed::from_slice(alloc, &[false, true])?,
            dirty: Regions::from_slice(alloc, &[1; 128])?,
        }),
    });
    Ok(true)
}
