//! Tables by hand, and what a table says.
ghost use Rattle.std.specs.Prelude.{◌<◌};

use mdv_base::{DriveName, Place, Places, SliceName, VolId};
use mdv_extent::Run;
use mdv_plan::*;
use std::alloc::Global;
use std::test::Fail;

const fn slice(slice: u8) -> SliceName {
    SliceName {
        drive: DriveName {
            controller: 0,
            target: 0,
            disk: 0,
        },
        slice,
    }
}

// A place of 16 blocks at block 16 of c0t0d0s7, and nothing else.
pub(crate) fn empty(alloc: Global) -> Table {
    let mut places = Places::new();
    places.push(Place {
        slice: slice(7),
        start: 16,
        blocks: 16,
    });
    Table::empty(alloc, places)
}

/// So many soft partitions on c0t0d0s3, each of 16 extents of one block.
pub(crate) fn soft_partitions(alloc: Global, count: u16) -> Result<Table, Fail>
    requires { count < 8192 }
{
    let mut table = empty(alloc);
    for number in 0..count {
        add_soft(alloc, &mut table, VolId(number))?;
    }
    Ok(table)
}

fn add_soft(alloc: Global, table: &mut Table, number: VolId) -> Result<(), Fail>
    requires { number.0 < 8192 }
{
    let soft = Soft {
        base: Base::Slice(slice(3)),
        start: 0,
        extents: Listed::from_slice(alloc, &[Run { at: 1, blocks: 1 }; 16])?,
    };
    let kind = VolumeKind::Soft(soft);
    table.plan.volumes.put(Volume { number, kind })?;
    let kind = KindStatus::Soft;
    table.status.volumes.put(VolumeStatus { number, kind })?;
    Ok(())
}

// The first and the last byte of a mirror's regions, and whether its second submirror is offline.
pub(crate) fn mirror_noted(table: &Table) -> Option<(u8, u8, bool)> {
    match &table.status.volumes.find(0)?.kind {
        KindStatus::Mirror(mirror) => {
            let dirty = mirror.dirty.as_slice();
            let offline = mirror.offline.as_slice().last()?;
            Some((*dirty.first()?, *dirty.last()?, *offline))
        }
        _ => None,
    }
}

// The state of a volume's second component.
pub(crate) fn second_noted(table: &Table, volume: u32) -> Option<PartStatus> {
    let states = match &table.status.volumes.find(volume)?.kind {
        KindStatus::Stripe(states) => states.as_slice(),
        KindStatus::Raid(raid) => raid.columns.as_slice(),
        _ => &[],
    };
    states.get(1).copied()
}

// The spare on which the second column of d5 lies.
pub(crate) const SPARED: PartStatus = PartStatus {
    state: State::Maintenance,
    spare: Some(SpareUse {
        slice: SliceName {
            drive: DriveName {
                controller: 0,
                target: 2,
                disk: 0,
            },
            slice: 4,
        },
        start: 0,
    }),
};

pub(crate) const COPIED: PartStatus = PartStatus {
    state: State::Resyncing(Resync::Regions),
    spare: None,
};
