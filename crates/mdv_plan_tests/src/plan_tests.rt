//! A table by hand, and what it says of its volumes and slices.
ghost use Rattle.std.specs.Prelude.{◌<◌};
ghost use Rattle.mdv_plan.specs.Slices.{IsSound};

use crate::drives::*;
use crate::facts::Fact::{self, *};
use crate::facts::first_false;
use mdv_base::{SliceName, VolId};
use mdv_extent::Run;
use mdv_name::Geometry;
use mdv_plan::*;
use std::alloc::Global;
use std::test::Fail;

fn part(on: Base) -> Component {
    Component {
        on,
        start: 0,
        blocks: 900,
    }
}

fn add(table: &mut Table, number: u16, kind: VolumeKind) -> Result<(), Fail>
    requires { number < 8192 }
{
    if table.plan.volumes.find(u32::from(number)).is_some() {
        Err::<(), _>("taken")?;
    }
    let number = VolId(number);
    table.plan.volumes.insert(Volume { number, kind })?;
    Ok(())
}

// A column on slice 1, and one on the soft partition d1.
fn add_raid(alloc: Global, table: &mut Table) -> Result<(), Fail> {
    let columns = [part(Base::Slice(S1)), part(Base::Volume(VOL1))];
    let columns = Listed::from_slice(alloc, &columns)?;
    let raid = Raid {
        columns,
        interlace: 16,
        units: 47,
        spares: Some(HSP1),
    };
    add(table, 5, VolumeKind::Raid(raid))
}

fn add_soft(alloc: Global, table: &mut Table) -> Result<(), Fail> {
    let extents = [
        Run { at: 1, blocks: 400 },
        Run {
            at: 402,
            blocks: 600,
        },
    ];
    let soft = Soft {
        base: Base::Slice(S3),
        start: 0,
        extents: Listed::from_slice(alloc, &extents)?,
    };
    add(table, 1, VolumeKind::Soft(soft))
}

fn add_pool(alloc: Global, table: &mut Table) -> Result<(), Fail> {
    let spare = Spare {
        slice: S6,
        start: 0,
        blocks: 900,
    };
    let spares = Listed::from_slice(alloc, &[spare])?;
    if table.plan.pools.find(1).is_some() {
        Err::<(), _>("taken")?;
    }
    let number = HSP1;
    table.plan.pools.insert(Pool { number, spares })?;
    Ok(())
}

const BOTH: &[Fact] = &[
    Has(VOL1, true),
    Has(VOL5, true),
    Has(VOL0, false),
    Has(VolId(8191), false),
    HasParent(VOL1, true),
    IsTaken(VOL1, true),
    HasParent(VOL5, false),
    IsPoolNamed(HSP1, true),
];

const NO_RAID: &[Fact] = &[Has(VOL5, false), HasParent(VOL1, false)];

fn remove(table: &mut Table, number: u32) {
    table.plan.volumes.remove(number);
}

// The first that is false of both volumes, and of the soft partition alone.
fn wrong_facts(alloc: Global, table: &mut Table) -> Result<[Option<usize>; 2], Fail> {
    add_raid(alloc, table)?;
    add_soft(alloc, table)?;
    let both = first_false(table, BOTH);
    remove(table, 5);
    Ok([both, first_false(table, NO_RAID)])
}

#[test]
fn volumes_are_found_by_number(rt: HostRuntime) -> Result<(), Fail> {
    let mut table = empty(rt.alloc());
    assert_eq!(rt; wrong_facts(rt.alloc(), &mut table)?, [None, None]);
    Ok(())
}

// A use that is asked for, and whether it clashes.
struct Clash(Asked, SliceName, bool);

const CLASHES: &[Clash] = &[
    Clash(Asked::OneComponent, S3, true),
    Clash(Asked::OneComponent, S2, true),
    Clash(Asked::OneComponent, S4, false),
    Clash(Asked::OneComponent, S7, false),
    Clash(Asked::OneSpare, S6, false),
    Clash(Asked::OneSpare, S3, true),
    Clash(Asked::Extents, S3, false),
    Clash(Asked::Extents, S5, true),
    Clash(Asked::ReplicasTo(32), S7, true),
    Clash(Asked::ReplicasTo(32), S4, false),
];

// The place of the first that isn't so.
fn first_wrong_clash(geometry: &Geometry, uses: &Uses) -> Option<usize>
    requires { IsSound geometry.now }
{
    for place in 0..CLASHES.len() {
        let Clash(asked, slice, clash) = &CLASHES[place];
        if uses.clash(geometry, *asked, *slice) != *clash {
            return Some(place);
        }
    }
    None
}

fn add_soft_and_pool(alloc: Global, table: &mut Table) -> Result<(), Fail> {
    add_soft(alloc, table)?;
    add_pool(alloc, table)
}

fn uses_of(alloc: Global, table: &Table) -> Result<Uses, Fail> {
    Ok(table.plan.uses(alloc)?)
}

#[test]
fn slices_are_in_use(rt: HostRuntime) -> Result<(), Fail> {
    let geometry = drives(rt.alloc())?;
    let mut table = empty(rt.alloc());
    add_soft_and_pool(rt.alloc(), &mut table)?;
    let uses = uses_of(rt.alloc(), &table)?;
    assert_eq!(rt; uses.as_slice().len(), 4);
    assert_eq!(rt; first_wrong_clash(&geometry, &uses), None);
    assert!(rt; meets_db(&geometry, S2) && !meets_db(&geometry, S7));
    Ok(())
}

// The last byte of the regions of d0, and whether its second submirror is offline.
fn status_of(table: &Table) -> Option<(u8, bool)> {
    match &table.status.volumes.find(0)?.kind {
        KindStatus::Mirror(mirror) => {
            let dirty = mirror.dirty.as_slice().last()?;
            let offline = mirror.offline.as_slice().last()?;
            Some((*dirty, *offline))
        }
        _ => None,
    }
}

// The last of the regions is dirty.
fn regions(alloc: Global) -> Result<Regions, Fail> {
    let mut bytes = [0; 128];
    bytes[127] = 1;
    Ok(Regions::from_slice(alloc, &bytes)?)
}

fn add_status(alloc: Global, table: &mut Table) -> Result<(), Fail> {
    let offline = Listed::from_slice(alloc, &[false, true])?;
    let dirty = regions(alloc)?;
    let kind = KindStatus::Mirror(MirrorStatus { offline, dirty });
    let number = VolId(0);
    table.status.volumes.put(VolumeStatus { number, kind })?;
    Ok(())
}

#[test]
fn a_copy_has_the_dirty_regions(rt: HostRuntime) -> Result<(), Fail> {
    let mut table = empty(rt.alloc());
    add_status(rt.alloc(), &mut table)?;
    let copy = table.copied(rt.alloc())?;
    assert_eq!(rt; status_of(&copy), Some((1, true)));
    Ok(())
}
