//! The drives of the tests, the names of slices, volumes and pools, and a table with nothing but a replica.
ghost use Rattle.std.specs.Prelude.{◌<◌, IfOk};
ghost use Rattle.mdv_plan.specs.Slices.{IsSound};

use mdv_base::{DriveName, Place, Places, PoolId, SliceName, VolId};
use mdv_name::Geometry;
use mdv_plan::{Table, read_geometries_are_sound};
use std::alloc::Global;
use std::test::Fail;

// Slice 2 is the whole drive, slice 5 the last block of slice 3.
const DRIVES: &[u8] = b"host hostA
host hostB
drive c0t0d0 40000 hostA d0.img
slice c0t0d0s0 0 1000
slice c0t0d0s1 1000 990
slice c0t0d0s2 0 40000
slice c0t0d0s3 2000 4000
slice c0t0d0s4 6000 900
slice c0t0d0s5 5999 1
slice c0t0d0s6 7000 900
slice c0t0d0s7 12000 28000 db
drive c0t1d0 40000 hostB d1.img
slice c0t1d0s0 0 1000
";

const FIRST: DriveName = DriveName {
    controller: 0,
    target: 0,
    disk: 0,
};

const SECOND: DriveName = DriveName {
    controller: 0,
    target: 1,
    disk: 0,
};

pub(crate) const S0: SliceName = SliceName {
    drive: FIRST,
    slice: 0,
};

pub(crate) const S1: SliceName = SliceName {
    drive: FIRST,
    slice: 1,
};

pub(crate) const S2: SliceName = SliceName {
    drive: FIRST,
    slice: 2,
};

pub(crate) const S3: SliceName = SliceName {
    drive: FIRST,
    slice: 3,
};

pub(crate) const S4: SliceName = SliceName {
    drive: FIRST,
    slice: 4,
};

pub(crate) const S5: SliceName = SliceName {
    drive: FIRST,
    slice: 5,
};

pub(crate) const S6: SliceName = SliceName {
    drive: FIRST,
    slice: 6,
};

pub(crate) const S7: SliceName = SliceName {
    drive: FIRST,
    slice: 7,
};

pub(crate) const S9: SliceName = SliceName {
    drive: FIRST,
    slice: 9,
};

// Of a drive of hostB.
pub(crate) const OTHER: SliceName = SliceName {
    drive: SECOND,
    slice: 0,
};

pub(crate) const VOL0: VolId = VolId(0);

pub(crate) const VOL1: VolId = VolId(1);

pub(crate) const VOL5: VolId = VolId(5);

pub(crate) const VOL6: VolId = VolId(6);

pub(crate) const VOL9: VolId = VolId(9);

pub(crate) const VOL10: VolId = VolId(10);

pub(crate) const VOL20: VolId = VolId(20);

pub(crate) const VOL30: VolId = VolId(30);

pub(crate) const VOL40: VolId = VolId(40);

pub(crate) const HSP1: PoolId = PoolId(1);

pub(crate) const HSP2: PoolId = PoolId(2);

pub(crate) const HSP9: PoolId = PoolId(9);

pub(crate) fn drives(alloc: Global) -> Result<Geometry, Fail>
    ensures { IfOk result IsSound }
{
    let geometry = Geometry::read(alloc, DRIVES)?;
    read_geometries_are_sound();
    Ok(geometry)
}

pub(crate) fn empty(alloc: Global) -> Table {
    Table::empty(alloc, replica(8192))
}

/// One replica of so many blocks.
pub(crate) fn replica(blocks: u32) -> Places {
    let mut places = Places::new();
    places.push(Place {
        slice: S7,
        start: 16,
        blocks,
    });
    places
}
