use mdv_base::DriveNo;
use mdv_home::*;
use mdv_name::{Geometry, SliceLine};
use mdv_shelf::MemShelf;
use std::alloc::Global;
use std::test::Fail;

// Two hosts with two drives each, whose lines alternate, a shared drive and a mediator. Slices are set aside on each host's drives and on the
// shared one, and two of them have a block in common.
const MANY: &[u8] = b"host hostA
host hostB
host hostC
drive c0t0d0 40000 hostB b0.img
drive c0t1d0 30000 hostA a0.img
mediator hostB 32 mb.img
drive c1t0d0 20000 shared s0.img
drive c0t2d0 10000 hostA a1.img
drive c0t3d0 10000 hostB b1.img
slice c0t0d0s7 0 40000 db
slice c0t2d0s7 0 100 db
slice c1t0d0s7 0 99 db
slice c0t1d0s0 0 1000
slice c0t2d0s6 99 100 db
slice c0t3d0s1 0 10000
slice c0t1d0s7 1000 100 db
";

// Whether the table has the host.
const HOSTS: &[(&[u8], bool)] = &[
    (b"hostA", true),
    (b"hostB", true),
    (b"hostC", true),
    (b"hostD", false),
    (b"host", false),
    (b"hostAA", false),
    (b"HOSTA", false),
    (b"", false),
    (b"c0t0d0", false),
];

fn is_host(table: &Geometry, host: &[u8], want: bool) -> bool {
    match host_in(table.hosts.as_slice(), host) {
        Some(name) => want && name.as_bytes() == host,
        None => !want,
    }
}

#[test]
fn finds_hosts(rt: HostRuntime) -> Result<(), Fail> {
    let table = Geometry::read(rt.alloc(), MANY)?;
    for (host, want) in HOSTS {
        assert!(rt; is_host(&table, host, *want), "{host:?}");
    }
    Ok(())
}

fn are_own(table: &Geometry, host: &[u8], numbers: &[DriveNo]) -> bool {
    OwnDrives::of(table, host).as_slice() == numbers
}

#[test]
fn tells_own_drives(rt: HostRuntime) -> Result<(), Fail> {
    let table = Geometry::read(rt.alloc(), MANY)?;
    assert!(rt; are_own(&table, b"hostA", &[DriveNo(1), DriveNo(4)]));
    assert!(rt; are_own(&table, b"hostB", &[DriveNo(0), DriveNo(5)]));
    assert!(rt; are_own(&table, b"hostC", &[]));
    assert!(rt; are_own(&table, b"hostD", &[]));
    Ok(())
}

// What a host sees: the drive and the number of each slice.
const VIEWS: &[(&[u8], &[(u32, u8)])] = &[
    (b"hostA", &[(4, 7), (1, 0), (4, 6), (1, 7)]),
    (b"hostB", &[(0, 7), (5, 1)]),
    (b"hostC", &[]),
    (b"hostD", &[]),
];

fn are_slices(slices: &[SliceLine], wanted: &[(u32, u8)]) -> bool {
    slices.len() == wanted.len()
        && slices
            .iter()
            .zip(wanted)
            .all(|(line, want)| (line.at.drive.0, line.name.slice) == *want)
}

fn has_view(alloc: Global, host: &[u8], wanted: &[(u32, u8)]) -> Result<bool, Fail> {
    let table = Geometry::read(alloc, MANY)?;
    let own = OwnDrives::of(&table, host);
    let view = own.view_of(alloc, table)?;
    Ok(are_slices(view.slices.as_slice(), wanted) && view.drives.as_slice().len() == 6)
}

#[test]
fn sees_slices_on_own_drives(rt: HostRuntime) -> Result<(), Fail> {
    for (host, wanted) in VIEWS {
        let is = has_view(rt.alloc(), host, wanted)?;
        assert!(rt; is, "{host:?}");
    }
    Ok(())
}

#[test]
fn tells_the_drives_of_a_shelf(rt: HostRuntime) -> Result<(), Fail> {
    let text = b"host hostA\ndrive c0t0d0 4 hostA d0.img\nmediator hostA 32 m.img\n";
    let table = Geometry::read(rt.alloc(), text)?;
    let cases: &[(&[u64], bool)] = &[
        (&[4, 32], true),
        (&[4, 31], false),
        (&[32, 4], false),
        (&[4], false),
        (&[4, 32, 1], false),
    ];
    for (sizes, want) in cases {
        let shelf = MemShelf::new(rt.alloc(), sizes)?;
        assert!(rt; has_drives(&shelf, &table) == *want, "{sizes:?}");
    }
    Ok(())
}
