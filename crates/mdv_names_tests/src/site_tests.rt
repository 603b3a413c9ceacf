ghost use Rattle.std.specs.Prelude.{IfOk};
ghost use Rattle.mdv_name.specs.Sound.{IsSound};

use mdv_base::{Key, Name};
use mdv_home::{OwnDrives, views_are_own};
use mdv_name::{Geometry, read_geometries_are_sound};
use mdv_shown::{Site, site_of};
use std::alloc::Global;
use std::test::Fail;

// Two hosts, a shared drive and a mediator. Of the slices set aside on c0t1d0 two share a block, and one is a block too short.
const TABLE: &[u8] = b"host hostA
host hostB
drive c0t0d0 40000 hostA a
drive c2t0d0 20000 hostB c
drive c0t1d0 40000 hostA b
drive c1t0d0 20000 shared s
mediator hostA 32 m
slice c0t1d0s4 230 32 db
slice c0t0d0s7 12000 28000 db
slice c0t0d0s2 0 40000
slice c0t1d0s1 99 100 db
slice c0t1d0s0 0 100 db
slice c0t1d0s3 199 31 db
slice c1t0d0s7 4000 16000 db
slice c1t0d0s6 0 4000 db
slice c2t0d0s7 0 20000 db
";

const SIZES: &[u64] = &[40000, 20000, 40000, 20000, 32];

// A key's site: the drive and the number of each slice, and the drives.
struct Case {
    name: &'static [u8],
    set: bool,
    slices: &'static [(u32, u8)],
    drives: &'static [u32],
}

const CASES: &[Case] = &[
    Case {
        name: b"hostA",
        set: false,
        slices: &[(2, 4), (0, 7)],
        drives: &[0, 2],
    },
    Case {
        name: b"hostB",
        set: false,
        slices: &[(1, 7)],
        drives: &[1],
    },
    Case {
        name: b"blue",
        set: true,
        slices: &[(3, 7)],
        drives: &[3],
    },
    Case {
        name: b"hostC",
        set: false,
        slices: &[],
        drives: &[],
    },
];

fn is_like(site: &Site, case: &Case) -> bool {
    let lines = site.lines.as_slice();
    let drives = site.drives.as_slice();
    lines.len() == case.slices.len()
        && drives.len() == case.drives.len()
        && site.sizes.as_slice() == SIZES
        && lines
            .iter()
            .zip(case.slices)
            .all(|(line, want)| (line.at.drive.0, line.name.slice) == *want)
        && drives
            .iter()
            .zip(case.drives)
            .all(|(drive, want)| drive.0 == *want)
}

fn key_of(case: &Case) -> Result<Key, Fail> {
    let name = Name::new(case.name).ok_or("a name")?;
    Ok(if case.set {
        Key::Set(name)
    } else {
        Key::Local(name)
    })
}

fn table(alloc: Global) -> Result<Geometry, Fail>
    ensures { IfOk result IsSound }
{
    let geometry = Geometry::read(alloc, TABLE)?;
    read_geometries_are_sound();
    Ok(geometry)
}

// What the host of this name sees.
fn view(alloc: Global, host: &[u8]) -> Result<Geometry, Fail>
    ensures { IfOk result IsSound }
{
    let geometry = table(alloc)?;
    views_are_own();
    let own = OwnDrives::of(&geometry, host);
    let seen = own.view_of(alloc, geometry)?;
    Ok(seen)
}

fn is_site(alloc: Global, geometry: &Geometry, case: &Case) -> Result<bool, Fail>
    requires { IsSound geometry.now }
{
    let key = key_of(case)?;
    let site = site_of(alloc, geometry, key)?;
    Ok(is_like(&site, case))
}

fn has_site(alloc: Global, case: &Case) -> Result<bool, Fail> {
    let geometry = table(alloc)?;
    is_site(alloc, &geometry, case)
}

// Whether the view of a host tells its site as well.
fn sees_site(alloc: Global, case: &Case) -> Result<bool, Fail> {
    if case.set {
        return Ok(true);
    }
    let seen = view(alloc, case.name)?;
    is_site(alloc, &seen, case)
}

#[test]
fn finds_sites(rt: HostRuntime) -> Result<(), Fail> {
    for case in CASES {
        let is = has_site(rt.alloc(), case)?;
        let sees = sees_site(rt.alloc(), case)?;
        assert!(rt; is && sees, "{:?}", case.name);
    }
    Ok(())
}
