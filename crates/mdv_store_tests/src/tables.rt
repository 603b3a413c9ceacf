//! Tables of drives, and whose databases lie there. A slice set aside for replicas has 16 blocks in front of its first one, and the replicas have 16
//! blocks.
use mdv_base::{Key, Name};
use std::test::Fail;

// Five drives of hostA with two such slices each: on slice 7 three replicas have room, and on slice 6 one has.
const FIVE: &[u8] = b"host hostA
host hostB
drive c0t0d0 98 hostA a0.img
drive c0t1d0 98 hostA a1.img
drive c0t2d0 98 hostA a2.img
drive c0t3d0 98 hostA a3.img
drive c0t4d0 98 hostA a4.img
slice c0t0d0s0 0 2
slice c0t0d0s7 2 64 db
slice c0t0d0s6 66 32 db
slice c0t1d0s7 2 64 db
slice c0t1d0s6 66 32 db
slice c0t2d0s7 2 64 db
slice c0t2d0s6 66 32 db
slice c0t3d0s7 2 64 db
slice c0t3d0s6 66 32 db
slice c0t4d0s7 2 64 db
slice c0t4d0s6 66 32 db
";

// Three drives of hostA with one such slice each: on the first three replicas have room, and on the others one has.
const THREE: &[u8] = b"host hostA
host hostB
drive c0t0d0 66 hostA a0.img
drive c0t1d0 34 hostA a1.img
drive c0t2d0 34 hostA a2.img
slice c0t0d0s0 0 2
slice c0t0d0s7 2 64 db
slice c0t1d0s7 2 32 db
slice c0t2d0s7 2 32 db
";

// Two drives of hostA, on each of which fifty replicas have room.
const WIDE: &[u8] = b"host hostA
drive c0t0d0 818 hostA a0.img
drive c0t1d0 818 hostA a1.img
slice c0t0d0s0 0 2
slice c0t0d0s7 2 816 db
slice c0t1d0s7 2 816 db
";

// Three drives that all hosts reach.
const SHARED: &[u8] = b"host hostA
drive c0t0d0 66 shared a0.img
drive c0t1d0 66 shared a1.img
drive c0t2d0 66 shared a2.img
slice c0t0d0s0 0 2
slice c0t0d0s7 2 64 db
slice c0t1d0s7 2 64 db
slice c0t2d0s7 2 64 db
";

/// Which table of drives.
#[derive(Clone, Copy)]
pub enum Layout {
    Five,
    Three,
    Wide,
    Shared,
}

impl Layout {
    pub fn text(self) -> &'static [u8] {
        match self {
            Layout::Five => FIVE,
            Layout::Three => THREE,
            Layout::Wide => WIDE,
            Layout::Shared => SHARED,
        }
    }
}

/// The table of drives, the host's key, and that of another one.
#[derive(Clone, Copy)]
pub struct Ground {
    pub layout: Layout,
    pub own: Key,
    pub other: Key,
}

/// The drives of hostA, beside hostB.
pub fn local_on(layout: Layout) -> Result<Ground, Fail> {
    Ok(Ground {
        layout,
        own: Key::Local(name(b"hostA")?),
        other: Key::Local(name(b"hostB")?),
    })
}

/// The drives of the set blue, beside the set red.
pub fn shared_on(layout: Layout) -> Result<Ground, Fail> {
    Ok(Ground {
        layout,
        own: Key::Set(name(b"blue")?),
        other: Key::Set(name(b"red")?),
    })
}

fn name(text: &[u8]) -> Result<Name, Fail> {
    Ok(Name::new(text).ok_or("a name")?)
}
