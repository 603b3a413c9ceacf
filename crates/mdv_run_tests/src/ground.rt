// Tables of drives, and where on them the place and the volumes of a life lie.

/// Blocks of a drive of the shelf: those from `start` on. Its name has controller 0, this target and disk 0.
#[derive(Clone, Copy)]
pub struct Area {
    pub drive: u32,
    pub target: u8,
    pub start: u64,
    pub blocks: u64,
}

/// A table of drives, and what host alpha has of it. Volume N lies on slice N of its drive.
#[derive(Clone, Copy)]
pub struct Ground {
    pub table: &'static str,
    /// How many blocks each drive has.
    pub sizes: &'static [u64],
    /// The numbers of alpha's own drives, in order.
    pub own: &'static [u32],
    /// The place.
    pub home: Area,
    pub volumes: [Area; 3],
    /// So many blocks, in the order of drives and numbers, have more than one value when a crash comes.
    pub written: u64,
    /// The drives that a run of a drawn life may have away.
    pub away: &'static [&'static [u32]],
}

/// As small a drive as a place and three volumes take.
pub const SMALL: Ground = Ground {
    table: "host alpha
drive c0t0d0 8232 alpha disk.img
slice c0t0d0s0 0 8
slice c0t0d0s1 8 8
slice c0t0d0s2 8224 8
slice c0t0d0s7 16 8208 db
",
    sizes: &[8232],
    own: &[0],
    home: Area {
        drive: 0,
        target: 0,
        start: 32,
        blocks: 8192,
    },
    volumes: [
        Area {
            drive: 0,
            target: 0,
            start: 0,
            blocks: 8,
        },
        Area {
            drive: 0,
            target: 0,
            start: 8,
            blocks: 8,
        },
        Area {
            drive: 0,
            target: 0,
            start: 8224,
            blocks: 8,
        },
    ],
    written: 8232,
    away: &[&[], &[], &[], &[0]],
};

/// A drive whose place has room for short replicas alone.
pub const NARROW: Ground = Ground {
    table: "host alpha
drive c0t0d0 64 alpha disk.img
slice c0t0d0s0 0 8
slice c0t0d0s1 8 8
slice c0t0d0s2 56 8
slice c0t0d0s7 16 40 db
",
    sizes: &[64],
    own: &[0],
    home: Area {
        drive: 0,
        target: 0,
        start: 32,
        blocks: 24,
    },
    volumes: [
        Area {
            drive: 0,
            target: 0,
            start: 0,
            blocks: 8,
        },
        Area {
            drive: 0,
            target: 0,
            start: 8,
            blocks: 8,
        },
        Area {
            drive: 0,
            target: 0,
            start: 56,
            blocks: 8,
        },
    ],
    written: 64,
    away: &[&[], &[], &[], &[0]],
};

/// A drive with more slices, and blocks behind the place.
pub const WIDE: Ground = Ground {
    table: "host alpha
drive c0t0d0 40000 alpha d0.img
slice c0t0d0s0 0 1000
slice c0t0d0s1 1000 990
slice c0t0d0s2 1990 10
slice c0t0d0s3 2000 4000
slice c0t0d0s7 12000 28000 db
",
    sizes: &[40000],
    own: &[0],
    home: Area {
        drive: 0,
        target: 0,
        start: 12016,
        blocks: 8192,
    },
    volumes: [
        Area {
            drive: 0,
            target: 0,
            start: 0,
            blocks: 1000,
        },
        Area {
            drive: 0,
            target: 0,
            start: 1000,
            blocks: 990,
        },
        Area {
            drive: 0,
            target: 0,
            start: 1990,
            blocks: 10,
        },
    ],
    written: 16120,
    away: &[&[], &[], &[], &[0]],
};

/// Three drives of alpha's own, of which the second has the place, between those of another host, a shared one and a
/// mediator's store.
pub const THREE: Ground = Ground {
    table: "host beta
host alpha
drive c1t0d0 24 beta b0.img
drive c0t0d0 24 alpha d0.img
drive c0t1d0 8240 alpha d1.img
drive c2t0d0 24 shared s0.img
drive c0t2d0 24 alpha d2.img
mediator beta 32 mb.img
slice c1t0d0s0 0 8
slice c1t0d0s7 8 16 db
slice c0t0d0s0 8 8
slice c0t1d0s1 0 8
slice c0t1d0s7 16 8208 db
slice c2t0d0s0 0 8
slice c2t0d0s7 8 16 db
slice c0t2d0s2 16 8
",
    sizes: &[24, 24, 8240, 24, 24, 32],
    own: &[1, 2, 4],
    home: Area {
        drive: 2,
        target: 1,
        start: 32,
        blocks: 8192,
    },
    volumes: [
        Area {
            drive: 1,
            target: 0,
            start: 8,
            blocks: 8,
        },
        Area {
            drive: 2,
            target: 1,
            start: 0,
            blocks: 8,
        },
        Area {
            drive: 4,
            target: 2,
            start: 16,
            blocks: 8,
        },
    ],
    written: 8368,
    away: &[&[], &[], &[], &[1], &[4], &[1, 4], &[2], &[1, 2, 4]],
};

/// Three drives with a slice for replicas and one for a volume each, and how many blocks they have.
pub const PLACES: (&str, &[u64]) = (
    "host alpha
drive c0t0d0 80 alpha d0.img
drive c0t1d0 80 alpha d1.img
drive c0t2d0 80 alpha d2.img
slice c0t0d0s0 0 16
slice c0t0d0s7 16 64 db
slice c0t1d0s0 0 16
slice c0t1d0s7 16 64 db
slice c0t2d0s0 0 16
slice c0t2d0s7 16 64 db
",
    &[80, 80, 80],
);

impl Ground {
    /// Where the volume of that number lies, of 0 to 2.
    pub(crate) fn volume(&self, number: u8) -> Area {
        let [first, second, third] = self.volumes;
        match number {
            0 => first,
            1 => second,
            _ => third,
        }
    }
}
