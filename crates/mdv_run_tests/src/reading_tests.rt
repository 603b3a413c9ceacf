use crate::{PlaceBlocks, Shown, ShownTable, ShownVolume, read_place, second_body};
use mdv_base::{Block, Identity, Mark, ZERO_BLOCK};

const MASTER: &[u8] =
    b"MDVREPL1\x01\x02\x03\x04\x05\x06\x07\x08\0\0\0\x02\0\x05alpha\0\0\0\0\0\0\0\0\0\0\0\0\0\0\0\0\0\0\0\0\0\0\0\0\0\0\0\0\0\0\x07\0\0\0\x10\0\0\x20\0\0\x01";

const CLAIM: &[u8] = b"MDVCLAIM\0\0\0\0\0\0\x01\x02";

const CLOSED: &[u8] = b"MDVGATE1";

const OPEN: &[u8] = b"MDVGATE1\x01\0\0\0\0\0\0\x01\x01\0\0\0\0\0\0\0\x03\0\0\0\x24";

const RECORD: &[u8] = b"MDVREC01\0\0\0\x24\x01\x01\0\0\0\x07\0\0\0\x10\0\0\x20";

const OPEN_ONE: &[u8] = b"MDVGATE1\x01\0\0\0\0\0\0\x01\x01\0\0\0\0\0\0\0\x03\0\0\0\x56";

const OPEN_TWO: &[u8] = b"MDVGATE1\x01\0\0\0\0\0\0\x01\x01\0\0\0\0\0\0\0\x03\0\0\0\x88";

const OPEN_THREE: &[u8] = b"MDVGATE1\x01\0\0\0\0\0\0\x01\x01\0\0\0\0\0\0\0\x03\0\0\0\xba";

// The records with d0 on slice 3, with d5 on slice 0 and d8191 on slice 1 of c0t2d0, and with all three.
const RECORD_ONE: &[u8] =
    b"MDVREC01\0\0\0\x56\x01\x01\0\0\0\x07\0\0\0\x10\0\0\x20\0\0\0\0\0\0\0\0\0\0\x01\
\0\0\0\0\0\0\0\x01\0\x01\0\0\0\x20\0\0\0\0\x03\0\0\0\0\0\0\0\0\0\0\0\0\0\0\x0f\xa0";

const RECORD_TWO: &[u8] =
    b"MDVREC01\0\0\0\x88\x01\x01\0\0\0\x07\0\0\0\x10\0\0\x20\0\0\0\0\0\0\0\0\0\0\x02\
\0\x05\0\0\0\0\0\x01\0\x01\0\0\0\x20\0\0\0\0\0\0\0\0\0\0\0\0\0\0\0\0\0\0\0\0\x08\0\0\0\0\0\0\0\0\0\0\0\0\0\0\0\
\x1f\xff\0\0\0\0\0\x01\0\x01\0\0\0\x20\0\0\x02\0\x01\0\0\0\0\0\0\0\0\0\0\0\0\0\0\0\x01";

const RECORD_THREE: &[u8] =
    b"MDVREC01\0\0\0\xba\x01\x01\0\0\0\x07\0\0\0\x10\0\0\x20\0\0\0\0\0\0\0\0\0\0\x03\
\0\0\0\0\0\0\0\x01\0\x01\0\0\0\x20\0\0\0\0\x03\0\0\0\0\0\0\0\0\0\0\0\0\0\0\x0f\xa0\0\0\0\0\0\0\0\0\0\0\0\0\0\0\0\
\0\x05\0\0\0\0\0\x01\0\x01\0\0\0\x20\0\0\0\0\0\0\0\0\0\0\0\0\0\0\0\0\0\0\0\0\x08\0\0\0\0\0\0\0\0\0\0\0\0\0\0\0\
\x1f\xff\0\0\0\0\0\x01\0\x01\0\0\0\x20\0\0\x02\0\x01\0\0\0\0\0\0\0\0\0\0\0\0\0\0\0\x01";

// A replica on slice 7 of c0t1d0, which shows the table without volumes.
const MASTER_OF_ONE: &[u8] =
    b"MDVREPL1\x01\x02\x03\x04\x05\x06\x07\x08\0\0\0\x02\0\x05alpha\0\0\0\0\0\0\0\0\0\0\0\0\0\0\0\0\0\0\0\0\0\0\0\0\0\0\0\0\x01\0\x07\0\0\0\x10\0\0\x20\0\0\x01";

const RECORD_OF_ONE: &[u8] = b"MDVREC01\0\0\0\x24\x01\x01\0\x01\0\x07\0\0\0\x10\0\0\x20";

// The text and zeros behind it.
fn block(text: &[u8]) -> Block {
    let mut block = ZERO_BLOCK;
    for (to, byte) in block.iter_mut().zip(text) {
        *to = *byte;
    }
    block
}

// The four blocks of a head and the first ones of both bodies.
type Blocks = [&'static [u8]; 6];

fn shown_of(blocks: &Blocks, target: u8) -> Option<Shown> {
    let [master, claim, first, second, first_body, second_body] = *blocks;
    read_place(&PlaceBlocks {
        target,
        head: [block(master), block(claim), block(first), block(second)],
        first_body: block(first_body),
        second_body: block(second_body),
    })
}

const MARK: Mark = Mark {
    boot: 257,
    count: 3,
};

// The least number that a volume may have, number 5, and the greatest one.
const LEAST: ShownVolume = ShownVolume {
    number: 0,
    target: 0,
    slice: 3,
    blocks: 4000,
};

const FIFTH: ShownVolume = ShownVolume {
    number: 5,
    target: 0,
    slice: 0,
    blocks: 8,
};

const GREATEST: ShownVolume = ShownVolume {
    number: 8191,
    target: 2,
    slice: 1,
    blocks: 1,
};

const EMPTY: &[ShownVolume] = &[];

const WITH_ONE: &[ShownVolume] = &[LEAST];

const WITH_TWO: &[ShownVolume] = &[FIFTH, GREATEST];

const WITH_THREE: &[ShownVolume] = &[LEAST, FIFTH, GREATEST];

// The table of these volumes.
fn table_of(volumes: &[ShownVolume]) -> ShownTable {
    ShownTable {
        mark: MARK,
        volumes: [
            volumes.first().copied(),
            volumes.get(1).copied(),
            volumes.get(2).copied(),
        ],
    }
}

const NONE: &[u8] = b"";

// The volumes of the table of an open slot.
type Volumes = Option<&'static [ShownVolume]>;

// The blocks, and the tables shown.
const SHOWN: &[(Blocks, Volumes, Volumes)] = &[
    (
        [MASTER, CLAIM, OPEN, CLOSED, RECORD, NONE],
        Some(EMPTY),
        None,
    ),
    (
        [MASTER, CLAIM, CLOSED, OPEN, b"old", RECORD],
        None,
        Some(EMPTY),
    ),
    (
        [MASTER, CLAIM, OPEN, OPEN, RECORD, RECORD],
        Some(EMPTY),
        Some(EMPTY),
    ),
    (
        [MASTER, CLAIM, OPEN_ONE, OPEN, RECORD_ONE, RECORD],
        Some(WITH_ONE),
        Some(EMPTY),
    ),
    (
        [MASTER, CLAIM, OPEN_TWO, CLOSED, RECORD_TWO, NONE],
        Some(WITH_TWO),
        None,
    ),
    (
        [
            MASTER,
            CLAIM,
            OPEN_THREE,
            OPEN_ONE,
            RECORD_THREE,
            RECORD_ONE,
        ],
        Some(WITH_THREE),
        Some(WITH_ONE),
    ),
];

fn is_shown(blocks: &Blocks, target: u8, first: Volumes, second: Volumes) -> bool {
    let identity = Identity {
        fresh: 0x0102_0304_0506_0708,
        number: 2,
    };
    let want = Shown {
        identity,
        blocks: 8192,
        claim: 258,
        first: first.map(table_of),
        second: second.map(table_of),
    };
    shown_of(blocks, target) == Some(want)
}

#[test]
fn shows_the_tables_of_open_slots(rt: HostRuntime) {
    for (blocks, first, second) in SHOWN {
        assert!(rt; is_shown(blocks, 0, *first, *second), "{blocks:?}");
        assert!(rt; shown_of(blocks, 1).is_none(), "{blocks:?}");
    }
    let blocks = [MASTER_OF_ONE, CLAIM, OPEN, CLOSED, RECORD_OF_ONE, NONE];
    assert!(rt; is_shown(&blocks, 1, Some(EMPTY), None));
    assert!(rt; shown_of(&blocks, 0).is_none());
}

const HIDDEN: &[Blocks] = &[
    [NONE, NONE, NONE, NONE, NONE, NONE],
    [MASTER, CLAIM, CLOSED, CLOSED, RECORD, RECORD],
    [NONE, CLAIM, OPEN, CLOSED, RECORD, NONE],
    [MASTER, NONE, OPEN, CLOSED, RECORD, NONE],
    [MASTER, CLAIM, OPEN, NONE, RECORD, NONE],
    [MASTER, CLAIM, OPEN, CLOSED, NONE, RECORD],
    [MASTER, CLAIM, OPEN, OPEN, RECORD, NONE],
    [MASTER, CLAIM, OPEN_ONE, CLOSED, RECORD, NONE],
    [MASTER, CLAIM, OPEN_ONE, CLOSED, RECORD_TWO, NONE],
    [MASTER, CLAIM, OPEN, CLOSED, RECORD_OF_ONE, NONE],
    [MASTER_OF_ONE, CLAIM, OPEN, CLOSED, RECORD, NONE],
];

#[test]
fn shows_no_table(rt: HostRuntime) {
    for blocks in HIDDEN {
        assert!(rt; shown_of(blocks, 0).is_none(), "{blocks:?}");
    }
}

// By the lengths that a master and its record tell, whether the place shows the table.
const LENGTHS: &[(u16, u16, bool)] = &[
    (16, 16, true),
    (17, 17, true),
    (8192, 8192, true),
    (15, 15, false),
    (8193, 8193, false),
    (16, 17, false),
    (17, 16, false),
];

// The text, and in the two bytes from that one on a length.
fn with_length(text: &[u8], at: usize, length: u16) -> Block {
    let mut block = block(text);
    for (to, byte) in block.iter_mut().skip(at).zip(&length.to_be_bytes()) {
        *to = *byte;
    }
    block
}

fn is_shown_with(master: u16, record: u16) -> bool {
    let shown = read_place(&PlaceBlocks {
        target: 0,
        head: [
            with_length(MASTER, 64, master),
            block(CLAIM),
            block(CLOSED),
            block(OPEN),
        ],
        first_body: ZERO_BLOCK,
        second_body: with_length(RECORD, 24, record),
    });
    shown.is_some_and(|shown| {
        shown.blocks == u64::from(master) && shown.second == Some(table_of(EMPTY))
    })
}

#[test]
fn shows_the_length(rt: HostRuntime) {
    for (master, record, is_shown) in LENGTHS {
        assert!(rt;
            is_shown_with(*master, *record) == *is_shown,
            "{master} {record}"
        );
    }
}

// By the blocks of a replica, where its second body begins.
const BODIES: &[(u16, u64)] = &[(16, 10), (17, 10), (18, 11), (8191, 4097), (8192, 4098)];

#[test]
fn finds_the_second_body(rt: HostRuntime) {
    for (length, at) in BODIES {
        assert_eq!(rt; second_body(&with_length(MASTER, 64, *length)), *at);
    }
}
