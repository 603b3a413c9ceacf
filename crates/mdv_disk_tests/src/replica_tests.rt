use mdv_base::{
    Block, DriveName, DriveNo, Flags, Identity, Key, Mark, Name, Place, SliceName, ZERO_BLOCK,
};
use mdv_replica::{
    Gate, Head, Master, PlaceAt, Seen, Slot, claim_block, format, gate_block, inspect,
    master_block, read_body, wipe, write_claim, write_slot,
};
use mdv_shelf::{MemShelf, Shelf};
use std::test::Fail;

const SLICE: SliceName = SliceName {
    drive: DriveName {
        controller: 1,
        target: 2,
        disk: 3,
    },
    slice: 7,
};

const OPEN: Gate = Gate::Open {
    mark: Mark {
        boot: 0x0102030405060708,
        count: 9,
    },
    bytes: 700,
};

fn master(host: Name) -> Master {
    Master {
        identity: Identity {
            fresh: 0x1112131415161718,
            number: 2,
        },
        key: Key::Set(host),
        slice: SLICE,
        start: 16,
        blocks: 8192,
        index: 1,
        count: 2,
    }
}

// The text and zeros behind it.
fn padded(text: &[u8]) -> Block {
    let mut block = ZERO_BLOCK;
    for (i, byte) in text.iter().enumerate() {
        if i < 512 {
            block[i] = *byte;
        }
    }
    block
}

const MASTER: &[u8] =
    b"MDVREPL1\x11\x12\x13\x14\x15\x16\x17\x18\x00\x00\x00\x02\x01\x04blue\x00\x00\x00\x00\x00\x00\x00\x00\x00\x00\x00\x00\x00\x00\x00\x00\x00\x00\x00\x00\x00\x00\x00\x00\x00\x00\x00\x00\x01\x02\x03\x07\x00\x00\x00\x10\x00\x00\x20\x00\x01\x02";

const CLAIM: &[u8] = b"MDVCLAIM\x00\x00\x00\x00\x00\x00\x01\x02";

const GATE: &[u8] =
    b"MDVGATE1\x01\x01\x02\x03\x04\x05\x06\x07\x08\x00\x00\x00\x00\x00\x00\x00\x09\x00\x00\x02\xbc";

#[test]
fn spells_the_blocks_of_a_head(rt: HostRuntime) -> Result<(), Fail> {
    let name = Name::new(b"blue").ok_or("blue")?;
    assert!(rt; master_block(&master(name)) == padded(MASTER));
    assert!(rt; claim_block(258) == padded(CLAIM));
    assert!(rt; gate_block(Gate::Closed) == padded(b"MDVGATE1"));
    assert!(rt; gate_block(OPEN) == padded(GATE));
    Ok(())
}

const PLACE: Place = Place {
    slice: SLICE,
    start: 16,
    blocks: 16,
};

// A look that found no head there, with these letters.
fn without_head(flags: Flags) -> Seen {
    Seen {
        place: PLACE,
        flags,
        head: None,
    }
}

const AT: PlaceAt = PlaceAt {
    place: PLACE,
    drive: DriveNo(0),
    first: 20,
    index: 1,
    count: 2,
};

const MARK: Mark = Mark { boot: 5, count: 9 };

fn shows(shelf: &mut MemShelf, at: PlaceAt, want: Seen) -> bool {
    at.drive.0 < shelf.drives() && at.first < shelf.blocks(at.drive) && inspect(shelf, at) == want
}

// Formats the place, claims and writes it, and reads what it wrote.
fn is_written(shelf: &mut MemShelf, master: &Master) -> Result<bool, Fail> {
    if shelf.drives() != 1 || shelf.blocks(AT.drive) != 36 {
        return Ok(false);
    }
    format(shelf, AT, &master.key, master.identity, 258)?;
    write_claim(shelf, AT, 259)?;
    write_slot(shelf, AT, Slot::Second, MARK, 700, &[[1; 512]; 2])?;
    let mut body = [ZERO_BLOCK];
    read_body(shelf, AT, Slot::Second, &mut body)?;
    Ok(body == [[1; 512]])
}

fn is_wiped(shelf: &mut MemShelf) -> Result<bool, Fail> {
    if shelf.drives() != 1 || shelf.blocks(AT.drive) != 36 {
        return Ok(false);
    }
    wipe(shelf, AT)?;
    Ok(true)
}

fn is_lost(shelf: &mut MemShelf) -> bool {
    if shelf.drives() == 0 {
        return false;
    }
    shelf.lose(AT.drive);
    true
}

fn blank() -> Flags {
    Flags {
        form_fault: true,
        master_fault: true,
        ..Flags::default()
    }
}

fn with_head(master: Master) -> Seen {
    Seen {
        place: PLACE,
        flags: Flags {
            located: true,
            ..Flags::default()
        },
        head: Some(Head {
            master,
            claim: 259,
            first: Gate::Closed,
            second: Gate::Open {
                mark: MARK,
                bytes: 700,
            },
        }),
    }
}

#[test]
fn tells_what_was_written_to_a_place(rt: HostRuntime) -> Result<(), Fail> {
    let master = Master {
        blocks: 16,
        ..master(Name::new(b"blue").ok_or("blue")?)
    };
    let mut shelf = MemShelf::new(rt.alloc(), &[36])?;
    assert!(rt; shows(&mut shelf, AT, without_head(blank())));
    assert!(rt; is_written(&mut shelf, &master)?);
    assert!(rt; shows(&mut shelf, AT, with_head(master)));
    // The drive's last two blocks are no replica.
    let end = PlaceAt { first: 34, ..AT };
    assert!(rt; shows(&mut shelf, end, without_head(blank())));
    Ok(())
}

#[test]
fn tells_what_was_wiped_or_lost(rt: HostRuntime) -> Result<(), Fail> {
    let wiped = Flags {
        master_fault: true,
        ..Flags::default()
    };
    let lost = Flags {
        read_error: true,
        ..Flags::default()
    };
    let mut shelf = MemShelf::new(rt.alloc(), &[36])?;
    let master = master(Name::new(b"blue").ok_or("blue")?);
    assert!(rt; is_written(&mut shelf, &master)?);
    assert!(rt; is_wiped(&mut shelf)?);
    assert!(rt; shows(&mut shelf, AT, without_head(wiped)));
    assert!(rt; is_lost(&mut shelf));
    assert!(rt; shows(&mut shelf, AT, without_head(lost)));
    Ok(())
}
