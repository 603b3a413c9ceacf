use mdv_base::{DriveName, Name, PoolId, SliceName, VolId};
use mdv_parts::*;
use std::alloc::{AllocError, Global};
use std::test::Fail;

const SLICE: SliceName = SliceName {
    drive: DriveName {
        controller: 0,
        target: 1,
        disk: 2,
    },
    slice: 7,
};

const LOCAL: Scope = Scope::Only(None);

const WORDS: &[(&[u8], Option<Part>)] = &[
    (b"0", Some(Part::Number(0))),
    (b"18446744073709551615", Some(Part::Number(u64::MAX))),
    (b"16b", Some(Part::Size(16))),
    (b"16K", Some(Part::Size(32))),
    (b"512g", Some(Part::Size(1_073_741_824))),
    (b"c0t1d2s7", Some(Part::Slice(SLICE))),
    (b"/dev/dsk/c0t1d2s7", Some(Part::Slice(SLICE))),
    (b"d8191", Some(Part::Volume(VolId(8191)))),
    (b"/dev/md/rdsk/d5", Some(Part::Volume(VolId(5)))),
    (b"hsp007", Some(Part::Pool(PoolId(7)))),
    (b"mddb07", Some(Part::Replicas(7))),
    (b"-i", Some(Part::Letter(b'i'))),
    (b"18446744073709551616", None),
    (b"07", None),
    (b"16x", None),
    (b"d8192", None),
    (b"blue/d5", None),
    (b"hsp07", None),
    (b"mddb7", None),
    (b"-ik", None),
];

#[test]
fn reads_each_word(rt: HostRuntime) {
    for (word, want) in WORDS {
        assert!(rt; read_part(&LOCAL, word) == *want, "{word:?}");
    }
    spells_one_list();
}

// Whether the name is read with no set, with blue alone, and within blue.
const NAMES: &[(&[u8], bool, bool, bool)] = &[
    (b"d5", true, false, true),
    (b"blue/d5", false, true, true),
    (b"red/d5", false, false, false),
    (b"blue/hsp001", false, true, true),
    (b"hsp001", true, false, true),
];

fn is_taken(word: &[u8], local: bool, only: bool, within: bool) -> bool {
    let Some(blue) = Name::new(b"blue") else {
        return false;
    };
    read_part(&LOCAL, word).is_some() == local
        && read_part(&Scope::Only(Some(blue)), word).is_some() == only
        && read_part(&Scope::Within(blue), word).is_some() == within
}

#[test]
fn takes_names_of_one_set(rt: HostRuntime) {
    for (word, local, only, within) in NAMES {
        assert!(rt; is_taken(word, *local, *only, *within), "{word:?}");
    }
}

fn parts(alloc: Global, line: &[u8]) -> Result<PartList, Fail> {
    Ok(read_parts(alloc, &LOCAL, line)?.ok_or("not read")?)
}

const LINE: &[u8] = b"c0t1d2s7 d5\td6 -i 32b -h hsp001 -l 4096 -c 2";

fn has_lists(alloc: Global, parts: &[Part]) -> Result<bool, AllocError> {
    let (slices, rest) = split_slices(alloc, parts)?;
    let (volumes, _) = split_volumes(alloc, rest)?;
    Ok(
        slices.as_slice() == [SLICE].as_slice()
            && volumes.as_slice() == [VolId(5), VolId(6)].as_slice(),
    )
}

fn are_counts(rest: &[Part]) -> bool {
    match split_replica_options(rest) {
        Some((options, _)) => options.count == Some(2) && options.blocks == Some(4096),
        None => false,
    }
}

fn are_pool_and_counts(rest: &[Part]) -> bool {
    match split_pool(rest) {
        Some((pool, rest)) => pool == Some(PoolId(1)) && are_counts(rest),
        None => false,
    }
}

fn are_options(rest: &[Part]) -> bool {
    match split_interlace(rest) {
        Some((interlace, rest)) => interlace == Some(32) && are_pool_and_counts(rest),
        None => false,
    }
}

fn has_options(alloc: Global, parts: &[Part]) -> Result<bool, AllocError> {
    let (components, rest) = split_components(alloc, parts)?;
    Ok(components.as_slice().len() == 3 && are_options(rest))
}

#[test]
fn splits_a_list_and_options(rt: HostRuntime) -> Result<(), Fail> {
    let parts = parts(rt.alloc(), LINE)?;
    let lists = has_lists(rt.alloc(), parts.as_slice())?;
    assert!(rt; lists && has_options(rt.alloc(), parts.as_slice())?);
    Ok(())
}

// Whether the options of replicas are read.
const COUNTS: &[(&[u8], bool)] = &[
    (b"-c 1 -l 16", true),
    (b"-l 8192 -c 50", true),
    (b"d5", true),
    (b"-c 0", false),
    (b"-c 51", false),
    (b"-c 257", false),
    (b"-l 15", false),
    (b"-l 8193", false),
    (b"-l 65552", false),
];

fn has_counts(alloc: Global, line: &[u8]) -> Result<bool, Fail> {
    let parts = parts(alloc, line)?;
    Ok(split_replica_options(parts.as_slice()).is_some())
}

#[test]
fn keeps_counts_in_range(rt: HostRuntime) -> Result<(), Fail> {
    for (line, want) in COUNTS {
        assert!(rt; has_counts(rt.alloc(), line)? == *want, "{line:?}");
    }
    assert!(rt; read_parts(rt.alloc(), &LOCAL, b"d5 what")?.is_none());
    Ok(())
}
