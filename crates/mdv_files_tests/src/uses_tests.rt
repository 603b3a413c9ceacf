// What doesn't fit in a faulty use, and what a script is read from.

use crate::scene::strings;
use mdv_files::{BOOT_ID, FileSource, JOURNAL, Start, SystemStart, open_table};
use mdv_port::Source;
use std::io;

const TABLE: &str = "host a
drive c0t0d0 8 a none
slice c0t0d0s7 0 8 db
";

const NO_HOST: &str = "host: drives.tab doesn't have this host";

// The words, the table of drives, and what standard error has behind Usage.
const MISFITS: &[(&[&str], &str, &str)] = &[
    (&[], TABLE, "words: 0 in place of the one host"),
    (&["a", "b"], TABLE, "words: 2 in place of the one host"),
    (&["b"], TABLE, NO_HOST),
    (&[""], TABLE, NO_HOST),
    (&["A"], TABLE, NO_HOST),
    (&["a"], "", NO_HOST),
    (&["c0t0d0"], TABLE, NO_HOST),
    (
        &["a"],
        "host a\ndrive c0t0d0 8 b none\n",
        "drives.tab: line 2 is wrong: drive c0t0d0 8 b none",
    ),
];

fn start(rt: &HostRuntime, words: &[&str], table: &str) -> io::Result<Start> {
    let words = strings(rt.alloc(), words)?;
    let system = SystemStart::read(rt, JOURNAL, BOOT_ID);
    Ok(open_table(rt, &words, table.as_bytes(), &system)?)
}

fn misfit(rt: &HostRuntime, words: &[&str], table: &str) -> io::Result<Option<String>> {
    Ok(start(rt, words, table)?.misfit)
}

fn has_misfit(rt: &HostRuntime, words: &[&str], table: &str, want: &str) -> bool {
    match misfit(rt, words, table) {
        Ok(Some(told)) => told.as_str() == want,
        _ => false,
    }
}

// Uses that fit: hosts without a drive, without a db slice, with several of them, and with such as have a block of another slice.
const FITTING: &[(&str, &str)] = &[
    ("a", "host a\n"),
    ("a", "host a\ndrive c0t0d0 8 a none\n"),
    ("a", TABLE),
    ("a", "host a\ndrive c0t0d0 8 a none\nslice c0t0d0s7 0 8\n"),
    (
        "b",
        "host a\nhost b\ndrive c0t0d0 8 a none\nslice c0t0d0s7 0 8 db\n",
    ),
    (
        "a",
        "host a\ndrive c0t0d0 8 a none\ndrive c0t1d0 8 a none\nslice c0t0d0s7 0 8 db\nslice c0t1d0s7 0 8 db\n",
    ),
    (
        "a",
        "host a\ndrive c0t0d0 8 a none\nslice c0t0d0s7 0 8 db\nslice c0t0d0s0 7 1\nslice c0t0d0s6 0 8 db\n",
    ),
];

#[test]
fn tells_what_does_not_fit(rt: HostRuntime) {
    for (words, table, want) in MISFITS {
        assert!(rt; has_misfit(&rt, words, table, want), "{want}");
    }
    for (host, table) in FITTING {
        let fitting = misfit(&rt, &[host], table);
        assert!(rt; matches!(fitting, Ok(None)), "{table}");
    }
}

const NO_IMAGE: &str = "host a
drive c0t0d0 8 a no-such-image
slice c0t0d0s7 0 8
";

fn has_lost_drive(start: &Start) -> bool {
    let (None, [lost]) = (&start.misfit, start.lost.as_slice()) else {
        return false;
    };
    lost.as_str() == "c0t0d0 no-such-image: missing"
}

fn is_faulty_use(start: &Start) -> bool {
    let (Some(misfit), []) = (&start.misfit, start.lost.as_slice()) else {
        return false;
    };
    misfit.as_str() == NO_HOST
}

#[test]
fn a_lost_drive_is_told_where_the_use_fits(rt: HostRuntime) {
    let is_told = match start(&rt, &["a"], NO_IMAGE) {
        Ok(start) => has_lost_drive(&start),
        Err(_) => false,
    };
    assert!(rt; is_told);
}

#[test]
fn no_drive_is_opened_in_a_faulty_use(rt: HostRuntime) {
    let is_told = match start(&rt, &["b"], NO_IMAGE) {
        Ok(start) => is_faulty_use(&start),
        Err(_) => false,
    };
    assert!(rt; is_told);
}

#[test]
fn takes_what_a_reader_gives(rt: HostRuntime) {
    let mut source = FileSource::new(b"abc".as_slice());
    let mut out = [0; 2];
    let first = source.take(&mut out);
    let taken = out;
    let second = source.take(&mut out);
    let third = source.take(&mut out);
    assert!(rt; first == Ok(2) && taken == *b"ab" && second == Ok(1) && third == Ok(0));
}
