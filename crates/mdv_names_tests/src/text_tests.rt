use mdv_text::*;
use std::alloc::{AllocError, Global};

const NUMBERS: &[(&[u8], Option<u64>)] = &[
    (b"0", Some(0)),
    (b"8191", Some(8191)),
    (b"18446744073709551615", Some(u64::MAX)),
    (b"", None),
    (b"00", None),
    (b"07", None),
    (b"+7", None),
    (b"-7", None),
    (b"7 ", None),
    (b"1k", None),
    (b"18446744073709551616", None),
    (b"100000000000000000000", None),
];

#[test]
fn reads_numbers(rt: HostRuntime) {
    for (text, want) in NUMBERS {
        assert!(rt; number(text) == *want, "{text:?}");
    }
}

// The number in front, and how many bytes follow.
const SPLIT: &[(&[u8], Option<(u64, usize)>)] = &[
    (b"12d3", Some((12, 2))),
    (b"012", None),
    (b"d", None),
];

fn is_split(text: &[u8], want: Option<(u64, usize)>) -> bool {
    match split_number(text) {
        Some((number, rest)) => want == Some((number, rest.len())),
        None => want == None,
    }
}

#[test]
fn splits_a_number_from_what_follows(rt: HostRuntime) {
    for (text, want) in SPLIT {
        assert!(rt; is_split(text, *want), "{text:?}");
    }
}

// In blocks.
const SIZES: &[(&[u8], Option<u64>)] = &[
    (b"0", Some(0)),
    (b"700", Some(700)),
    (b"700b", Some(700)),
    (b"16K", Some(32)),
    (b"100m", Some(204_800)),
    (b"2G", Some(4_194_304)),
    (b"1t", Some(2_147_483_648)),
    (b"512T", Some(1_099_511_627_776)),
    (b"1099511627776", Some(MAX_BLOCKS)),
    (b"k", None),
    (b"01k", None),
    (b"1kb", None),
    (b"1p", None),
    (b"513t", None),
    (b"1099511627777", None),
    (b"18446744073709551615t", None),
];

#[test]
fn reads_sizes_in_blocks(rt: HostRuntime) {
    for (text, want) in SIZES {
        assert!(rt; size(text) == *want, "{text:?}");
    }
}

const LINES: &[(&[u8], &[Token])] = &[
    (
        b" \tmetainit  d10\t1 1 ",
        &[
            Token { start: 2, end: 10 },
            Token { start: 12, end: 15 },
            Token { start: 16, end: 17 },
            Token { start: 18, end: 19 },
        ],
    ),
    (b"", &[]),
    (b" \t ", &[]),
];

fn are_words(alloc: Global, line: &[u8], want: &[Token]) -> bool {
    if line.len() > 80 {
        return false;
    }
    match split(alloc, line) {
        Ok(tokens) => tokens.as_slice() == want,
        Err(_) => false,
    }
}

#[test]
fn splits_a_line_into_words(rt: HostRuntime) {
    for (line, want) in LINES {
        assert!(rt; are_words(rt.alloc(), line, want), "{line:?}");
    }
    assert!(rt; first_word(b"\t ").is_none());
}

#[test]
fn tells_the_first_byte_past_ascii(rt: HostRuntime) {
    let split = split(rt.alloc(), b"ab\x7f \x80\xff");
    assert!(rt; matches!(split, Err(TextFault::NotAscii(4))));
}

const FAULTS: &[(TextFault, &str)] = &[
    (TextFault::NotAscii(4), "byte 4 is past ASCII"),
    (TextFault::Memory, "out of memory"),
];

fn is_told(alloc: Global, fault: &TextFault, want: &str) -> Result<bool, AllocError> {
    let text = format!(in alloc; "{fault}")?;
    Ok(text.as_str() == want)
}

#[test]
fn tells_a_fault(rt: HostRuntime) {
    for (fault, want) in FAULTS {
        assert!(rt; is_told(rt.alloc(), fault, want) == Ok(true), "{want}");
    }
}
