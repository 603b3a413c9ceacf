// Drawn lines, and a plain reader of what they are.
use crate::grammar_tests::kind;
use std::alloc::{AllocError, Global};
use std::test::Fail;

const BLANKS: [&str; 4] = [" ", "  ", "\t", " \t "];

// What begins a line, and what may stand in each place behind it.
const VERBS: [&str; 8] = ["boot", "tab", "end", "read", "write", "fill", "idle", "#"];

const PLACES: [[&str; 4]; 4] = [
    ["d0", "blue/d8191", "d8192", "7"],
    ["0", "18446744073709551615", "18446744073709551616", "07"],
    ["10", "aB0c", "0", "f"],
    ["00", "Ff", "f00", "g0"],
];

fn next(state: u64) -> u64 {
    state
        .wrapping_mul(6_364_136_223_846_793_005)
        .wrapping_add(1_442_695_040_888_963_407)
}

// One to five words, with blanks of all kinds between, before and behind.
fn draw(alloc: Global, seed: u64) -> Result<String, AllocError> {
    let mut line = String::new(alloc);
    let mut state = next(seed);
    let behind = (state >> 60) % 5;
    line.push_str(BLANKS[((state >> 40) % 4) as usize])?;
    line.push_str(VERBS[((state >> 50) % 8) as usize])?;
    for (place, words) in PLACES.iter().enumerate() {
        state = next(state);
        if place as u64 >= behind {
            return Ok(line);
        }
        line.push_str(BLANKS[((state >> 40) % 4) as usize])?;
        line.push_str(words[((state >> 50) % 4) as usize])?;
    }
    line.push_str(BLANKS[((state >> 60) % 4) as usize])?;
    Ok(line)
}

fn is_number(word: Option<&str>) -> bool {
    match word {
        Some("0") => true,
        Some(word) => !word.starts_with("0") && word.parse::<u64>().is_ok(),
        None => false,
    }
}

fn is_volume(word: Option<&str>) -> bool {
    matches!(word, Some("d0" | "blue/d8191"))
}

fn has_pairs(word: Option<&str>) -> bool {
    match word {
        Some(word) => word.len() % 2 == 0 && word.as_bytes().iter().all(u8::is_ascii_hexdigit),
        None => false,
    }
}

fn is_block(words: &[Option<&str>; 5]) -> bool {
    is_volume(words[0]) && is_number(words[1])
}

fn is_byte(word: Option<&str>) -> bool {
    has_pairs(word) && word.map_or(0, str::len) == 2
}

// What the line is, by its words.
fn plain_kind(line: &str) -> &'static str {
    let mut rest = line.split_ascii_whitespace();
    let verb = rest.next();
    let words = [
        rest.next(),
        rest.next(),
        rest.next(),
        rest.next(),
        rest.next(),
    ];
    let is_counted = is_number(words[2]) && words[2] != Some("0");
    match (verb, words.iter().flatten().count()) {
        (Some("#"), _) => "nothing",
        (Some("boot"), 0) => "boot",
        (Some("tab"), 0) => "tab",
        (Some("end"), 0) => "end",
        (Some("read"), 3) if is_block(&words) && is_counted => "read",
        (Some("write"), 3) if is_block(&words) && has_pairs(words[2]) => "write",
        (Some("fill"), 4) if is_block(&words) && is_counted && is_byte(words[3]) => "fill",
        (Some("idle"), 1) if is_number(words[0]) => "idle",
        _ => "bad",
    }
}

#[test]
fn reads_drawn_lines_as_a_plain_reader(rt: HostRuntime) -> Result<(), Fail> {
    for seed in 0..4000 {
        let line = draw(rt.alloc(), seed)?;
        let found = kind(rt.alloc(), line.as_bytes());
        assert!(rt; found == plain_kind(line.as_str()), "{line:?} {found}");
    }
    Ok(())
}
