ghost use Rattle.std.specs.Prelude.{◌≡◌, ◌<◌, ◌≤◌, ℕ, List, None, length, IfOk};

use mdv_base::Failed;
use mdv_port::{LineEnd, LineReader, MemSource, Source};
use std::alloc::{AllocError, Global};
use std::test::Fail;

// Gives the bytes one at a time, and tells nothing of them.
#[derive(Drop)]
struct OneByOne {
    bytes: Vec<u8>,
    given: usize,
}

impl Source for OneByOne {
    ghost left = { λ _. None };

    ghost faults = { λ _. 0 };

    fn take(&mut self, out: &mut [u8]) -> Result<usize, Failed> {
        let Some(byte) = self.bytes.get(self.given) else {
            return Ok(0);
        };
        self.given += 1;
        out[0] = *byte;
        Ok(1)
    }
}

// So many letters and what comes behind them.
fn input(alloc: Global, letters: usize, tail: &str) -> Result<Vec<u8>, AllocError> {
    let mut bytes = vec![in alloc; b'a'; letters]?;
    bytes.extend_from_slice(tail.as_bytes())?;
    Ok(bytes)
}

// What a call of the reader answers, and how many bytes the line has.
enum Told {
    Line(usize),
    TooLong,
    End,
    Failed,
}

fn is_told(end: Result<LineEnd, Failed>, length: usize, told: &Told) -> bool {
    match *told {
        Told::Line(want) => end == Ok(LineEnd::Line) && length == want,
        Told::TooLong => end == Ok(LineEnd::TooLong),
        Told::End => end == Ok(LineEnd::End),
        Told::Failed => end == Err(Failed),
    }
}

// The place of the first answer that is another.
fn first_wrong<I: Source>(source: &mut I, answers: &[Told]) -> Option<usize> {
    let mut reader = LineReader::new();
    for place in 0..answers.len() {
        let end = reader.next(source);
        if !is_told(end, reader.line().len(), &answers[place]) {
            return Some(place);
        }
    }
    None
}

// So many letters, what comes behind them, and the answers.
const CUTS: &[(usize, &str, &[Told])] = &[
    (0, "", &[Told::End]),
    (0, "\n", &[Told::Line(0), Told::End]),
    (0, "\n\n", &[Told::Line(0), Told::Line(0), Told::End]),
    (3, "", &[Told::Line(3), Told::End]),
    (3, "\n", &[Told::Line(3), Told::End]),
    (
        3,
        "\n\nbc",
        &[Told::Line(3), Told::Line(0), Told::Line(2), Told::End],
    ),
    (4095, "\r\nb", &[Told::Line(4096), Told::Line(1), Told::End]),
    (4096, "", &[Told::Line(4096), Told::End]),
    (4096, "\n", &[Told::Line(4096), Told::End]),
    (4097, "", &[Told::TooLong, Told::End]),
    (4097, "\n", &[Told::TooLong, Told::End]),
    (4097, "\nb\n", &[Told::TooLong, Told::Line(1), Told::End]),
    (8192, "\n", &[Told::TooLong, Told::End]),
    (10000, "\nbc", &[Told::TooLong, Told::Line(2), Told::End]),
];

#[test]
fn cuts_at_newlines(rt: HostRuntime) -> Result<(), Fail> {
    for (letters, tail, answers) in CUTS {
        let bytes = input(rt.alloc(), *letters, tail)?;
        let mut each = OneByOne {
            bytes: bytes.clone()?,
            given: 0,
        };
        let wrong = first_wrong(&mut MemSource::new(bytes), answers);
        assert!(rt; wrong.is_none(), "{letters} {tail:?} at {wrong:?}");
        let wrong = first_wrong(&mut each, answers);
        assert!(rt; wrong.is_none(), "{letters} {tail:?} at {wrong:?}");
    }
    Ok(())
}

#[test]
fn shows_the_line(rt: HostRuntime) -> Result<(), Fail> {
    let mut source = MemSource::new(input(rt.alloc(), 2, "\nmetadb -a\n")?);
    let mut reader = LineReader::new();
    assert!(rt; reader.line() == b"".as_slice());
    assert!(rt; reader.next(&mut source) == Ok(LineEnd::Line));
    assert!(rt; reader.line() == b"aa".as_slice());
    assert!(rt; reader.next(&mut source) == Ok(LineEnd::Line));
    assert!(rt; reader.line() == b"metadb -a".as_slice());
    assert!(rt; reader.next(&mut source) == Ok(LineEnd::End));
    assert!(rt; reader.line() == b"".as_slice());
    Ok(())
}

// The call of that number fails.
const FAILING: &[(u64, &[Told])] = &[
    (0, &[Told::Failed, Told::Line(2), Told::Line(1), Told::End]),
    (1, &[Told::Line(2), Told::Failed, Told::End]),
    (2, &[Told::Line(2), Told::Line(1), Told::Failed, Told::End]),
    (3, &[Told::Line(2), Told::Line(1), Told::End]),
];

#[test]
fn fails_at_the_call_of_that_number(rt: HostRuntime) -> Result<(), Fail> {
    for (number, answers) in FAILING {
        let mut source = MemSource::failing(input(rt.alloc(), 2, "\nb")?, *number);
        let wrong = first_wrong(&mut source, answers);
        assert!(rt; wrong.is_none(), "call {number} at {wrong:?}");
    }
    Ok(())
}

#[test]
fn gives_what_fits(rt: HostRuntime) -> Result<(), Fail> {
    let mut source = MemSource::new(input(rt.alloc(), 4, "bc")?);
    let mut out = [0; 4];
    assert!(rt; source.take(&mut out) == Ok(4));
    assert!(rt; out == *b"aaaa");
    assert!(rt; source.take(&mut out) == Ok(2));
    assert!(rt; out == *b"bcaa");
    assert!(rt; source.take(&mut out) == Ok(0));
    Ok(())
}

// How many of so many calls answer a line.
fn lines(reader: &mut LineReader, source: &mut MemSource, calls: u32) -> u32 {
    let mut lines: u32 = 0;
    for _ in 0..calls {
        if reader.next(source) == Ok(LineEnd::Line) {
            lines = lines.saturating_add(1);
        }
    }
    lines
}

// The last two answers behind a million lines, of so many lines in all.
fn last_two(alloc: Global, count: usize) -> Result<[Result<LineEnd, Failed>; 2], Fail> {
    let mut source = MemSource::new(vec![in alloc; b'\n'; count]?);
    let mut reader = LineReader::new();
    if lines(&mut reader, &mut source, 1_048_576) != 1_048_576 {
        return Err(Fail::from("fewer lines"));
    }
    Ok([reader.next(&mut source), reader.next(&mut source)])
}

#[test]
fn takes_so_many_lines(rt: HostRuntime) -> Result<(), Fail> {
    let spent = LineEnd::Spent {
        lines: 1_048_576,
        bytes: 1_048_576,
    };
    assert!(rt; last_two(rt.alloc(), 1_048_576)? == [Ok(LineEnd::End); 2]);
    assert!(rt; last_two(rt.alloc(), 1_048_577)? == [Ok(spent); 2]);
    Ok(())
}
