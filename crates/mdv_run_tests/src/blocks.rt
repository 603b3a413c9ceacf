// `tab` blocks of drawn lines, and a plain reader of them.
use std::alloc::AllocError;

/// A block of three of the lines below, by a number whose last three digits to the base 8 name them.
#[derive(Clone, Copy)]
pub struct Block(pub u64);

// Entries, lines without one, and two that are none.
const LINES: [&str; 8] = [
    "hsp001\n",
    "\thsp002  c0t0d0s0 \n",
    "d10 1 1 c0t0d0s0\n",
    "d10 1\t1 c0t1d0s0 # d11\n",
    "# d11\n",
    " \n",
    "boot\n",
    "d10 1 1\n",
];

impl Block {
    fn lines(self) -> [&'static str; 3] {
        let Block(number) = self;
        [
            LINES[(number % 8) as usize],
            LINES[((number >> 3) % 8) as usize],
            LINES[((number >> 6) % 8) as usize],
        ]
    }

    /// Adds the block with its first and last lines.
    pub(crate) fn push_to(self, script: &mut String) -> Result<(), AllocError> {
        script.push_str("tab\n")?;
        for line in self.lines() {
            script.push_str(line)?;
        }
        script.push_str("end\n")
    }

    /// How many entries it has; none where a line is of no form.
    pub(crate) fn entries(self) -> Option<u32> {
        let [first, second, third] = self.lines();
        Some(
            entries_in(first)?
                .saturating_add(entries_in(second)?)
                .saturating_add(entries_in(third)?),
        )
    }
}

// A pool, a pool with a slice, a stripe, or no word.
fn entries_in(line: &str) -> Option<u32> {
    match &initials(line.as_bytes()) {
        b"h\0\0\0" | b"hc\0\0" | b"d11c" => Some(1),
        b"\0\0\0\0" => Some(0),
        _ => None,
    }
}

// The first bytes of the words in front of a comment, of four at most.
fn initials(line: &[u8]) -> [u8; 4] {
    let mut found = [0; 4];
    let mut count = 0_usize;
    let mut behind_blank = true;
    for byte in line {
        if *byte == b'#' {
            return found;
        }
        let is_blank = byte.is_ascii_whitespace();
        if behind_blank && !is_blank && count < 4 {
            found[count] = *byte;
            count = count.saturating_add(1);
        }
        behind_blank = is_blank;
    }
    found
}
