// The lines of a life's scripts.
use crate::blocks::Block;
use crate::ground::Ground;
use crate::spots::Value;
use std::alloc::{AllocError, Global};

/// A line of a script, by its kind, or a `tab` block.
#[derive(Clone, Copy, Debug, PartialEq, Eq)]
pub enum Line {
    /// A creation with `-f`, of the length that none means, 8192 blocks.
    Forced,
    /// One with `-l` and so many blocks, of 16 to 8192.
    Short(u64),
    /// A creation on a slice that no drive of alpha's has.
    Elsewhere,
    Boot,
    /// The volume of that number, 0 to 2, on the slice of that number.
    Volume(u8),
    /// The volume of that number goes.
    Clear(u8),
    /// A write of a block of the volume.
    Write(u8, u64, Value),
    /// A read of one.
    Read(u8, u64),
    /// The block of that number.
    Tab(u64),
}

impl Line {
    // Adds the line with its newline.
    fn push_to(
        self,
        alloc: Global,
        ground: &Ground,
        script: &mut String,
    ) -> Result<(), AllocError> {
        match self {
            Line::Forced => {
                let target = ground.home.target;
                script.push_str(format!(in alloc; "metadb -a -f c0t{target}d0s7\n")?.as_str())
            }
            Line::Short(blocks) => {
                let target = ground.home.target;
                script.push_str(format!(in alloc;
                    "metadb -a -f -l {blocks} c0t{target}d0s7\n"
                )?.as_str())
            }
            Line::Elsewhere => script.push_str("metadb -a -f c2t0d0s7\n"),
            Line::Boot => script.push_str("boot\n"),
            Line::Volume(n) => {
                let target = ground.volume(n).target;
                script.push_str(format!(in alloc;
                    "metainit d{n} 1 1 c0t{target}d0s{n}\n"
                )?.as_str())
            }
            Line::Clear(n) => script.push_str(format!(in alloc; "metaclear d{n}\n")?.as_str()),
            Line::Write(n, at, value) => {
                let hex = value.written();
                script.push_str(format!(in alloc; "write d{n} {at} {hex}\n")?.as_str())
            }
            Line::Read(n, at) => {
                script.push_str(format!(in alloc; "read d{n} {at} 1\n")?.as_str())
            }
            Line::Tab(number) => Block(number).push_to(script),
        }
    }
}

/// The script of these lines.
pub(crate) fn script_of(
    alloc: Global,
    ground: &Ground,
    lines: &[Line],
) -> Result<String, AllocError> {
    let mut script = String::new(alloc);
    for line in lines {
        line.push_to(alloc, ground, &mut script)?;
    }
    Ok(script)
}
