// Tables of lines, each with its reply, and the scripts that they are.

use crate::bench::ends_so;
use mdv_run_law::RunStatus;
use mdv_shelf::MemShelf;
use std::alloc::{AllocError, Global};
use std::test::Fail;

/// A drive of 40000 blocks: the slice for replicas, which has more than a replica takes, and four for volumes, of
/// which 0 and 4 overlap.
pub const WIDE: &str = "host alpha
drive c0t0d0 40000 alpha d0.img
slice c0t0d0s0 0 1000
slice c0t0d0s1 1000 990
slice c0t0d0s3 2000 4000
slice c0t0d0s4 999 1
slice c0t0d0s7 12000 28000 db
";

pub const WIDE_BLOCKS: u64 = 40000;

/// A line and its reply, both without the last newline.
pub type Row = (&'static str, &'static str);

// These lines, each with its newline.
fn script_of(alloc: Global, rows: &[Row]) -> Result<String, AllocError> {
    let mut script = String::new(alloc);
    for (line, _) in rows {
        script.push_str(line)?;
        script.push('\n')?;
    }
    Ok(script)
}

fn replies_of(alloc: Global, rows: &[Row]) -> Result<String, AllocError> {
    let mut told = String::new(alloc);
    for (_, reply) in rows {
        told.push_str(reply)?;
        told.push('\n')?;
    }
    Ok(told)
}

fn status_of(rows: &[Row]) -> RunStatus {
    for (_, reply) in rows {
        if reply.as_bytes().starts_with(b"refused") {
            return RunStatus::SomeRefused;
        }
    }
    RunStatus::Done
}

/// A script of these lines on a blank drive of so many blocks, where the calls of these numbers fail.
pub struct Lines {
    pub table: &'static str,
    pub blocks: u64,
    pub failing: &'static [u64],
    pub rows: &'static [Row],
}

fn drive_of(alloc: Global, lines: &Lines) -> Result<MemShelf, AllocError> {
    let mut shelf = MemShelf::new(alloc, &[lines.blocks])?;
    for number in lines.failing {
        shelf.fail_call(*number)?;
    }
    Ok(shelf)
}

fn are_answered(alloc: Global, lines: &Lines) -> Result<bool, AllocError> {
    let mut shelf = drive_of(alloc, lines)?;
    let script = script_of(alloc, lines.rows)?;
    let told = replies_of(alloc, lines.rows)?;
    let end = (status_of(lines.rows), told.as_str());
    ends_so(alloc, lines.table, &mut shelf, script.as_str(), end)
}

/// The rows of the first of them that isn't answered so.
pub(crate) fn first_wrong(alloc: Global, each: &[Lines]) -> Result<Option<&'static [Row]>, Fail> {
    for lines in each {
        if !are_answered(alloc, lines)? {
            return Ok(Some(lines.rows));
        }
    }
    Ok(None)
}
