// Runs over drives in memory, and what the drives hold.

use mdv_base::{Block, DriveNo, ZERO_BLOCK};
use mdv_port::MemSource;
use mdv_run::run;
use mdv_run_law::RunStatus;
use mdv_shelf::{MemShelf, Shelf};
use std::alloc::{AllocError, Global};

// The least slice for a replica, which lies at block 32, and one of the 16 blocks before it.
pub(crate) const TABLE: &str = "host alpha
drive c0t0d0 8224 alpha disk.img
slice c0t0d0s0 0 16
slice c0t0d0s7 16 8208 db
";

pub(crate) const BLOCKS: u64 = 8224;

// One drive of that many blocks.
pub(crate) const LONE: &[u64] = &[BLOCKS];

pub(crate) const CREATION: &str = "metadb -a -f c0t0d0s7\n";

const FRESH: u64 = 0x0102_0304_0506_0708;

// The run of a host, whose words are these, over this table of drives.
pub(crate) fn run_host(
    alloc: Global,
    words: &[&str],
    table: &str,
    shelf: &mut MemShelf,
    source: &mut MemSource,
) -> Result<RunStatus, AllocError> {
    let mut owned = Vec::new(alloc);
    for word in words {
        owned.push(String::from_str(alloc, word)?)?;
    }
    Ok(run(&owned, table.as_bytes(), shelf, source, FRESH))
}

// Whether the run of a script by alpha ends so, and this is all that was told since the drives were made.
pub(crate) fn ends_so(
    alloc: Global,
    table: &str,
    shelf: &mut MemShelf,
    script: &str,
    end: (RunStatus, &str),
) -> Result<bool, AllocError> {
    let mut source = MemSource::new(script.as_bytes().to_vec(alloc)?);
    let status = run_host(alloc, &["alpha"], table, shelf, &mut source)?;
    Ok(status == end.0 && shelf.told() == end.1.as_bytes())
}

// The words of a run, its table of drives, their blocks and the source: how it ends, and whether just this was told.
pub(crate) fn ends_by(
    alloc: Global,
    words: &[&str],
    (table, sizes): (&str, &[u64]),
    mut source: MemSource,
    told: &str,
) -> Result<Option<RunStatus>, AllocError> {
    let mut shelf = MemShelf::new(alloc, sizes)?;
    let end = run_host(alloc, words, table, &mut shelf, &mut source)?;
    Ok(if shelf.told() == told.as_bytes() {
        Some(end)
    } else {
        None
    })
}

pub(crate) fn source_of(alloc: Global, script: &str) -> Result<MemSource, AllocError> {
    Ok(MemSource::new(script.as_bytes().to_vec(alloc)?))
}

// What happens to the drives, or how the first of them is then.
pub(crate) enum Step {
    /// A run of the script by alpha ends so, and this is all that was told since the drives were made.
    Run(&'static str, RunStatus, &'static str),
    /// The call of that number fails.
    Fail(u64),
    /// So many calls pass.
    Stop(u64),
    Crash,
    /// The block gets these bytes, and zeros behind them.
    Put(u64, &'static [u8]),
    /// So do the blocks from that one to the one before this one.
    Fill(u64, u64, &'static [u8]),
    /// The block holds these bytes, and zeros behind them.
    Block(u64, &'static [u8]),
    /// So do those from that one to the one before this one.
    Blocks(u64, u64, &'static [u8]),
    /// The four blocks of a replica's head are these.
    Head(&'static [u8], &'static [u8], &'static [u8], &'static [u8]),
}

// The text and zeros behind it.
fn block_of(text: &[u8]) -> Block {
    let mut block = ZERO_BLOCK;
    for (to, byte) in block.iter_mut().zip(text) {
        *to = *byte;
    }
    block
}

fn put(shelf: &mut MemShelf, at: u64, text: &[u8]) -> bool {
    if shelf.drives() == 0 || at >= shelf.blocks(DriveNo(0)) {
        return false;
    }
    shelf.write(DriveNo(0), at, &[block_of(text)]).is_ok()
}

fn fill(shelf: &mut MemShelf, from: u64, to: u64, text: &[u8]) -> bool {
    for at in from..to {
        if !put(shelf, at, text) {
            return false;
        }
    }
    true
}

// The block holds these bytes, and zeros behind them.
fn holds(shelf: &mut MemShelf, at: u64, text: &[u8]) -> bool {
    let mut out = [ZERO_BLOCK];
    if shelf.drives() == 0 || at >= shelf.blocks(DriveNo(0)) {
        return false;
    }
    match shelf.read(DriveNo(0), at, &mut out) {
        Ok(()) => out[0] == block_of(text),
        Err(_) => false,
    }
}

fn all_hold(shelf: &mut MemShelf, from: u64, to: u64, text: &[u8]) -> bool {
    for at in from..to {
        if !holds(shelf, at, text) {
            return false;
        }
    }
    true
}

fn has_head(
    shelf: &mut MemShelf,
    master: &[u8],
    claim: &[u8],
    first: &[u8],
    second: &[u8],
) -> bool {
    holds(shelf, 32, master)
        && holds(shelf, 33, claim)
        && holds(shelf, 34, first)
        && holds(shelf, 35, second)
}

fn is_so(
    alloc: Global,
    table: &str,
    shelf: &mut MemShelf,
    step: &Step,
) -> Result<bool, AllocError> {
    match step {
        Step::Run(script, status, told) => ends_so(alloc, table, shelf, script, (*status, told)),
        Step::Fail(number) => {
            shelf.fail_call(*number)?;
            Ok(true)
        }
        Step::Stop(calls) => {
            shelf.stop_after(*calls);
            Ok(true)
        }
        Step::Crash => {
            shelf.crash(&[]);
            Ok(true)
        }
        Step::Put(at, text) => Ok(put(shelf, *at, text)),
        Step::Fill(from, to, text) => Ok(fill(shelf, *from, *to, text)),
        Step::Block(at, text) => Ok(holds(shelf, *at, text)),
        Step::Blocks(from, to, text) => Ok(all_hold(shelf, *from, *to, text)),
        Step::Head(master, claim, first, second) => {
            Ok(has_head(shelf, master, claim, first, second))
        }
    }
}

// The place of the first step that isn't so, on blank drives of these sizes.
pub(crate) fn first_wrong(
    alloc: Global,
    table: &str,
    sizes: &[u64],
    steps: &[Step],
) -> Result<Option<usize>, AllocError> {
    let mut shelf = MemShelf::new(alloc, sizes)?;
    for place in 0..steps.len() {
        if !is_so(alloc, table, &mut shelf, &steps[place])? {
            return Ok(Some(place));
        }
    }
    Ok(None)
}
