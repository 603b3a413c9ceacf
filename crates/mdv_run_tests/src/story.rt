// Runs of hosts over the drives of one table, as they are told.
use mdv_base::{Block, DriveNo, ZERO_BLOCK};
use mdv_port::MemSource;
use mdv_run::run;
use mdv_run_law::RunStatus;
use mdv_shelf::{MemShelf, Shelf};
use std::alloc::{AllocError, Global};
use std::process::Abort;
use std::test::Fail;

/// Drives, their table, and the runs so far.
#[derive(Drop)]
pub struct Story {
    alloc: Global,
    table: &'static str,
    pub shelf: MemShelf,
    runs: u64,
    /// How many bytes were asked for that were told.
    heard: usize,
}

/// A run: which drives are away meanwhile, the host, its script, and what is told. Where that has a refusal the status is
/// that some line was refused, and else that all is done.
#[derive(Clone, Copy)]
pub struct Act(
    pub &'static [u32],
    pub &'static str,
    pub &'static str,
    pub &'static str,
);

impl Story {
    /// Blank drives of so many blocks.
    pub(crate) fn new(
        alloc: Global,
        table: &'static str,
        sizes: &[u64],
    ) -> Result<Story, AllocError> {
        Ok(Story {
            alloc,
            table,
            shelf: MemShelf::new(alloc, sizes)?,
            runs: 0,
            heard: 0,
        })
    }

    /// The status of a run by that host, which no run before was.
    pub(crate) fn run(&mut self, host: &str, script: &str) -> Result<RunStatus, AllocError> {
        let mut source = MemSource::new(script.as_bytes().to_vec(self.alloc)?);
        let words = [format!(in self.alloc; "{host}")?];
        let fresh = self.runs.saturating_add(0x0203_0405_0607_0800);
        self.runs = self.runs.saturating_add(1);
        let table = self.table.as_bytes();
        Ok(run(&words, table, &mut self.shelf, &mut source, fresh))
    }

    /// What was told since the last such question.
    pub(crate) fn news(&mut self) -> Result<String, Fail> {
        let told = self.shelf.told();
        let news = told.get(self.heard..).ok_or("fewer bytes than before")?;
        self.heard = told.len();
        let text = str::from_utf8(news).map_err(|_| Fail::from("no text"))?;
        Ok(String::from_str(self.alloc, text)?)
    }

    pub(crate) fn lose(&mut self, drives: &[u32]) -> Result<(), Fail> {
        for drive in drives {
            if *drive >= self.shelf.drives() {
                return Err(Fail::from("no such drive"));
            }
            self.shelf.lose(DriveNo(*drive));
        }
        Ok(())
    }

    /// The drive is lost from the call of that number on, counted from the first run's start.
    pub(crate) fn lose_at(&mut self, drive: u32, call: u64) -> Result<(), Fail> {
        if drive >= self.shelf.drives() {
            return Err(Fail::from("no such drive"));
        }
        Ok(self.shelf.lose_at(DriveNo(drive), call)?)
    }

    pub(crate) fn bring_back(&mut self, drives: &[u32]) -> Result<(), Fail> {
        for drive in drives {
            if *drive >= self.shelf.drives() {
                return Err(Fail::from("no such drive"));
            }
            self.shelf.bring_back(DriveNo(*drive));
        }
        Ok(())
    }

    /// The block of the drive has these bytes, and zeros behind them.
    pub(crate) fn has_block(&mut self, drive: u32, at: u64, text: &[u8]) -> Result<bool, Fail> {
        if drive >= self.shelf.drives() || at >= self.shelf.blocks(DriveNo(drive)) {
            return Err(Fail::from("no such block"));
        }
        let mut out = [ZERO_BLOCK];
        if self.shelf.read(DriveNo(drive), at, &mut out).is_err() {
            return Err(Fail::from("a failed read"));
        }
        Ok(out[0] == block_of(text))
    }

    /// Puts these bytes into a block, which is on the disk then.
    pub(crate) fn put(&mut self, drive: u32, at: u64, text: &[u8]) -> Result<(), Fail> {
        if drive >= self.shelf.drives() || at >= self.shelf.blocks(DriveNo(drive)) {
            return Err(Fail::from("no such block"));
        }
        let drive = DriveNo(drive);
        if self.shelf.write(drive, at, &[block_of(text)]).is_err()
            || self.shelf.sync(drive).is_err()
        {
            return Err(Fail::from("a failed write"));
        }
        Ok(())
    }
}

fn block_of(text: &[u8]) -> Block {
    let mut block = ZERO_BLOCK;
    for (to, byte) in block.iter_mut().zip(text) {
        *to = *byte;
    }
    block
}

/// The status of a run that came to its end and told this.
pub(crate) fn status_behind(told: &str) -> RunStatus {
    if told.contains("refused") {
        RunStatus::SomeRefused
    } else {
        RunStatus::Done
    }
}

/// A run with some drives away, which are back when it has ended.
pub(crate) fn expect_act<R: Abort + AllocGlobal>(
    rt: &R,
    story: &mut Story,
    act: &Act,
) -> Result<(), Fail> {
    let Act(away, host, script, want) = *act;
    story.lose(away)?;
    let status = story.run(host, script)?;
    let told = story.news()?;
    assert_eq!(rt; told.as_str(), want, "{script} {away:?}");
    assert_eq!(rt; status, status_behind(want), "{script} {away:?}");
    story.bring_back(away)
}

/// These runs, one behind the other. Between two of them a crash leaves of each block the value that this choice picks.
pub(crate) fn expect_acts<R: Abort + AllocGlobal>(
    rt: &R,
    story: &mut Story,
    acts: &[Act],
    choice: &[u32],
) -> Result<(), Fail> {
    for act in acts {
        expect_act(rt, story, act)?;
        story.shelf.crash(choice);
    }
    Ok(())
}
