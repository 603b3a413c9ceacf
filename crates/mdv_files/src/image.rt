ghost use Rattle.std.specs.Prelude.{◌≡◌, ◌↔◌, ◌≤◌, ◌*◌, ◌^◌};

use crate::disk::{Disk, FileId};
use crate::held::Held;
use mdv_base::{Block, Failed};
use std::mem;
use std::os::unix::fs::FileExt;

/// How many bytes a block has.
pub const BLOCK_BYTES: u64 = 512;

/// Whether the calls on a drive reach its file.
#[derive(Drop)]
pub enum State {
    /// They do.
    Open(Disk),
    /// A write or a sync of this run failed, so what the file's pages in memory hold may differ from what
    /// the disk has, and the system tells it once only. No call reaches the file any more.
    Shut(Held),
    /// It was never opened. The file is kept where no other name of it may be opened either.
    Lost(Option<FileId>),
    /// It isn't an own drive of the run's host, so nothing of it is opened.
    Foreign,
}

/// A drive that lies in a file or on a block device, and how often a call on it failed.
#[derive(Drop)]
pub struct Image {
    state: State,
    blocks: u64,
    faults: u64,
    ghost few: { blocks ≤ 2 ^ 40 },
}

impl Image {
    ghost use Rattle.std.specs.Prelude.{IsTrue, OnOk, OnErr, IsOk};
    ghost use Rattle.mdv_files.specs.Image.{IsRead, IsChange, one_more, shut, id_of};
    ghost use Rattle.mdv_files.specs.declared.image.State.{State};

    /// The drive of so many blocks in the file.
    pub fn open(disk: Disk, blocks: u64) -> Image
        requires { blocks ≤ 2 ^ 40 }
        ensures state { result.state ≡ State.Open disk }
        ensures blocks { result.blocks ≡ blocks }
        ensures fresh { result.faults ≡ 0 }
    {
        Image {
            state: State::Open(disk),
            blocks,
            faults: 0,
        }
    }

    /// A drive of so many blocks that is lost: each call on it fails.
    pub fn lost(blocks: u64, id: Option<FileId>) -> Image
        requires { blocks ≤ 2 ^ 40 }
        ensures state { result.state ≡ State.Lost id }
        ensures blocks { result.blocks ≡ blocks }
        ensures fresh { result.faults ≡ 0 }
    {
        Image {
            state: State::Lost(id),
            blocks,
            faults: 0,
        }
    }

    /// A drive of so many blocks that isn't the host's own: each call on it fails.
    pub fn foreign(blocks: u64) -> Image
        requires { blocks ≤ 2 ^ 40 }
        ensures state { result.state ≡ State.Foreign }
        ensures blocks { result.blocks ≡ blocks }
        ensures fresh { result.faults ≡ 0 }
    {
        Image {
            state: State::Foreign,
            blocks,
            faults: 0,
        }
    }

    /// How many blocks of 512 bytes it has, whether or not calls reach it.
    pub fn blocks(&self) -> u64
        ensures { result ≡ self.now.blocks }
    {
        self.blocks
    }

    /// Which file calls on it reach, or may reach under no other name.
    pub fn id(&self) -> Option<FileId>
        ensures { result ≡ id_of self.now }
    {
        match &self.state {
            State::Open(disk) => Some(disk.id()),
            State::Lost(id) => *id,
            State::Shut(_) | State::Foreign => None,
        }
    }

    /// Reads the blocks from that one on, by one positioned call. After a failure `out` holds anything.
    pub fn read(&mut self, at: u64, out: &mut [Block]) -> Result<(), Failed>
        requires { at ≤ self.old.blocks }
        ensures { IsRead self.old result self.new }
    {
        let done = match &self.state {
            State::Open(disk) => disk
                .file()
                .read_exact_at(out.as_flattened_mut(), at * BLOCK_BYTES)
                .is_ok(),
            State::Shut(_) | State::Lost(_) | State::Foreign => false,
        };
        self.answer(done)
    }

    /// Writes the blocks from that one on, by one positioned call.
    pub fn write(&mut self, at: u64, from: &[Block]) -> Result<(), Failed>
        requires { at ≤ self.old.blocks }
        ensures { IsChange self.old result self.new }
    {
        let done = match &self.state {
            State::Open(disk) => disk
                .file()
                .write_all_at(from.as_flattened(), at * BLOCK_BYTES)
                .is_ok(),
            State::Shut(_) | State::Lost(_) | State::Foreign => false,
        };
        self.answer_change(done)
    }

    /// Puts all that was written on the disk, by `fdatasync`.
    pub fn sync(&mut self) -> Result<(), Failed>
        ensures { IsChange self.old result self.new }
    {
        let done = match &self.state {
            State::Open(disk) => disk.file().sync_data().is_ok(),
            State::Shut(_) | State::Lost(_) | State::Foreign => false,
        };
        self.answer_change(done)
    }

    // The answer of a write or a sync that was done or not. One that wasn't shuts the drive.
    fn answer_change(&mut self, done: bool) -> Result<(), Failed>
        ensures which { IsOk result ↔ IsTrue done }
        ensures ok { OnOk result (self.new ≡ self.old) }
        ensures err { OnErr result (self.new ≡ record self.old { state = shut self.old.state; faults = one_more self.old.faults }) }
        ensures no_fewer { self.old.faults ≤ self.new.faults }
    {
        if !done {
            self.shut();
        }
        self.answer(done)
    }

    // Notes an open drive in `drives.failed`, and lets no call reach its file any more.
    fn shut(&mut self)
        ensures { self.new ≡ record self.old { state = shut self.old.state } }
    {
        self.state = match mem::replace(&mut self.state, State::Lost(None)) {
            State::Open(disk) => {
                disk.note().write();
                State::Shut(Held::new(disk))
            }
            other => other,
        };
    }

    // The answer of a call that was done or not, which counts it where it wasn't.
    fn answer(&mut self, done: bool) -> Result<(), Failed>
        ensures which { IsOk result ↔ IsTrue done }
        ensures ok { OnOk result (self.new ≡ self.old) }
        ensures err { OnErr result (self.new ≡ record self.old { faults = one_more self.old.faults }) }
        ensures no_fewer { self.old.faults ≤ self.new.faults }
    {
        if done {
            return Ok(());
        }
        self.faults = self.faults.saturating_add(1);
        Err(Failed)
    }
}
