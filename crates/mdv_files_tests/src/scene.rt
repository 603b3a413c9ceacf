// Files in a folder of their own, the drives of a run over them, and what happens to them step by step.

ghost use Rattle.std.specs.Prelude.{◌<◌, ◌^◌, IfOk, IsTrue, vec_len};
ghost use Rattle.mdv_shelf.specs.Calls.{InDrive};

use mdv_base::{Block, DriveNo, Failed, ZERO_BLOCK};
use mdv_files::{
    BOOT_ID, FileBench, FileId, Image, Locked, Note, Start, SystemStart, Unopened, open_table,
};
use mdv_shelf::{Bench, Shelf};
use std::alloc::{AllocError, Global};
use std::fs::{File, OpenOptions};
use std::io::{self, ErrorKind};
use std::os::unix::fs::symlink;
use std::{env, fs};

// A call on the only drive, which has 8 blocks.
pub(crate) enum Call {
    /// From that block on it has a block of each of these bytes.
    Read(u64, &'static [u8]),
    Write(u64, &'static [u8]),
    Sync,
    Give,
}

// What happens, or how it is then. In each text `@` stands for the folder of the scene, with a slash behind it.
pub(crate) enum Step {
    /// There is a file of so many blocks of zeros.
    File(&'static str, u64),
    Folder(&'static str),
    Hard(&'static str, &'static str),
    Soft(&'static str, &'static str),
    /// The drives are those with which a run over such a table begins, and of which this is told.
    Begin(&'static str, &'static str),
    /// A run of host a that begins beside it tells this, and ends.
    Beside(&'static str, &'static str),
    /// A run of that host.
    BesideOf(&'static str, &'static str, &'static str),
    End,
    /// The only drive is what is opened there, also for writing or not, and is noted by another path.
    Open(&'static str, bool, &'static str),
    /// The only drive was lost from the start.
    Lost,
    /// The only drive is another host's.
    Foreign,
    Done(Call),
    Fails(Call),
    /// The file has a block of each of these bytes, and no more.
    Has(&'static str, &'static [u8]),
    /// All that `drives.failed` has is a line of this image.
    Remembers(&'static str),
    /// Whether `drives.failed` has a line of this image.
    Names(&'static str, bool),
    /// From here on `drives.failed` has this text.
    Remember(&'static str),
    /// What is opened there can't be synced, which is noted by another path.
    Unsynced(&'static str, &'static str),
}

// A folder of its own, and the drives of a run.
#[derive(Drop)]
pub(crate) struct Scene {
    rt: HostRuntime,
    folder: String,
    bench: FileBench<Vec<u8>>,
}

const NO_DISK: FileId = FileId::File { dev: 0, ino: 0 };

fn blocks_of(alloc: Global, bytes: &[u8]) -> Result<Vec<Block>, AllocError> {
    let mut blocks = Vec::new(alloc);
    for byte in bytes {
        blocks.push([*byte; 512])?;
    }
    Ok(blocks)
}

pub(crate) fn strings(alloc: Global, words: &[&str]) -> Result<Vec<String>, AllocError> {
    let mut strings = Vec::new(alloc);
    for word in words {
        strings.push(String::from_str(alloc, word)?)?;
    }
    Ok(strings)
}

fn no_drives(alloc: Global) -> FileBench<Vec<u8>> {
    FileBench::new(Vec::new(alloc), Vec::new(alloc))
}

fn one_drive(alloc: Global, image: Image) -> Result<FileBench<Vec<u8>>, AllocError> {
    Ok(FileBench::new(vec![in alloc; image]?, Vec::new(alloc)))
}

// A folder that wasn't there.
fn new_folder(rt: &HostRuntime, name: &str) -> io::Result<String> {
    let temp = env::temp_dir(rt)?;
    for number in 0..10_000 {
        let folder = format!(in rt.alloc(); "{}/metad-{name}-{number}", temp.as_str())?;
        if fs::create_dir(rt, folder.as_str()).is_ok() {
            return Ok(folder);
        }
    }
    Err(io::Error::from(ErrorKind::AlreadyExists))
}

impl Scene {
    pub(crate) fn new(rt: &HostRuntime, name: &str) -> io::Result<Scene> {
        let folder = new_folder(rt, name)?;
        let folder = fs::canonicalize(rt, folder.as_str())?;
        Ok(Scene {
            rt: *rt,
            folder: format!(in rt.alloc(); "{}/", folder.as_str())?,
            bench: no_drives(rt.alloc()),
        })
    }

    pub(crate) fn clear(&self) -> io::Result<()> {
        fs::remove_dir_all(&self.rt, self.folder.as_str())
    }

    fn text(&self, text: &str) -> Result<String, AllocError> {
        text.replace(self.rt.alloc(), '@', self.folder.as_str())
    }

    fn system(&self) -> io::Result<SystemStart> {
        let file = self.text("@drives.failed")?;
        SystemStart::read(&self.rt, file.as_str(), BOOT_ID)
    }

    fn note(&self, path: &str) -> io::Result<Note> {
        let path = self.text(path)?;
        Ok(self.system()?.note(&self.rt, path.as_str())?)
    }

    fn open(&self, path: &str, writable: bool) -> io::Result<File> {
        let path = self.text(path)?;
        let mut options = OpenOptions::new();
        options.read(true).write(writable);
        options.open(&self.rt, path.as_str())
    }

    fn make_file(&self, path: &str, blocks: u64) -> io::Result<bool> {
        let path = self.text(path)?;
        File::create(&self.rt, path.as_str())?.set_len(blocks.wrapping_mul(512))?;
        Ok(true)
    }

    fn make_folder(&self, path: &str) -> io::Result<bool> {
        let path = self.text(path)?;
        fs::create_dir(&self.rt, path.as_str())?;
        Ok(true)
    }

    fn hard(&self, path: &str, link: &str) -> io::Result<bool> {
        let (path, link) = (self.text(path)?, self.text(link)?);
        fs::hard_link(&self.rt, path.as_str(), link.as_str())?;
        Ok(true)
    }

    fn soft(&self, path: &str, link: &str) -> io::Result<bool> {
        let (path, link) = (self.text(path)?, self.text(link)?);
        symlink(&self.rt, path.as_str(), link.as_str())?;
        Ok(true)
    }

    fn start(&self, host: &str, table: &str) -> io::Result<Start>
        ensures { IfOk result (λ start. vec_len start.images < 2 ^ 32) }
    {
        let words = strings(self.rt.alloc(), &[host])?;
        let table = self.text(table)?;
        let system = self.system();
        Ok(open_table(&self.rt, &words, table.as_bytes(), &system)?)
    }

    // Whether these are the lines of the drives that are lost.
    fn tells(&self, lost: &[String], want: &str) -> io::Result<bool> {
        let mut told = String::new(self.rt.alloc());
        for line in lost {
            told.push_str(line.as_str())?;
            told.push('\n')?;
        }
        Ok(told.as_str() == self.text(want)?.as_str())
    }

    fn begin(&mut self, table: &str, lost: &str) -> io::Result<bool> {
        let start = self.start("a", table)?;
        let is_told = self.tells(&start.lost, lost)?;
        self.bench = FileBench::new(start.images, Vec::new(self.rt.alloc()));
        Ok(is_told)
    }

    fn beside(&self, host: &str, table: &str, lost: &str) -> io::Result<bool> {
        let start = self.start(host, table)?;
        self.tells(&start.lost, lost)
    }

    fn hold(&mut self, path: &str, writable: bool, noted: &str) -> io::Result<bool> {
        let file = self.open(path, writable)?;
        let Ok(locked) = Locked::new(file, NO_DISK, self.note(noted)?) else {
            return Ok(false);
        };
        self.take(Image::open(locked.unsettled(), 8))
    }

    fn take(&mut self, image: Image) -> io::Result<bool> {
        self.bench = one_drive(self.rt.alloc(), image)?;
        Ok(true)
    }

    fn has(&self, path: &str, bytes: &[u8]) -> io::Result<bool> {
        let path = self.text(path)?;
        let held = fs::read(&self.rt, path.as_str())?;
        let want = blocks_of(self.rt.alloc(), bytes)?;
        Ok(held.as_slice() == want.as_slice().as_flattened())
    }

    fn remembers(&self, path: &str) -> io::Result<bool> {
        let file = self.text("@drives.failed")?;
        let held = fs::read_to_string(&self.rt, file.as_str())?;
        let boot_id = fs::read_to_string(&self.rt, BOOT_ID)?;
        let path = self.text(path)?;
        let line = format!(in self.rt.alloc(); "{} {path}\n", boot_id.as_str().trim_end())?;
        Ok(held.as_str() == line.as_str())
    }

    fn names(&self, path: &str, want: bool) -> io::Result<bool> {
        let note = self.note(path)?;
        let journal = self.system()?.journal(&self.rt)?;
        Ok(journal.has(&note) == want)
    }

    fn remember(&self, text: &str) -> io::Result<bool> {
        let file = self.text("@drives.failed")?;
        let text = self.text(text)?;
        fs::write(&self.rt, file.as_str(), text.as_str())?;
        Ok(true)
    }

    fn unsynced(&self, path: &str, noted: &str) -> io::Result<bool> {
        let file = self.open(path, true)?;
        let note = self.note(noted)?;
        let journal = self.system()?.journal(&self.rt)?;
        let Ok(locked) = Locked::new(file, NO_DISK, note) else {
            return Ok(false);
        };
        match locked.settle(&journal) {
            Err(Unopened::Lost { reason, id }) => {
                let text = format!(in self.rt.alloc(); "{reason}")?;
                Ok(text.as_str().starts_with("can't be synced: ") && id == Some(NO_DISK))
            }
            _ => Ok(false),
        }
    }

    // Whether there is one drive alone that has so many blocks from that one on.
    fn has_drive(&self, at: u64, count: usize) -> bool
        ensures { IsTrue result → InDrive (⟦<FileBench<Vec<u8>> as Shelf>⟧.sizes self.now.bench) 0 at count }
    {
        if count == 0 || count > 8 || at > 8 - count as u64 {
            return false;
        }
        self.bench.drives() == 1 && self.bench.blocks(DriveNo(0)) == 8
    }

    // Whether the blocks are those, where the read is answered.
    fn read(&mut self, at: u64, want: &[Block]) -> Result<bool, Failed> {
        let Ok(mut out) = vec![in self.rt.alloc(); ZERO_BLOCK; want.len()] else {
            return Ok(false);
        };
        if !self.has_drive(at, out.len()) {
            return Ok(false);
        }
        self.bench.read(DriveNo(0), at, &mut out)?;
        Ok(out.as_slice().as_flattened() == want.as_flattened())
    }

    fn write(&mut self, at: u64, blocks: &[Block]) -> Result<bool, Failed> {
        if !self.has_drive(at, blocks.len()) {
            return Ok(false);
        }
        self.bench.write(DriveNo(0), at, blocks)?;
        Ok(true)
    }

    fn sync(&mut self) -> Result<bool, Failed> {
        if !self.has_drive(0, 1) {
            return Ok(false);
        }
        self.bench.sync(DriveNo(0))?;
        Ok(true)
    }

    // Whether the call is answered, and is as it says.
    fn call(&mut self, call: &Call) -> Result<bool, Failed> {
        match *call {
            Call::Read(at, bytes) => match blocks_of(self.rt.alloc(), bytes) {
                Ok(blocks) => self.read(at, &blocks),
                Err(_) => Ok(false),
            },
            Call::Write(at, bytes) => match blocks_of(self.rt.alloc(), bytes) {
                Ok(blocks) => self.write(at, &blocks),
                Err(_) => Ok(false),
            },
            Call::Sync => self.sync(),
            Call::Give => match self.bench.give(b"ok\n") {
                Ok(()) => Ok(true),
                Err(Failed) => Err(Failed),
            },
        }
    }

    fn is_so(&mut self, step: &Step) -> io::Result<bool> {
        match step {
            Step::File(path, blocks) => self.make_file(path, *blocks),
            Step::Folder(path) => self.make_folder(path),
            Step::Hard(path, link) => self.hard(path, link),
            Step::Soft(path, link) => self.soft(path, link),
            Step::Begin(table, lost) => self.begin(table, lost),
            Step::Beside(table, lost) => self.beside("a", table, lost),
            Step::BesideOf(host, table, lost) => self.beside(host, table, lost),
            Step::Open(path, writable, noted) => self.hold(path, *writable, noted),
            Step::Lost => self.take(Image::lost(8, None)),
            Step::Foreign => self.take(Image::foreign(8)),
            Step::Has(path, bytes) => self.has(path, bytes),
            Step::Remembers(path) => self.remembers(path),
            Step::Names(path, want) => self.names(path, *want),
            Step::Remember(text) => self.remember(text),
            Step::Unsynced(path, noted) => self.unsynced(path, noted),
            Step::Done(call) => Ok(self.call(call) == Ok(true)),
            Step::Fails(call) => Ok(self.call(call) == Err(Failed)),
            Step::End => {
                self.bench = no_drives(self.rt.alloc());
                Ok(true)
            }
        }
    }

    // The place of the first step that isn't so.
    pub(crate) fn first_wrong(&mut self, steps: &[Step]) -> Option<usize> {
        for place in 0..steps.len() {
            match self.is_so(&steps[place]) {
                Ok(true) => {}
                _ => return Some(place),
            }
        }
        None
    }
}
