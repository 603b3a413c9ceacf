ghost use Rattle.std.specs.Prelude.{◌≡◌, ◌↔◌, ◌<◌, ◌≤◌, ◌^◌, IsNone, IfErr, IfOk, IfSome, IfNone, length};
ghost use Rattle.mdv_files.specs.Opening.{IsTrusted, IsReason, IsSound, IsNoFile, IsOfFile, IsUnseen, HasFileAt, HasNoFile};

use crate::image::{BLOCK_BYTES, Image};
use crate::journal::{Journal, Note, SystemStart};
use crate::reason::{Call, Reason};
use mdv_name::{DriveKind, DriveLine};
use std::alloc::AllocError;
use std::fs;
use std::fs::{File, Metadata, OpenOptions, TryLockError};
use std::io::{self, ErrorKind, Seek, SeekFrom};
use std::os::unix::fs::{FileTypeExt, MetadataExt};
use std::path::PathBuf;

/// By what two names of one file are known: a regular file has a number on its file system, and a block
/// device one of its own.
#[derive(Clone, Copy, Debug, PartialEq, Eq)]
pub enum FileId {
    File { dev: u64, ino: u64 },
    Device { rdev: u64 },
}

impl FileId {
    // None of what is neither a regular file nor a block device.
    fn of(metadata: &Metadata) -> Option<FileId> {
        if metadata.is_file() {
            Some(FileId::File {
                dev: metadata.dev(),
                ino: metadata.ino(),
            })
        } else if metadata.file_type().is_block_device() {
            Some(FileId::Device {
                rdev: metadata.rdev(),
            })
        } else {
            None
        }
    }
}

/// An open image: this run alone has it, and it was synced.
#[derive(Drop)]
pub struct Disk {
    file: File,
    id: FileId,
    note: Note,
}

/// A file that this run alone has, and that is no drive yet: an earlier run may have left bytes of it in memory alone.
#[derive(Drop)]
pub struct Locked {
    file: File,
    id: FileId,
    note: Note,
}

/// Why an image isn't open.
#[derive(Drop)]
pub enum Unopened {
    /// The file is told where no other name of it may be trusted either.
    Lost { reason: Reason, id: Option<FileId> },
    Memory,
}

impl From<AllocError> for Unopened {
    ghost use Rattle.mdv_files.specs.declared.disk.Unopened.TheVariants.{Memory};

    ghost from_gives = { λ _ made. made ≡ Memory };

    fn from(_error: AllocError) -> Unopened {
        Unopened::Memory
    }
}

/// What is seen of a file before it becomes a drive: its bytes, and the drive before it that has the same file.
#[derive(Clone, Copy)]
pub struct Seen {
    pub bytes: u64,
    pub twin: Option<DriveKind>,
}

impl Seen {
    /// Why the file is no drive of so many blocks.
    pub fn reason(&self, blocks: u64) -> Option<Reason>
        requires { blocks ≤ 2 ^ 40 }
        ensures none { IsNone result ↔ IsSound self.now blocks }
        ensures some { IfSome result (IsReason self.now blocks) }
    {
        let wanted = blocks * BLOCK_BYTES;
        if self.bytes != wanted {
            return Some(Reason::OtherLength {
                bytes: self.bytes,
                wanted,
            });
        }
        if let Some(drive) = self.twin {
            return Some(Reason::SameFile(drive));
        }
        None
    }
}

impl Locked {
    /// Locks the file against other runs until this one has ended.
    pub fn new(file: File, id: FileId, note: Note) -> Result<Locked, Unopened>
        ensures same { IfOk result (λ locked. (locked.id ≡ id) × (locked.note ≡ note)) }
        ensures lost { IfErr result (IsOfFile id) }
    {
        match file.try_lock() {
            Ok(()) => Ok(Locked { file, id, note }),
            Err(TryLockError::WouldBlock) => Err(lost(Reason::InUse)),
            Err(TryLockError::Error(error)) => Err(failed_at(Call::Lock, error)),
        }
    }

    /// The drive, once what an earlier run left in memory is on the disk. The journal was read behind the lock, so it has what
    /// an earlier run noted: a drive that it names is lost. So is one whose sync fails, which is noted, since the system
    /// tells it once only.
    pub fn settle(self, journal: &Journal) -> Result<Disk, Unopened>
        ensures same { IfOk result (λ disk. (disk.id ≡ self.id) × (disk.note ≡ self.note)) }
        ensures trusted { IfOk result (λ disk. IsTrusted journal.now disk.note) }
        ensures lost { IfErr result (IsOfFile self.id) }
    {
        let Locked { file, id, note } = self;
        if journal.has(&note) {
            return Err(Unopened::Lost {
                reason: Reason::FailedBefore,
                id: Some(id),
            });
        }
        match file.sync_data() {
            Ok(()) => Ok(Disk { file, id, note }),
            Err(error) => {
                note.write();
                Err(Unopened::Lost {
                    reason: Reason::System {
                        call: Call::Sync,
                        error,
                    },
                    id: Some(id),
                })
            }
        }
    }

    /// The drive as it is: `drives.failed` isn't asked, and nothing is synced. No run calls it. It is for a file that can't be
    /// synced, with which a test shows what a failed call leaves.
    pub fn unsettled(self) -> Disk
        ensures { (result.id ≡ self.id) × (result.note ≡ self.note) }
    {
        let Locked { file, id, note } = self;
        Disk { file, id, note }
    }
}

impl Disk {
    pub(crate) fn file(&self) -> &File
        ensures { result.now ≡ self.now.file }
    {
        &self.file
    }

    /// By what the file is known from others.
    pub fn id(&self) -> FileId
        ensures { result ≡ self.now.id }
    {
        self.id
    }

    pub(crate) fn note(&self) -> &Note
        ensures { result.now ≡ self.now.note }
    {
        &self.note
    }

    /// Opens the image of a drive of so many blocks, behind the images of the drives before it in the
    /// table, whose lines those are. It is lost where its file is missing or can't be opened for reading
    /// and writing, is neither a regular file nor a block device, has another length, is an image of
    /// theirs, is locked by another run, is named by `drives.failed`, or can't be synced.
    pub fn open(
        rt: &HostRuntime,
        start: &SystemStart,
        line: &DriveLine,
        others: &[Image],
        lines: &[DriveLine],
    ) -> Result<Disk, Unopened>
        requires few { line.now.blocks ≤ 2 ^ 40 }
        requires lines { length others.now ≤ length lines.now }
        ensures own { IfOk result (λ disk. HasNoFile others.now disk.id) }
        ensures unseen { IfErr result (IsUnseen others.now) }
    {
        let path = canonical_path(rt, line.file.as_str())?;
        let note = start.note(rt, path.as_str())?;
        let mut file = open_file(rt, path.as_str())?;
        let id = id_of_file(&file)?;
        let seen = Seen {
            bytes: count_bytes(&mut file)?,
            twin: find_twin(others, id).map(|place| lines[place].kind),
        };
        if let Some(reason) = seen.reason(line.blocks) {
            return Err(lost(reason));
        }
        let locked = Locked::new(file, id, note)?;
        let journal = remembered(rt, start)?;
        locked.settle(&journal)
    }
}

// What is remembered now.
fn remembered(rt: &HostRuntime, start: &SystemStart) -> Result<Journal, Unopened>
    ensures { IfErr result IsNoFile }
{
    match start.journal(rt) {
        Ok(journal) => Ok(journal),
        Err(error) => Err(failed_at(Call::Remember, error)),
    }
}

fn lost(reason: Reason) -> Unopened
    ensures { IsNoFile result }
{
    Unopened::Lost { reason, id: None }
}

// What the system's error at that call comes to.
fn failed_at(call: Call, error: io::Error) -> Unopened
    ensures { IsNoFile result }
{
    if error.kind() == ErrorKind::OutOfMemory {
        Unopened::Memory
    } else {
        lost(Reason::System { call, error })
    }
}

fn failed_opening(error: io::Error) -> Unopened
    ensures { IsNoFile result }
{
    if error.kind() == ErrorKind::OutOfMemory {
        Unopened::Memory
    } else {
        lost(Reason::of_opening(error))
    }
}

fn canonical_path(rt: &HostRuntime, file: &str) -> Result<PathBuf, Unopened>
    ensures { IfErr result IsNoFile }
{
    match fs::canonicalize(rt, file) {
        Ok(path) => {
            if path.as_str().contains('\n') {
                return Err(lost(Reason::BadPath));
            }
            Ok(path)
        }
        Err(error) => Err(failed_opening(error)),
    }
}

fn open_file(rt: &HostRuntime, path: &str) -> Result<File, Unopened>
    ensures { IfErr result IsNoFile }
{
    let mut options = OpenOptions::new();
    options.read(true).write(true);
    match options.open(rt, path) {
        Ok(file) => Ok(file),
        Err(error) => Err(failed_opening(error)),
    }
}

fn id_of_file(file: &File) -> Result<FileId, Unopened>
    ensures { IfErr result IsNoFile }
{
    match file.metadata() {
        Ok(metadata) => match FileId::of(&metadata) {
            Some(id) => Ok(id),
            None => Err(lost(Reason::NotADisk)),
        },
        Err(error) => Err(failed_at(Call::Look, error)),
    }
}

fn count_bytes(file: &mut File) -> Result<u64, Unopened>
    ensures { IfErr result IsNoFile }
{
    match file.seek(SeekFrom::End(0)) {
        Ok(bytes) => Ok(bytes),
        Err(error) => Err(failed_at(Call::Look, error)),
    }
}

/// The first of the images that has this file.
pub fn find_twin(images: &[Image], id: FileId) -> Option<usize>
    ensures some { IfSome result (λ place. HasFileAt images.now place id) }
    ensures within { IfSome result (λ place. place < length images.now) }
    ensures none { IfNone result (HasNoFile images.now id) }
{
    images.iter().position(|image| image.id() == Some(id))
}
