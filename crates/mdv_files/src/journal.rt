ghost use Rattle.std.specs.Prelude.{◌≡◌, ◌↔◌, Contains, IsTrue, IfOk};
ghost use Rattle.std.specs.List.{list_all};
ghost use Rattle.std.specs.String.{string_bytes};
ghost use Rattle.mdv_name.specs.Lines.{lines};
ghost use Rattle.mdv_files.specs.Journal.{line_of, is_no_blank, is_word as spec_is_word, without_newline as spec_without_newline, is_whole as spec_is_whole};

use crate::lines::has_line;
use std::alloc::AllocError;
use std::fs;
use std::fs::OpenOptions;
use std::io::{self, ErrorKind, Write};

/// The file beside the table of drives that remembers the images on which a write or a sync failed.
pub const JOURNAL: &str = "drives.failed";

/// Where the kernel tells the word of this start of the system.
pub const BOOT_ID: &str = "/proc/sys/kernel/random/boot_id";

/// This start of the system, by the word with which the kernel tells it from others, and the file that remembers
/// the images on which a call failed since.
#[derive(Drop)]
pub struct SystemStart {
    file: String,
    boot_id: String,
}

impl SystemStart {
    /// The start that the kernel tells of, where the word is one, and the file of that name.
    pub fn read(rt: &HostRuntime, file: &str, boot_id: &str) -> io::Result<SystemStart>
        ensures word { IfOk result (λ start. IsTrue (spec_is_word (string_bytes start.boot_id))) }
        ensures file { IfOk result (λ start. string_bytes start.file ≡ file.now) }
    {
        let boot_id = read_boot_id(rt, boot_id)?;
        let file = String::from_str(rt.alloc(), file)?;
        Ok(SystemStart { file, boot_id })
    }

    /// The note with which this start of the system remembers an image of that path.
    pub fn note(&self, rt: &HostRuntime, path: &str) -> Result<Note, AllocError>
        ensures { IfOk result (λ note. string_bytes note.line ≡ line_of (string_bytes self.now.boot_id) path.now) }
    {
        let line = format!(in rt.alloc(); "{} {path}\n", self.boot_id.as_str())?;
        let file = String::from_str(rt.alloc(), self.file.as_str())?;
        Ok(Note {
            rt: *rt,
            file,
            line,
        })
    }

    /// Reads the file as it is now. One that is missing has no line. A file whose last line has no newline is an
    /// error, since a line that was cut short might name any image.
    pub fn journal(&self, rt: &HostRuntime) -> io::Result<Journal>
        ensures { IfOk result (λ journal. IsTrue (spec_is_whole journal.text.items)) }
    {
        let text = match fs::read(rt, self.file.as_str()) {
            Ok(text) => text,
            Err(error) if error.kind() == ErrorKind::NotFound => Vec::new(rt.alloc()),
            Err(error) => return Err(error),
        };
        if !is_whole(&text) {
            return Err(io::Error::new(ErrorKind::InvalidData, CUT_SHORT));
        }
        Ok(Journal { text })
    }
}

/// What `drives.failed` says. Each line is the word of a start of the system, a blank and the canonical path of an image;
/// lines with the word of another start count for nothing, since the kernel's copies of that time are gone.
#[derive(Drop)]
pub struct Journal {
    text: Vec<u8>,
}

impl Journal {
    /// Whether the file has the note's line.
    pub fn has(&self, note: &Note) -> bool
        ensures { IsTrue result ↔ Contains (lines self.now.text.items) (string_bytes note.now.line) }
    {
        has_line(&self.text, note.line.as_bytes())
    }
}

const CUT_SHORT: &str = "the last line is cut short; start the program through bin/metad";

const NO_BOOT_ID: &str = "the system has no boot id";

// The word of this start of the system, without its newline.
fn read_boot_id(rt: &HostRuntime, file: &str) -> io::Result<String>
    ensures { IfOk result (λ word. IsTrue (spec_is_word (string_bytes word))) }
{
    let text = fs::read(rt, file)?;
    let word = without_newline(&text);
    if !is_word(word) {
        return Err(io::Error::new(ErrorKind::InvalidData, NO_BOOT_ID));
    }
    let Ok(word) = str::from_utf8(word) else {
        return Err(io::Error::new(ErrorKind::InvalidData, NO_BOOT_ID));
    };
    let word = String::from_str(rt.alloc(), word)?;
    Ok(word)
}

// The text without one newline at its end.
fn without_newline(text: &[u8]) -> &[u8]
    ensures { result.now ≡ spec_without_newline text.now }
{
    match text {
        [word @ .., b'\n'] => word,
        _ => text,
    }
}

// Whether the text has a byte, and no blank or newline.
fn is_word(text: &[u8]) -> bool
    ensures { result ≡ spec_is_word text.now }
{
    !text.is_empty() && has_no_blank(text)
}

fn has_no_blank(text: &[u8]) -> bool
    ensures { result ≡ list_all is_no_blank text.now }
{
    text.iter().all(|b| *b != b' ' && *b != b'\n')
}

// Whether each line of the text has its newline.
fn is_whole(text: &[u8]) -> bool
    ensures { result ≡ spec_is_whole text.now }
{
    text.is_empty() || text[text.len() - 1] == b'\n'
}

/// A line for `drives.failed`, made while memory can still be had, and where it is to be written.
#[derive(Drop)]
pub struct Note {
    rt: HostRuntime,
    file: String,
    line: String,
}

impl Note {
    /// Appends the line and syncs the file. Where that fails there is nothing more to be done: the drive
    /// fails in this run all the same.
    pub fn write(&self) {
        let mut options = OpenOptions::new();
        options.append(true).create(true);
        if let Ok(mut file) = options.open(&self.rt, self.file.as_str()) {
            if file.write_all(self.line.as_bytes()).is_ok() {
                let _synced = file.sync_data();
            }
        }
    }
}
