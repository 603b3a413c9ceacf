ghost use Rattle.std.specs.Prelude.{◌≡◌, ◌↔◌, ◌+◌, ◌≤◌, IsTrue, IfOk, IfErr, IfSome, IfNone};
ghost use Rattle.mdv_name.specs.declared.entry.Entry.TheVariants.{Host, Drive, Slice};
ghost use Rattle.mdv_name.specs.Drive.{IsSliceName};
ghost use Rattle.mdv_name.specs.DriveIndex.{IsNamed};
ghost use Rattle.mdv_name.specs.Entry.{IsEntry};
ghost use Rattle.mdv_name.specs.Geometry.{empty, IsFreshKind, AnswersAdd, AnswersLine, IsGeometry};
ghost use Rattle.mdv_name.specs.Geometry.{IsFaultOf};
ghost use Rattle.mdv_name.specs.Geometry.{CountsForNothing};
ghost use Rattle.mdv_name.specs.Geometry.{begins_with_hash as spec_begins_with_hash};
ghost use Rattle.mdv_name.specs.Lines.{content as spec_content};
ghost use Rattle.mdv_name.specs.SliceIndex.{HasSlice, HasNoSlice};

use crate::drive_line::{DriveKind, DriveLine};
use crate::drive_list::DriveList;
use crate::entry::{Entry, SliceEntry};
use crate::geometry::{Geometry, GeometryFault};
use crate::lines::{content_of, split_line};
use crate::name_list::NameList;
use crate::parse_entry::{has_words, parse_entry};
use crate::slice_lines::{SliceAt, SliceLine};
use crate::slice_list::SliceList;
use mdv_base::{MAX_DRIVES, Name, SliceName};
use std::alloc::{AllocError, Global};

/// The most bytes that the text of a table of drives has.
pub const MAX_TEXT: usize = 65536;

impl Geometry {
    /// Where the slice lies.
    pub fn slice(&self, name: SliceName) -> Option<SliceAt>
        ensures value { IfSome result (HasSlice self.now.slices name) }
        ensures none { IfNone result (HasNoSlice self.now.slices name) }
    {
        self.slices.find(name)
    }

    /// Reads a table of drives.
    pub fn read(alloc: Global, text: &[u8]) -> Result<Geometry, GeometryFault>
        ensures ok { IfOk result (IsGeometry text.now) }
        ensures fault { IfErr result (IsFaultOf text.now) }
    {
        let mut geometry = Geometry::new(alloc);
        let mut number = 0;
        let mut rest = text;
        while !rest.is_empty() {
            let (line, behind) = split_line(rest);
            number += 1;
            if text.len() - behind.len() > MAX_TEXT {
                return Err(GeometryFault::BadLine(number));
            }
            match geometry.add_line(alloc, line) {
                Ok(true) => rest = behind,
                Ok(false) => return Err(GeometryFault::BadLine(number)),
                Err(_) => return Err(GeometryFault::Memory),
            }
        }
        Ok(geometry)
    }

    fn new(alloc: Global) -> Self
        ensures { result ≡ empty }
    {
        Geometry {
            hosts: NameList::new(alloc),
            drives: DriveList::new(alloc),
            slices: SliceList::new(alloc),
        }
    }

    // Whether the line may stand here. If so, it is added.
    fn add_host(&mut self, name: Name) -> Result<bool, AllocError>
        ensures { IfOk result (AnswersAdd self.old (Host name) self.new) }
    {
        if self.hosts.contains(&name) {
            return Ok(false);
        }
        self.hosts.push(name)?;
        Ok(true)
    }

    fn add_drive(&mut self, line: DriveLine) -> Result<bool, AllocError>
        requires { IsNamed line.kind }
        ensures { IfOk result (AnswersAdd self.old (Drive line) self.new) }
    {
        if self.drives.as_slice().len() >= MAX_DRIVES {
            return Ok(false);
        }
        if !self.is_fresh(line.kind) {
            return Ok(false);
        }
        self.drives.push(line)?;
        Ok(true)
    }

    fn is_fresh(&self, kind: DriveKind) -> bool
        ensures { IsTrue result ↔ IsFreshKind self.now kind }
    {
        match kind {
            DriveKind::Own { drive, host } => {
                self.hosts.contains(&host) && self.drives.find(drive).is_none()
            }
            DriveKind::Shared { drive } => self.drives.find(drive).is_none(),
            DriveKind::Mediator { host } => {
                self.hosts.contains(&host) && !self.drives.has_mediator(&host)
            }
        }
    }

    fn add_slice(&mut self, slice: SliceEntry) -> Result<bool, AllocError>
        requires { IsSliceName slice.name }
        ensures { IfOk result (AnswersAdd self.old (Slice slice) self.new) }
    {
        let Some(drive) = self.drives.find(slice.name.drive) else {
            return Ok(false);
        };
        let blocks = self.drives.as_slice()[drive.0 as usize].blocks;
        if !ends_within(slice.start, slice.blocks, blocks) {
            return Ok(false);
        }
        if let Some(_) = self.slices.find(slice.name) {
            return Ok(false);
        }
        self.slices.push(SliceLine {
            name: slice.name,
            at: SliceAt {
                drive,
                start: slice.start,
                blocks: slice.blocks,
                db: slice.db,
            },
        })?;
        Ok(true)
    }

    fn add(&mut self, entry: Entry) -> Result<bool, AllocError>
        requires { IsEntry entry }
        ensures { IfOk result (AnswersAdd self.old entry self.new) }
    {
        let added = match entry {
            Entry::Host(name) => self.add_host(name)?,
            Entry::Drive(line) => self.add_drive(line)?,
            Entry::Slice(slice) => self.add_slice(slice)?,
        };
        Ok(added)
    }

    fn add_line(&mut self, alloc: Global, line: &[u8]) -> Result<bool, AllocError>
        ensures { IfOk result (AnswersLine self.old line.now self.new) }
    {
        let content = content_of(line);
        if counts_for_nothing(line, content) {
            return Ok(true);
        }
        let Some(entry) = parse_entry(alloc, content)? else {
            return Ok(false);
        };
        let added = self.add(entry)?;
        Ok(added)
    }
}

// Whether the line is blank or begins with `#`.
fn counts_for_nothing(line: &[u8], content: &[u8]) -> bool
    requires { content.now ≡ spec_content line.now }
    ensures { IsTrue result ↔ CountsForNothing line.now }
{
    begins_with_hash(line) || !has_words(content)
}

fn begins_with_hash(line: &[u8]) -> bool
    ensures { result ≡ spec_begins_with_hash line.now }
{
    match line {
        [first, ..] => *first == b'#',
        [] => false,
    }
}

// Whether the blocks from the start on end within so many.
fn ends_within(start: u64, blocks: u64, limit: u64) -> bool
    ensures { IsTrue result ↔ (start + blocks ≤ limit) }
{
    start <= limit && blocks <= limit - start
}
