// What lines come to by which replicas come and go: a plain program to hold runs against, which knows of each of three drives only which table its replica shows, and
// what block 5 of its volume holds. A drive is away for a whole run, and no other call fails.
use crate::spots::Value;
use std::alloc::{AllocError, Global};

/// Some of the three drives: 1, 2 and 4 stand for the first one, the second and the third.
pub type Drives = u8;

pub const ALL: Drives = 7;

const EACH: [Drives; 3] = [1, 2, 4];

/// A line, by its kind. A drive stands for its slice for replicas, or for the volume on it.
#[derive(Clone, Copy, Debug, PartialEq, Eq)]
pub enum Request {
    /// `metadb -a`, with `-f` or without.
    Add(Drives, bool),
    /// `metadb -d`, likewise.
    Drop(Drives, bool),
    Volume(u8),
    Clear(u8),
    Write(u8, Value),
    Read(u8),
    Print,
    Boot,
    /// `metadb -a` of a replica that is longer than the slice, which nothing comes of: where the drive has a replica it is in use.
    Probe(u8),
}

/// A table: how many were written before, the drives of its replicas, and the volumes.
#[derive(Clone, Copy, Debug, PartialEq, Eq)]
struct Table {
    age: u64,
    listed: Drives,
    volumes: Drives,
}

/// The drives, what is open, and which drives are away.
#[derive(Clone, Copy, Debug)]
pub struct Roster {
    shown: [Option<Table>; 3],
    blocks: [Value; 3],
    away: Drives,
    open: Option<Table>,
    clean: bool,
    written: u64,
}

const OK: &str = "ok\n";

const NO_DATABASE: &str = "refused E2 NoDatabase\n";

const NEED_FORCE: &str = "refused E3 NeedForce\n";

const NO_VOLUME: &str = "refused E4 NoSuchVolume\n";

const NAME_TAKEN: &str = "refused E5 NameTaken\n";

const IN_USE: &str = "refused E7 SliceInUse\n";

const TOO_SMALL: &str = "refused E10 TooSmall\n";

const ABSENT: &str = "refused E13 WrongState Absent\n";

const DOWN: &str = "refused E13 WrongState Down\n";

const INACTIVE: &str = "refused E13 WrongState Inactive\n";

const FAULT: &str = "refused E23 IoFault\n";

/// The drive of that number alone.
pub(crate) fn only(drive: u8) -> Drives {
    EACH.get(usize::from(drive)).copied().unwrap_or(0)
}

fn has(drives: Drives, drive: u8) -> bool {
    drives & only(drive) != 0
}

pub(crate) fn count(drives: Drives) -> u32 {
    let mut count = 0u32;
    for drive in 0..3 {
        if has(drives, drive) {
            count = count.saturating_add(1);
        }
    }
    count
}

// Half of them, or more.
fn is_half(some: Drives, all: Drives) -> bool {
    count(all) <= count(some).saturating_mul(2)
}

fn push_slices(alloc: Global, drives: Drives, script: &mut String) -> Result<(), AllocError> {
    for drive in 0..3 {
        if has(drives, drive) {
            script.push_str(format!(in alloc; " c0t{drive}d0s7")?.as_str())?;
        }
    }
    script.push('\n')
}

impl Request {
    /// Adds the line with its newline.
    pub(crate) fn push_to(self, alloc: Global, script: &mut String) -> Result<(), AllocError> {
        match self {
            Request::Add(drives, force) => {
                script.push_str(if force {
                    "metadb -a -f -l 16"
                } else {
                    "metadb -a -l 16"
                })?;
                push_slices(alloc, drives, script)
            }
            Request::Drop(drives, force) => {
                script.push_str(if force { "metadb -d -f" } else { "metadb -d" })?;
                push_slices(alloc, drives, script)
            }
            Request::Volume(n) => {
                script.push_str(format!(in alloc; "metainit d{n} 1 1 c0t{n}d0s0\n")?.as_str())
            }
            Request::Clear(n) => {
                script.push_str(format!(in alloc; "metaclear d{n}\n")?.as_str())
            }
            Request::Write(n, value) => {
                let hex = value.written();
                script.push_str(format!(in alloc; "write d{n} 5 {hex}\n")?.as_str())
            }
            Request::Read(n) => script.push_str(format!(in alloc; "read d{n} 5 1\n")?.as_str()),
            Request::Print => script.push_str("metastat -p\n"),
            Request::Boot => script.push_str("boot\n"),
            Request::Probe(n) => {
                script.push_str(format!(in alloc; "metadb -a -l 8192 c0t{n}d0s7\n")?.as_str())
            }
        }
    }
}

impl Roster {
    /// Blank drives.
    pub(crate) fn new() -> Roster {
        Roster {
            shown: [None; 3],
            blocks: [Value::Zeros; 3],
            away: 0,
            open: None,
            clean: false,
            written: 0,
        }
    }

    fn shown_on(&self, drive: u8) -> Option<Table> {
        *self.shown.get(usize::from(drive))?
    }

    // Of all drives but these.
    fn newest(&self, without: Drives) -> Option<Table> {
        let mut newest: Option<Table> = None;
        for drive in 0..3 {
            if let (false, Some(table)) = (has(without, drive), self.shown_on(drive)) {
                if newest.map_or(true, |other| other.age < table.age) {
                    newest = Some(table);
                }
            }
        }
        newest
    }

    /// Whether no drive shows a table that the newest one doesn't list.
    pub(crate) fn is_tidy(&self) -> bool {
        let listed = self.newest(0).map_or(0, |table| table.listed);
        (0..3).all(|drive| has(listed, drive) || self.shown_on(drive).is_none())
    }

    /// The drives that no replica of the open database lies on; none where none is open.
    pub(crate) fn free(&self) -> Drives {
        self.open.map_or(0, |table| ALL & !table.listed)
    }

    /// No drive shows anything any more.
    pub(crate) fn wipe(&mut self) {
        self.shown = [None; 3];
    }

    // These drives show that, but those that are away.
    fn show(&mut self, drives: Drives, table: Option<Table>) {
        for drive in 0..3 {
            if has(drives & !self.away, drive) {
                if let Some(shown) = self.shown.get_mut(usize::from(drive)) {
                    *shown = table;
                }
            }
        }
    }

    // The table is the open one from now on.
    fn put(&mut self, table: Table) {
        self.written = self.written.saturating_add(1);
        let table = Table {
            age: self.written,
            ..table
        };
        self.show(table.listed, Some(table));
        self.open = Some(table);
    }

    /// A run begins with these drives away. How many replicas were readable where that were too few, and how many are needed.
    pub(crate) fn begin(&mut self, away: Drives) -> Option<(u32, u32)> {
        self.away = away;
        self.boot()
    }

    fn boot(&mut self) -> Option<(u32, u32)> {
        self.open = None;
        self.clean = self.away == 0;
        let newest = self.newest(self.away)?;
        let mut readable = 0;
        for drive in 0..3 {
            if has(newest.listed & !self.away, drive) && self.shown_on(drive).is_some() {
                readable |= only(drive);
            }
        }
        if is_half(newest.listed & !readable, newest.listed) {
            return Some((count(readable), count(newest.listed) / 2 + 1));
        }
        self.put(newest);
        None
    }

    /// The reply to a line, which is told; else the run is over, for too few replicas were readable.
    pub(crate) fn answer(
        &mut self,
        alloc: Global,
        request: Request,
        told: &mut String,
    ) -> Result<Option<(u32, u32)>, AllocError> {
        let reply = match request {
            Request::Add(drives, force) => self.add(drives, force),
            Request::Drop(drives, force) => self.drop_from(drives, force),
            Request::Volume(n) => self.volume(n),
            Request::Clear(n) => self.clear(n),
            Request::Write(n, value) => self.write(n, value),
            Request::Probe(n) => self.probe(n),
            Request::Read(n) => return self.read(alloc, n, told),
            Request::Print => return self.print(alloc, told),
            Request::Boot => match self.boot() {
                None => OK,
                short => return Ok(short),
            },
        };
        told.push_str(reply)?;
        Ok(None)
    }

    fn add(&mut self, drives: Drives, force: bool) -> &'static str {
        let Some(open) = self.open else {
            return self.create(drives, force);
        };
        if open.listed & drives != 0 {
            return IN_USE;
        }
        if self.away & drives != 0 {
            return FAULT;
        }
        self.put(Table {
            listed: open.listed | drives,
            ..open
        });
        OK
    }

    fn create(&mut self, drives: Drives, force: bool) -> &'static str {
        if !self.clean {
            return DOWN;
        }
        if !force {
            return NEED_FORCE;
        }
        self.put(Table {
            age: 0,
            listed: drives,
            volumes: 0,
        });
        OK
    }

    fn drop_from(&mut self, drives: Drives, force: bool) -> &'static str {
        let Some(open) = self.open else {
            return NO_DATABASE;
        };
        let left = open.listed & !drives;
        if drives & !open.listed != 0 {
            ABSENT
        } else if left == 0 {
            self.delete(open.listed, force)
        } else if is_half(left & !self.away, left) {
            self.put(Table {
                listed: left,
                ..open
            });
            self.show(drives, None);
            OK
        } else {
            INACTIVE
        }
    }

    fn delete(&mut self, listed: Drives, force: bool) -> &'static str {
        if listed & self.away != 0 {
            DOWN
        } else if force {
            self.show(listed, None);
            self.open = None;
            OK
        } else {
            NEED_FORCE
        }
    }

    fn volume(&mut self, volume: u8) -> &'static str {
        match self.open {
            None => NO_DATABASE,
            Some(open) if has(open.volumes, volume) => NAME_TAKEN,
            Some(open) => {
                self.put(Table {
                    volumes: open.volumes | only(volume),
                    ..open
                });
                OK
            }
        }
    }

    fn clear(&mut self, volume: u8) -> &'static str {
        match self.open {
            None => NO_DATABASE,
            Some(open) if !has(open.volumes, volume) => NO_VOLUME,
            Some(open) => {
                self.put(Table {
                    volumes: open.volumes & !only(volume),
                    ..open
                });
                OK
            }
        }
    }

    fn block_refusal(&self, volume: u8) -> Option<&'static str> {
        match self.open {
            None => Some(NO_DATABASE),
            Some(open) if !has(open.volumes, volume) => Some(NO_VOLUME),
            Some(_) if has(self.away, volume) => Some(FAULT),
            Some(_) => None,
        }
    }

    fn write(&mut self, volume: u8, value: Value) -> &'static str {
        match self.block_refusal(volume) {
            Some(refusal) => refusal,
            None => {
                if let Some(block) = self.blocks.get_mut(usize::from(volume)) {
                    *block = value;
                }
                OK
            }
        }
    }

    fn read(
        &self,
        alloc: Global,
        volume: u8,
        told: &mut String,
    ) -> Result<Option<(u32, u32)>, AllocError> {
        let value = match self.blocks.get(usize::from(volume)) {
            Some(value) => value.read(),
            None => "-",
        };
        match self.block_refusal(volume) {
            Some(refusal) => told.push_str(refusal)?,
            None => told.push_str(format!(in alloc; "5 {value}\nok\n")?.as_str())?,
        }
        Ok(None)
    }

    fn print(&self, alloc: Global, told: &mut String) -> Result<Option<(u32, u32)>, AllocError> {
        let Some(open) = self.open else {
            told.push_str(NO_DATABASE)?;
            return Ok(None);
        };
        for volume in 0..3u8 {
            if has(open.volumes, volume) {
                let line = format!(in alloc; "d{volume} 1 1 c0t{volume}d0s0\n")?;
                told.push_str(line.as_str())?;
            }
        }
        told.push_str(OK)?;
        Ok(None)
    }

    fn probe(&self, drive: u8) -> &'static str {
        match self.open {
            None if self.clean => NEED_FORCE,
            None => DOWN,
            Some(open) if has(open.listed, drive) => IN_USE,
            Some(_) => TOO_SMALL,
        }
    }

    /// The line was carried out, but that of places that all were to go the first one is left.
    pub(crate) fn half_deleted(&self) -> Option<Roster> {
        let open = self.open?;
        let mut half = *self;
        for drive in 0..3 {
            if has(open.listed, drive) {
                half.drop_from(open.listed & !only(drive), true);
                return Some(half);
            }
        }
        None
    }
}
