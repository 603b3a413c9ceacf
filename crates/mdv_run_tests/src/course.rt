// How a run goes, by the numbers of its calls: a plain program to hold `run` against. A boot brings each own drive up with
// two calls, of which the second isn't made where the first fails; looks at the place with one call and one for each open
// slot, where its drive is up; and adopts with eight. A creation formats a place with six and writes its first table with
// six, and so many has a change of the table. A block is written with two and read with one, and each reply is told with
// one.
use crate::blocks::Block;
use crate::ground::Ground;
use crate::script::Line;
use crate::spots::{Spots, Value};
use crate::trouble::Trouble;
use crate::writes::{Broken, adopted, changed, cleared, made, newest, volume_in};
use crate::{Shown, ShownVolume};
use mdv_base::Identity;
use mdv_run_law::RunStatus;
use std::alloc::{AllocError, Global};

pub const OK: &str = "ok\n";

const FAULT: &str = "refused E23 IoFault\n";

pub const PANIC: RunStatus = RunStatus::Panic {
    active: 0,
    listed: 1,
};

/// What was told ok: the creation of a database, and volumes.
#[derive(Clone, Copy, Debug, PartialEq, Eq)]
pub struct Promised {
    pub database: Option<Identity>,
    pub volumes: [bool; 3],
}

/// What is known of the drives between two runs, and within one.
#[derive(Clone, Copy)]
pub struct Known {
    /// What the place shows by the writes that were answered.
    pub shown: Option<Shown>,
    pub spots: Spots,
    pub promised: Promised,
}

/// How a run ends, what it tells, how many calls it makes and what it writes.
#[derive(Drop)]
pub struct Course {
    alloc: Global,
    ground: Ground,
    away: &'static [u32],
    trouble: Trouble,
    fresh: u64,
    begun: u32,
    standing: Standing,
    /// No call of the last boot failed.
    clean: bool,
    pub known: Known,
    pub status: RunStatus,
    pub told: String,
    pub calls: u64,
    /// The write that failed.
    pub broken: Option<Broken>,
}

// How the run stands between two lines.
#[derive(Clone, Copy, Debug, PartialEq, Eq)]
enum Standing {
    Empty,
    InUse,
    Down,
    Over,
}

// How many slots are open.
fn open_slots(shown: Option<Shown>) -> u64 {
    match shown {
        None => 0,
        Some(shown) if shown.first.is_some() && shown.second.is_some() => 2,
        Some(_) => 1,
    }
}

impl Course {
    /// The course of a run of these lines, with these drives away. `fresh` is the word of the run that no other run has.
    pub(crate) fn of(
        alloc: Global,
        fresh: u64,
        ground: Ground,
        known: Known,
        lines: &[Line],
        away: &'static [u32],
        trouble: Trouble,
    ) -> Result<Course, AllocError> {
        let mut course = Course {
            alloc,
            ground,
            away,
            trouble,
            fresh,
            begun: 0,
            standing: Standing::Down,
            clean: false,
            known,
            status: RunStatus::Done,
            told: String::new(alloc),
            calls: 0,
            broken: None,
        };
        course.boot();
        for line in lines {
            course.line(*line)?;
        }
        Ok(course)
    }

    // Whether so many calls on the drive pass; none is made behind the first that fails.
    fn passes(&mut self, drive: u32, count: u64) -> bool {
        let failing = if self.away.contains(&drive) {
            Some(self.calls)
        } else {
            self.trouble.failing(drive, self.calls, count)
        };
        match failing {
            Some(call) => {
                self.calls = call.saturating_add(1);
                false
            }
            None => {
                self.calls = self.calls.saturating_add(count);
                true
            }
        }
    }

    // Whatever comes of a drive, the next one is brought up too.
    fn boot(&mut self) {
        let home = self.ground.home.drive;
        let mut is_home_up = false;
        self.clean = true;
        for drive in self.ground.own {
            if !self.brings_up(*drive) {
                self.clean = false;
            } else if *drive == home {
                is_home_up = true;
            }
        }
        let slots = open_slots(self.known.shown);
        if is_home_up && self.passes(home, slots.saturating_add(1)) {
            self.adopt();
        } else {
            self.clean = false;
            self.standing = Standing::Down;
        }
    }

    // Whether the drive is read and synced, so that no crash takes back what its volumes hold.
    fn brings_up(&mut self, drive: u32) -> bool {
        let is_up = self.passes(drive, 2);
        for volume in 0..3 {
            if is_up && self.ground.volume(volume).drive == drive {
                self.known.spots.settle(volume);
            }
        }
        is_up
    }

    fn adopt(&mut self) {
        match self.known.shown {
            None => self.standing = Standing::Empty,
            Some(shown) => {
                if self.write_table(8, adopted(&shown)) {
                    self.standing = Standing::InUse;
                }
            }
        }
    }

    // Whether so many calls passed that write what the place shows then; else the run is over.
    fn write_table(&mut self, calls: u64, new: Shown) -> bool {
        let home = self.ground.home.drive;
        if self.passes(home, calls) {
            self.known.shown = Some(new);
            true
        } else {
            self.panic(Broken::Table(new));
            false
        }
    }

    fn line(&mut self, line: Line) -> Result<(), AllocError> {
        if self.standing == Standing::Over {
            return Ok(());
        }
        match line {
            Line::Tab(number) => self.tab(number),
            Line::Forced => self.creation_line(8192),
            Line::Short(blocks) => self.creation_line(blocks),
            Line::Elsewhere => self.refuse("refused E6 NoSuchSlice\n"),
            _ => self.command(line),
        }
    }

    fn command(&mut self, line: Line) -> Result<(), AllocError> {
        match (self.standing, line) {
            (_, Line::Boot) => self.boot_line(),
            (Standing::InUse, Line::Volume(number)) => self.change(number),
            (Standing::InUse, Line::Clear(number)) => self.clear(number),
            (Standing::InUse, Line::Write(number, at, value)) => self.write(number, at, value),
            (Standing::InUse, Line::Read(number, at)) => self.read(number, at),
            _ => self.refuse("refused E2 NoDatabase\n"),
        }
    }

    // A boot is accepted whatever it found.
    fn boot_line(&mut self) -> Result<(), AllocError> {
        self.boot();
        if self.standing != Standing::Over {
            self.tell(OK)?;
        }
        Ok(())
    }

    // A block is read in memory alone.
    fn tab(&mut self, number: u64) -> Result<(), AllocError> {
        let Some(entries) = Block(number).entries() else {
            return self.refuse("refused E1 BadLine\n");
        };
        let text = format!(in self.alloc; "entries {entries}\nok\n")?;
        self.tell(text.as_str())?;
        Ok(())
    }

    // A creation of a replica of so many blocks.
    fn creation_line(&mut self, blocks: u64) -> Result<(), AllocError> {
        match self.standing {
            Standing::InUse => self.refuse("refused E7 SliceInUse\n"),
            _ if !self.clean => self.refuse("refused E13 WrongState Down\n"),
            _ if blocks > self.ground.home.blocks => self.refuse("refused E10 TooSmall\n"),
            _ => self.creation(blocks),
        }
    }

    fn creation(&mut self, blocks: u64) -> Result<(), AllocError> {
        let identity = Identity {
            fresh: self.fresh,
            number: self.begun,
        };
        self.begun = self.begun.saturating_add(1);
        let home = self.ground.home.drive;
        if !self.passes(home, 6) {
            return self.refuse(FAULT);
        }
        if !self.passes(home, 6) {
            self.panic(Broken::Creation(made(identity, blocks)));
            return Ok(());
        }
        self.known.shown = Some(made(identity, blocks));
        self.standing = Standing::InUse;
        if self.tell(OK)? {
            self.known.promised.database = Some(identity);
        }
        Ok(())
    }

    fn volume(&self, number: u8) -> Option<ShownVolume> {
        volume_in(&newest(&self.known.shown?)?, u16::from(number))
    }

    fn block_refusal(&self, number: u8, at: u64) -> Option<&'static str> {
        match self.volume(number) {
            None => Some("refused E4 NoSuchVolume\n"),
            Some(volume) if at >= volume.blocks => Some("refused E22 OutOfRange\n"),
            Some(_) => None,
        }
    }

    fn change(&mut self, number: u8) -> Result<(), AllocError> {
        let Some(shown) = self.known.shown else {
            return Ok(());
        };
        if self.volume(number).is_some() {
            return self.refuse("refused E5 NameTaken\n");
        }
        let area = self.ground.volume(number);
        let volume = ShownVolume {
            number: u16::from(number),
            target: area.target,
            slice: number,
            blocks: area.blocks,
        };
        if self.write_table(6, changed(&shown, volume)) && self.tell(OK)? {
            if let Some(promised) = self.known.promised.volumes.get_mut(usize::from(number)) {
                *promised = true;
            }
        }
        Ok(())
    }

    // A volume that was to go is promised no more.
    fn clear(&mut self, number: u8) -> Result<(), AllocError> {
        let Some(shown) = self.known.shown else {
            return Ok(());
        };
        if self.volume(number).is_none() {
            return self.refuse("refused E4 NoSuchVolume\n");
        }
        if let Some(promised) = self.known.promised.volumes.get_mut(usize::from(number)) {
            *promised = false;
        }
        if self.write_table(6, cleared(&shown, u16::from(number))) {
            self.tell(OK)?;
        }
        Ok(())
    }

    // A write that fails puts nothing; one whose sync fails has put the block.
    fn write(&mut self, number: u8, at: u64, value: Value) -> Result<(), AllocError> {
        if let Some(refusal) = self.block_refusal(number, at) {
            return self.refuse(refusal);
        }
        let drive = self.ground.volume(number).drive;
        self.known.spots.spot(number, at).allow(value);
        if !self.passes(drive, 1) {
            return self.refuse(FAULT);
        }
        self.known.spots.spot(number, at).newest = value;
        if !self.passes(drive, 1) {
            return self.refuse(FAULT);
        }
        if self.tell(OK)? {
            self.known.spots.spot(number, at).allow_only(value);
        }
        Ok(())
    }

    fn read(&mut self, number: u8, at: u64) -> Result<(), AllocError> {
        if let Some(refusal) = self.block_refusal(number, at) {
            return self.refuse(refusal);
        }
        let drive = self.ground.volume(number).drive;
        if !self.passes(drive, 1) {
            return self.refuse(FAULT);
        }
        let value = self.known.spots.spot(number, at).newest.read();
        let text = format!(in self.alloc; "{at} {value}\nok\n")?;
        self.tell(text.as_str())?;
        Ok(())
    }

    fn refuse(&mut self, text: &str) -> Result<(), AllocError> {
        if self.tell(text)? {
            self.status = RunStatus::SomeRefused;
        }
        Ok(())
    }

    // Whether the reply was told.
    fn tell(&mut self, text: &str) -> Result<bool, AllocError> {
        let fails = self.trouble.fails_reply(self.calls);
        self.calls = self.calls.saturating_add(1);
        if fails {
            self.status = RunStatus::WriteFault;
            self.standing = Standing::Over;
            return Ok(false);
        }
        self.told.push_str(text)?;
        Ok(true)
    }

    fn panic(&mut self, broken: Broken) {
        self.broken = Some(broken);
        self.status = PANIC;
        self.standing = Standing::Over;
    }
}
