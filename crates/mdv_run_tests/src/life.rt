// A life: runs over the drives of a table, each with its script, its trouble, the drives that are away and its end, held
// against the plain course of a run, the plain reading of the place and what the blocks of the volumes may hold.
use crate::course::{Course, Known, Promised};
use crate::ground::{Area, Ground, SMALL};
use crate::script::{Line, script_of};
use crate::spots::{FOLLOWED, Spots, Value};
use crate::trouble::Trouble;
use crate::writes::{may_show, newest, volume_in};
use crate::{PlaceBlocks, Shown, read_place, second_body};
use mdv_base::{Block, DriveNo, ZERO_BLOCK};
use mdv_port::MemSource;
use mdv_run::run;
use mdv_run_law::RunStatus;
use mdv_shelf::{MemShelf, Shelf};
use std::alloc::{AllocError, Global};
use std::process::Abort;
use std::test::Fail;

// The block in which the first slot's body begins, counted from the place's first.
const FIRST_BODY: u64 = 4;

// One less than a number that 1 to 12 divide, so it picks the last of up to 12 values.
const LAST: u32 = 27719;

/// How a run's time ends: the drives go on as they are, or a crash leaves of each block the value that is
/// on the disk, the newest one, or a drawn one. A drive that was lost meanwhile is then brought back.
#[derive(Clone, Copy, Debug, PartialEq, Eq)]
pub enum End {
    Quiet,
    Stable,
    Newest,
    Drawn(u64),
}

/// One run. The drives that are away are lost from its start until the next run begins that has them.
#[derive(Clone, Copy, Debug)]
pub struct Step<'a> {
    pub lines: &'a [Line],
    pub away: &'static [u32],
    pub trouble: Trouble,
    pub end: End,
}

/// The drives, and what is known of them. Those that aren't alpha's are lost all the time. After a quiet end of a run in
/// which the write of a table failed the next run has no trouble: till then a crash may leave what isn't shown.
#[derive(Drop)]
pub struct Life {
    ground: Ground,
    shelf: MemShelf,
    away: &'static [u32],
    calls: u64,
    runs: u64,
    told: String,
    pub known: Known,
}

impl Life {
    /// A life over blank drives.
    pub(crate) fn new(alloc: Global, ground: Ground) -> Result<Life, Fail> {
        let mut life = Life {
            ground,
            shelf: MemShelf::new(alloc, ground.sizes)?,
            away: &[],
            calls: 0,
            runs: 0,
            told: String::new(alloc),
            known: Known {
                shown: None,
                spots: Spots::new(),
                promised: Promised {
                    database: None,
                    volumes: [false; 3],
                },
            },
        };
        for drive in 0..life.shelf.drives() {
            if !ground.own.contains(&drive) {
                life.lose(drive)?;
            }
        }
        Ok(life)
    }

    fn lose(&mut self, drive: u32) -> Result<(), Fail> {
        if drive >= self.shelf.drives() {
            return Err(Fail::from("no such drive"));
        }
        self.shelf.lose(DriveNo(drive));
        Ok(())
    }

    fn bring_back(&mut self, drive: u32) -> Result<(), Fail> {
        if drive >= self.shelf.drives() {
            return Err(Fail::from("no such drive"));
        }
        self.shelf.bring_back(DriveNo(drive));
        Ok(())
    }

    // Takes these drives away and brings all others back. What isn't as it was on the drives that aren't away.
    fn take_away(&mut self, away: &'static [u32]) -> Result<Option<&'static str>, Fail> {
        for drive in self.ground.own {
            match (self.away.contains(drive), away.contains(drive)) {
                (false, true) => self.lose(*drive)?,
                (true, false) => self.bring_back(*drive)?,
                _ => {}
            }
        }
        self.away = away;
        if self.look()? != self.known.shown {
            return Ok(Some("the place isn't as it was"));
        }
        self.look_at_all()
    }

    fn ask(&mut self, trouble: Trouble) -> Result<(), Fail> {
        match trouble {
            Trouble::Nothing => {}
            Trouble::Fail(call) => self.shelf.fail_call(self.calls.saturating_add(call))?,
            Trouble::FailBoth(call, other) => {
                self.shelf.fail_call(self.calls.saturating_add(call))?;
                self.shelf.fail_call(self.calls.saturating_add(other))?;
            }
            Trouble::Lose(drive, call) => {
                if drive >= self.shelf.drives() {
                    return Err(Fail::from("no such drive"));
                }
                self.shelf
                    .lose_at(DriveNo(drive), self.calls.saturating_add(call))?;
            }
            Trouble::Stop(calls) => self.shelf.stop_after(calls),
        }
        Ok(())
    }

    fn end(&mut self, alloc: Global, step: &Step) -> Result<(), Fail> {
        match step.end {
            End::Quiet => {}
            End::Stable => self.shelf.crash(&[]),
            End::Newest => {
                let all = self.ground.written as usize;
                self.shelf.crash(&vec![in alloc; LAST; all]?);
            }
            End::Drawn(seed) => {
                self.shelf.crash(&drawn(alloc, seed, self.ground.written)?);
            }
        }
        match step.trouble {
            Trouble::Lose(drive, _) if !self.away.contains(&drive) => self.bring_back(drive),
            _ => Ok(()),
        }
    }

    fn read(&mut self, drive: u32, at: u64, out: &mut [Block]) -> Result<(), Fail> {
        if out.is_empty() || drive >= self.shelf.drives() {
            return Err(Fail::from("nothing to read"));
        }
        let blocks = self.shelf.blocks(DriveNo(drive));
        if at > blocks || out.len() as u64 > blocks - at {
            return Err(Fail::from("no such blocks"));
        }
        if self.shelf.read(DriveNo(drive), at, out).is_err() {
            return Err(Fail::from("a failed read"));
        }
        self.calls = self.calls.saturating_add(1);
        Ok(())
    }

    // What the place shows; what it did where its drive is away.
    fn look(&mut self) -> Result<Option<Shown>, Fail> {
        let Area {
            drive,
            target,
            start,
            ..
        } = self.ground.home;
        if self.away.contains(&drive) {
            return Ok(self.known.shown);
        }
        let mut head = [ZERO_BLOCK; 4];
        let mut first = [ZERO_BLOCK];
        let mut second = [ZERO_BLOCK];
        self.read(drive, start, &mut head)?;
        self.read(drive, start.saturating_add(FIRST_BODY), &mut first)?;
        self.read(
            drive,
            start.saturating_add(second_body(&head[0])),
            &mut second,
        )?;
        Ok(read_place(&PlaceBlocks {
            target,
            head,
            first_body: first[0],
            second_body: second[0],
        }))
    }

    fn look_at_all(&mut self) -> Result<Option<&'static str>, Fail> {
        for volume in 0..3 {
            if !self.look_at(volume)? {
                return Ok(Some("a block of a volume isn't allowed"));
            }
        }
        Ok(None)
    }

    // Whether what the blocks of the volume hold now is allowed, where its drive isn't away.
    fn look_at(&mut self, volume: u8) -> Result<bool, Fail> {
        let area = self.ground.volume(volume);
        if self.away.contains(&area.drive) {
            return Ok(true);
        }
        let mut blocks = [ZERO_BLOCK; FOLLOWED as usize];
        let followed = FOLLOWED.min(area.blocks) as usize;
        let blocks = blocks.get_mut(..followed).ok_or("its blocks")?;
        self.read(area.drive, area.start, blocks)?;
        for (at, block) in blocks.iter().enumerate() {
            let value = Value::of(block).ok_or("no value")?;
            let spot = self.known.spots.spot(volume, at as u64);
            if !spot.allows(value) {
                return Ok(false);
            }
            spot.newest = value;
        }
        Ok(true)
    }

    // The status of a run of these lines.
    fn run(&mut self, alloc: Global, lines: &[Line], fresh: u64) -> Result<RunStatus, AllocError> {
        let script = script_of(alloc, &self.ground, lines)?;
        let mut source = MemSource::new(script.into_bytes());
        let words = [format!(in alloc; "alpha")?];
        let table = self.ground.table.as_bytes();
        Ok(run(&words, table, &mut self.shelf, &mut source, fresh))
    }

    // What isn't as the course of the run says. The bytes told are all that the life told.
    fn go_on(
        &mut self,
        alloc: Global,
        course: &Course,
        step: &Step,
        fresh: u64,
    ) -> Result<Option<&'static str>, Fail> {
        self.ask(step.trouble)?;
        let status = self.run(alloc, step.lines, fresh)?;
        self.told.push_str(course.told.as_str())?;
        if status != course.status {
            return Ok(Some("another status"));
        }
        if self.shelf.told() != self.told.as_bytes() || self.shelf.short() {
            return Ok(Some("other bytes are told"));
        }
        self.calls = self.calls.saturating_add(course.calls);
        self.runs = self.runs.saturating_add(1);
        self.end(alloc, step)?;
        self.settle(course)
    }

    // What isn't as the course of the run allows once its time has ended.
    fn settle(&mut self, course: &Course) -> Result<Option<&'static str>, Fail> {
        let shown = self.look()?;
        if !may_show(course.known.shown, course.broken, shown) {
            return Ok(Some("the place shows something else"));
        }
        self.known = course.known;
        self.known.shown = shown;
        match self.look_at_all()? {
            None if !has_promised(&self.known) => Ok(Some("what was promised isn't there")),
            found => Ok(found),
        }
    }
}

/// A small generator's next number.
pub(crate) fn next(state: u64) -> u64 {
    state
        .wrapping_mul(6_364_136_223_846_793_005)
        .wrapping_add(1_442_695_040_888_963_407)
}

/// Choices for so many blocks.
pub(crate) fn drawn(alloc: Global, seed: u64, count: u64) -> Result<Vec<u32>, AllocError> {
    let mut choice = Vec::new(alloc);
    let mut state = seed;
    for _ in 0..count {
        state = next(state);
        choice.push(((state >> 33) % 4) as u32)?;
    }
    Ok(choice)
}

/// Plays a run and its end: the status and the bytes told are those of its course, the place then shows
/// what that course may leave, each block of a volume has a value that it allows, and what was promised is there.
pub(crate) fn play<R: Abort + AllocGlobal>(
    rt: &R,
    life: &mut Life,
    step: Step,
) -> Result<Course, Fail> {
    let moved = life.take_away(step.away)?;
    assert!(rt; moved.is_none(), "{step:?} {moved:?}");
    let fresh = life.runs.saturating_add(0x0102_0304_0506_0700);
    let course = Course::of(
        rt.alloc(),
        fresh,
        life.ground,
        life.known,
        step.lines,
        step.away,
        step.trouble,
    )?;
    let wrong = life.go_on(rt.alloc(), &course, &step, fresh)?;
    assert!(rt; wrong.is_none(), "{step:?} {wrong:?}");
    Ok(course)
}

// Whether a database whose creation was told is the one that is shown from then on, and its newest table has each volume
// that was told.
fn has_promised(known: &Known) -> bool {
    let Promised { database, volumes } = known.promised;
    let shown = match known.shown {
        Some(shown) => shown,
        None => return database.is_none() && volumes == [false; 3],
    };
    let [first, second, third] = volumes;
    (database.is_none() || database == Some(shown.identity))
        && (!first || has_volume(&shown, 0))
        && (!second || has_volume(&shown, 1))
        && (!third || has_volume(&shown, 2))
}

fn has_volume(shown: &Shown, number: u16) -> bool {
    match newest(shown) {
        Some(table) => volume_in(&table, number).is_some(),
        None => false,
    }
}

/// A life so far, on a small drive: runs of these lines with no trouble.
pub(crate) fn begun<R: Abort + AllocGlobal>(rt: &R, runs: &[&[Line]]) -> Result<Life, Fail> {
    begun_on(rt, SMALL, runs)
}

/// A life so far on such drives.
pub(crate) fn begun_on<R: Abort + AllocGlobal>(
    rt: &R,
    ground: Ground,
    runs: &[&[Line]],
) -> Result<Life, Fail> {
    let mut life = Life::new(rt.alloc(), ground)?;
    for lines in runs {
        play(rt, &mut life, calm(lines))?;
    }
    Ok(life)
}

/// A run of these lines with no trouble.
pub(crate) fn calm(lines: &[Line]) -> Step<'_> {
    Step {
        lines,
        away: &[],
        trouble: Trouble::Nothing,
        end: End::Quiet,
    }
}
