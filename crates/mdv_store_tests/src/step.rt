//! Steps of a database's life, each with what has to come of it, and the walk over a list of them.
use crate::host::{Boot, Committed, Drives, End, Found, Host, Image, Made, Peeked, bit};
use crate::tables::{Ground, Layout, local_on, shared_on};
use mdv_base::{Flags, Place};
use mdv_replica::claim_block;
use std::alloc::Global;
use std::test::Fail;

/// What is done, and what comes of it. The first replica on slice 7 begins at block 18 of its drive.
#[derive(Clone, Copy)]
pub enum Step {
    /// A creation of a database with this fresh word: on which lines of the site, how many places on each, and what comes of it.
    Make(u64, &'static [usize], u8, Made),
    /// One with the key of another host, or of another set.
    MakeOther(u64, &'static [usize], u8),
    /// A change of places of database 7 is under way, from the first place of each of the old lines to that of each of the new ones: all of them show the table of this number, which lists both.
    Changes(&'static [usize], &'static [usize], u16),
    /// Each drive is read by one call, and then it boots. The drives that are up are those that aren't lost, the boot is clean where none is, and nothing is written where nothing is adopted.
    Boots(End),
    /// So it adopts a table of database 7 under this number: the table's number, and how many places it lists.
    Adopts(u64, u16, usize),
    /// A call fails in it, and these drives aren't up.
    BootsWithout(Drives, End),
    /// Each drive is read by one call, and then a peek tells this, and nothing is written. The drives that answered are those that aren't lost.
    Peeks(Peeked),
    /// So it is, and a read fails on these drives.
    PeeksWithout(Drives, Peeked),
    Commits(u16, Committed),
    /// Nothing is written.
    CommitsNothing(u16, Committed),
    /// Nothing is written of so many volumes.
    CommitsMany(u16, Committed),
    Lose(Drives),
    /// Behind a crash these drives are back.
    Back(Drives),
    Crash(Image),
    /// The call of that number fails, counted from the first.
    Fail(u64),
    /// A byte of a drive's block is spoiled.
    Spoil(u32, u64, usize),
    /// A drive's block is a claim of this number.
    Claim(u32, u64, u64),
    /// The letters of the listed places, in their order.
    Tells(&'static [&'static str]),
}

#[derive(Drop)]
struct Life {
    host: Host,
    ground: Ground,
    lost: Drives,
}

fn all_drives(host: &Host) -> Drives {
    let mut all = 0;
    for drive in 0..host.drives() {
        all |= bit(drive);
    }
    all
}

fn writes(end: End) -> bool {
    matches!(end, End::Adopted(_) | End::Lost(_, _))
}

// The nine letters, each in its place, or a dash.
fn spelled(flags: &Flags) -> [u8; 9] {
    let all = [
        (flags.active, b'a'),
        (flags.master, b'm'),
        (flags.updated, b'u'),
        (flags.located, b'l'),
        (flags.write_error, b'W'),
        (flags.read_error, b'R'),
        (flags.form_fault, b'F'),
        (flags.master_fault, b'M'),
        (flags.body_fault, b'D'),
    ];
    all.map(|(is, letter)| if is { letter } else { b'-' })
}

fn tells_at(host: &Host, place: &Place, letters: &str) -> bool {
    match host.flags(place) {
        Some(flags) => spelled(&flags).as_slice() == letters.as_bytes(),
        None => false,
    }
}

// Of a place that isn't listed, as one that would be longer, no letters are told.
fn tells(host: &Host, letters: &[&str]) -> bool {
    let Some(places) = host.places() else {
        return letters.is_empty();
    };
    let places = places.as_slice();
    places.len() == letters.len()
        && places
            .iter()
            .zip(letters)
            .all(|(place, letters)| tells_at(host, place, letters))
        && places.iter().all(|place| is_untold(host, *place))
}

fn is_untold(host: &Host, place: Place) -> bool {
    let longer = Place {
        blocks: place.blocks.saturating_add(1),
        ..place
    };
    host.flags(&longer).is_none()
}

impl Life {
    fn new(alloc: Global, ground: Ground) -> Result<Life, Fail> {
        Ok(Life {
            host: Host::new(alloc, ground.layout.text(), ground.own)?,
            ground,
            lost: 0,
        })
    }

    // It comes to this, and nothing was written where there was nothing to write.
    fn boots_to(&mut self, alloc: Global, want: Boot) -> Result<bool, Fail> {
        let (boot, is_same) = self.host.boot_watched(alloc)?;
        Ok((is_same || writes(boot.end)) && boot == want)
    }

    fn boots(&mut self, alloc: Global, end: End) -> Result<bool, Fail> {
        let up = all_drives(&self.host) & !self.lost;
        let clean = up == all_drives(&self.host);
        self.boots_to(alloc, Boot { end, up, clean })
    }

    fn boots_without(&mut self, alloc: Global, down: Drives, end: End) -> Result<bool, Fail> {
        let up = all_drives(&self.host) & !down;
        let clean = false;
        self.boots_to(alloc, Boot { end, up, clean })
    }

    fn peeks(&mut self, alloc: Global, failed: Drives, want: Peeked) -> Result<bool, Fail> {
        let before = self.host.blocks(alloc)?;
        let (peeked, calm) = self.host.peek(alloc)?;
        let answered = all_drives(&self.host) & !self.lost & !failed;
        Ok(peeked == want && calm == answered && self.host.holds(alloc, before.as_slice())?)
    }

    fn commits_nothing(
        &mut self,
        alloc: Global,
        number: u16,
        want: Committed,
    ) -> Result<bool, Fail> {
        let before = self.host.blocks(alloc)?;
        let committed = self.host.commit(alloc, number)?;
        Ok(committed == want && self.host.holds(alloc, before.as_slice())?)
    }

    fn commits_many(&mut self, alloc: Global, count: u16, want: Committed) -> Result<bool, Fail> {
        let before = self.host.blocks(alloc)?;
        let committed = self.host.commit_many(alloc, count)?;
        Ok(committed == want && self.host.holds(alloc, before.as_slice())?)
    }

    fn lose(&mut self, drives: Drives) {
        self.lost |= drives;
        self.host.lose(drives);
    }

    fn back(&mut self, alloc: Global, drives: Drives) -> Result<(), Fail> {
        self.lost &= !drives;
        self.host.crash(alloc, Image::Stable)?;
        self.host.bring_back(drives);
        Ok(())
    }

    // What is done to the drives alone.
    fn change(&mut self, alloc: Global, step: &Step) -> Result<(), Fail> {
        match *step {
            Step::Lose(drives) => self.lose(drives),
            Step::Back(drives) => self.back(alloc, drives)?,
            Step::Crash(image) => self.host.crash(alloc, image)?,
            Step::Fail(number) => self.host.fail_call(number)?,
            Step::Spoil(drive, at, byte) => self.host.spoil(drive, at, byte)?,
            Step::Claim(drive, at, number) => self.host.put(drive, at, claim_block(number))?,
            _ => {}
        }
        Ok(())
    }

    // Whether this comes of the step.
    fn step(&mut self, alloc: Global, step: &Step) -> Result<bool, Fail> {
        let Ground { own, other, .. } = self.ground;
        match *step {
            Step::Make(fresh, on, count, want) => {
                Ok(self.host.create(alloc, &own, fresh, on, count)? == want)
            }
            Step::MakeOther(fresh, on, count) => {
                Ok(self.host.create(alloc, &other, fresh, on, count)? == Made::Done)
            }
            Step::Changes(old, new, number) => {
                self.host.lay_change(alloc, &own, 7, [old, new], number)?;
                Ok(true)
            }
            Step::Boots(end) => self.boots(alloc, end),
            Step::Adopts(boot, table, places) => {
                let found = Found {
                    fresh: 7,
                    boot,
                    table,
                    places,
                };
                self.boots(alloc, End::Adopted(found))
            }
            Step::BootsWithout(down, end) => self.boots_without(alloc, down, end),
            Step::Peeks(want) => self.peeks(alloc, 0, want),
            Step::PeeksWithout(failed, want) => self.peeks(alloc, failed, want),
            Step::Commits(number, want) => Ok(self.host.commit(alloc, number)? == want),
            Step::CommitsNothing(number, want) => self.commits_nothing(alloc, number, want),
            Step::CommitsMany(count, want) => self.commits_many(alloc, count, want),
            Step::Tells(letters) => Ok(tells(&self.host, letters)),
            _ => {
                self.change(alloc, step)?;
                Ok(true)
            }
        }
    }
}

// The drives that all hosts reach are a set's, and the others a host's.
fn ground_on(layout: Layout) -> Result<Ground, Fail> {
    match layout {
        Layout::Shared => shared_on(layout),
        Layout::Five | Layout::Three | Layout::Wide => local_on(layout),
    }
}

/// The first step, counted from 0, of which something else comes.
pub fn first_wrong(alloc: Global, layout: Layout, steps: &[Step]) -> Result<Option<usize>, Fail> {
    let mut life = Life::new(alloc, ground_on(layout)?)?;
    walk(alloc, &mut life, steps)
}

/// What it shows, and its steps.
pub type Case = (&'static str, &'static [Step]);

/// The number of the first case of which something else comes, and of its step.
pub fn first_of(
    alloc: Global,
    layout: Layout,
    cases: &[Case],
) -> Result<Option<(usize, usize)>, Fail> {
    for number in 0..cases.len() {
        let (_, steps) = cases[number];
        if let Some(step) = first_wrong(alloc, layout, steps)? {
            return Ok(Some((number, step)));
        }
    }
    Ok(None)
}

/// The name of the case.
pub fn name_of(cases: &[Case], wrong: Option<(usize, usize)>) -> &'static str {
    match wrong {
        Some((number, _)) if number < cases.len() => cases[number].0,
        _ => "",
    }
}

fn walk(alloc: Global, life: &mut Life, steps: &[Step]) -> Result<Option<usize>, Fail> {
    for number in 0..steps.len() {
        if !life.step(alloc, &steps[number])? {
            return Ok(Some(number));
        }
    }
    Ok(None)
}
