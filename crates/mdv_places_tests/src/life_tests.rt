//! Drawn lives of a database on five drives, which are lost and come back, while places come and go, beside the plain world.
use crate::host::{Asked, Moved, change, end};
use crate::world::{Fails, World};
use mdv_quorum_tests::Draws;
use mdv_store_tests::{Committed, Drives, End, Host, Image, Layout, Made, bit, local_on};
use std::alloc::Global;
use std::test::Fail;

// The store and the plain world, and the number of the next table.
#[derive(Drop)]
struct Life {
    host: Host,
    world: World,
    next: u16,
    seen: Seen,
}

// What happened in a life.
#[derive(Clone, Copy)]
struct Seen {
    adopted: u32,
    refused: u32,
    moved: u32,
    unmoved: u32,
}

const NOTHING: Seen = Seen {
    adopted: 0,
    refused: 0,
    moved: 0,
    unmoved: 0,
};

const ALL: Drives = 0b11111;

const LINES: usize = 10;

fn count(number: &mut u32) {
    *number = number.saturating_add(1);
}

fn new_life(alloc: Global, on: &[usize], places: u8) -> Result<Life, Fail> {
    let ground = local_on(Layout::Five)?;
    let mut host = Host::new(alloc, ground.layout.text(), ground.own)?;
    if host.create(alloc, &ground.own, 7, on, places)? != Made::Done {
        return Err("a creation".into());
    }
    Ok(Life {
        host,
        world: World::new(on, places),
        next: 1,
        seen: NOTHING,
    })
}

// A line that has a listed place, or one that has none, where there is one.
fn line_with(world: &World, draws: &mut Draws, used: bool) -> Option<usize> {
    let first = draws.below(10) as usize;
    for step in 0..LINES {
        let line = first.saturating_add(step) % LINES;
        if world.has_on(line) == used {
            return Some(line);
        }
    }
    None
}

fn has_beside(world: &World, line: usize) -> bool {
    for other in 0..LINES {
        if other != line && world.has_on(other) {
            return true;
        }
    }
    false
}

impl Life {
    fn boots(&mut self, alloc: Global) -> Result<bool, Fail> {
        let want = self.world.boot();
        let up = ALL & !self.world.lost();
        if matches!(want, End::Adopted(_)) {
            count(&mut self.seen.adopted);
            let boot = self.host.boot(alloc)?;
            return Ok(boot.end == want && boot.up == up);
        }
        count(&mut self.seen.refused);
        let (boot, is_same) = self.host.boot_watched(alloc)?;
        Ok(boot.end == want && boot.up == up && is_same)
    }

    fn restarts(&mut self, alloc: Global, draws: &mut Draws) -> Result<bool, Fail> {
        let kept = draws.below(32);
        let back = (draws.below(32) | draws.below(32)) & self.world.lost();
        self.host.crash(alloc, Image::LastOn(kept))?;
        self.world.crash(kept);
        self.host.bring_back(back);
        self.world.back(back);
        self.boots(alloc)
    }

    fn commits(&mut self, alloc: Global) -> Result<bool, Fail> {
        let table = self.next;
        self.next = table.saturating_add(1);
        let want: Option<Committed> = self.world.commit(table);
        Ok(want == Some(self.host.commit(alloc, table)?))
    }

    fn moves(&mut self, alloc: Global, asked: &Asked) -> Result<bool, Fail> {
        if !self.world.has_one_list() || !self.world.may_change(asked) {
            return Ok(true);
        }
        let want = self.world.change(asked);
        let moved = change(&mut self.host, alloc, asked)?;
        count(if matches!(moved, Moved::Done(_)) {
            &mut self.seen.moved
        } else {
            &mut self.seen.unmoved
        });
        Ok(want == Some(moved))
    }

    fn adds(&mut self, alloc: Global, draws: &mut Draws) -> Result<bool, Fail> {
        let Some(line) = line_with(&self.world, draws, false) else {
            return Ok(true);
        };
        let most = if line % 2 == 0 { 3 } else { 1 };
        let places = (draws.below(most) as u8).saturating_add(1);
        if self.world.listed().saturating_add(u32::from(places)) > 8 {
            return Ok(true);
        }
        self.moves(alloc, &Asked::Add(&[line], places, 16))
    }

    fn drops(&mut self, alloc: Global, draws: &mut Draws) -> Result<bool, Fail> {
        let Some(line) = line_with(&self.world, draws, true) else {
            return Ok(true);
        };
        if !has_beside(&self.world, line) {
            return Ok(true);
        }
        self.moves(alloc, &Asked::Drop(&[line]))
    }

    fn changes(&mut self, alloc: Global, draws: &mut Draws) -> Result<bool, Fail> {
        match draws.below(8) {
            0..=3 => self.adds(alloc, draws),
            4..=6 => self.drops(alloc, draws),
            _ => self.moves(alloc, &Asked::First),
        }
    }

    // So many calls pass, and then the host crashes.
    fn stops(&mut self, alloc: Global, draws: &mut Draws) -> Result<bool, Fail> {
        let passing = u64::from(draws.below(70));
        self.host.stop_after(passing);
        self.world.fail(Fails::From(passing));
        let is_so = self.changes(alloc, draws)?;
        Ok(is_so && self.restarts(alloc, draws)?)
    }

    fn loses(&mut self, draws: &mut Draws) {
        let drives = bit(draws.below(5)) & bit(draws.below(5)) | bit(draws.below(5));
        self.host.lose(drives);
        self.world.lose(drives);
    }

    fn ends(&mut self, alloc: Global, draws: &mut Draws) -> Result<bool, Fail> {
        if self.world.listed() != 1 || !self.world.is_whole() || draws.below(4) != 0 {
            return Ok(true);
        }
        let want = self.world.end();
        let is_so = want == Some(end(&mut self.host)?);
        Ok(is_so && self.restarts(alloc, draws)?)
    }

    fn turn(&mut self, alloc: Global, draws: &mut Draws) -> Result<bool, Fail> {
        let turn = draws.below(14);
        if !self.world.is_open() {
            return self.restarts(alloc, draws);
        }
        match turn {
            0 | 1 => self.commits(alloc),
            2..=5 => self.changes(alloc, draws),
            6..=8 => self.stops(alloc, draws),
            9 | 10 => {
                self.loses(draws);
                Ok(true)
            }
            11 => self.ends(alloc, draws),
            _ => self.restarts(alloc, draws),
        }
    }
}

const TURNS: u32 = 60;

// On which lines the places are, how many on each, and a seed.
type Drawn = (&'static [usize], u8, u64);

// The first turn that went another way; and what was seen.
fn plays(alloc: Global, (on, places, seed): Drawn) -> Result<(Option<u32>, Seen), Fail> {
    let mut life = new_life(alloc, on, places)?;
    let mut draws = Draws::new(seed);
    for turn in 0..TURNS {
        if !life.turn(alloc, &mut draws)? {
            return Ok((Some(turn), life.seen));
        }
    }
    Ok((None, life.seen))
}

const LIVES: &[Drawn] = &[
    (&[0], 1, 1),
    (&[0, 2, 4], 1, 2),
    (&[0, 2, 4], 1, 3),
    (&[0, 1, 2, 4], 1, 4),
    (&[0, 2], 3, 5),
    (&[0], 3, 6),
    (&[9, 4, 2], 1, 7),
    (&[0, 2, 4, 6, 8], 1, 8),
];

fn sum(a: Seen, b: Seen) -> Seen {
    Seen {
        adopted: a.adopted.saturating_add(b.adopted),
        refused: a.refused.saturating_add(b.refused),
        moved: a.moved.saturating_add(b.moved),
        unmoved: a.unmoved.saturating_add(b.unmoved),
    }
}

// The number of the first life that went another way, and its turn; and where none did, whether enough was seen.
fn first_apart(alloc: Global) -> Result<(Option<(usize, u32)>, bool), Fail> {
    let mut all = NOTHING;
    for number in 0..LIVES.len() {
        let (apart, seen) = plays(alloc, LIVES[number])?;
        if let Some(turn) = apart {
            return Ok((Some((number, turn)), false));
        }
        all = sum(all, seen);
    }
    let is_full = all.adopted > 40 && all.refused > 20 && all.moved > 40 && all.unmoved > 20;
    Ok((None, is_full))
}

// There are boots that adopt and boots that don't, and changes that are done and others that aren't.
#[test]
fn lives_go_as_in_a_plain_world(rt: HostRuntime) -> Result<(), Fail> {
    let (apart, is_full) = first_apart(rt.alloc())?;
    assert!(rt; apart.is_none() && is_full, "{apart:?}");
    Ok(())
}
