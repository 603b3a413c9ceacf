//! Drawn lives of a database on five drives, which are lost and come back, beside a plain world.
use crate::world::World;
use mdv_quorum_tests::Draws;
use mdv_store_tests::{Committed, Drives, End, Ground, Host, Image, Layout, Made, bit, local_on};
use std::alloc::Global;
use std::test::Fail;

// The store and the plain world, the number of the next table, and that of the last one that was told.
#[derive(Drop)]
struct Life {
    host: Host,
    world: World,
    next: u16,
    told: u16,
    seen: Seen,
}

// What happened in a life.
#[derive(Clone, Copy)]
struct Seen {
    adopted: u32,
    refused: u32,
    done: u32,
    lost: u32,
}

const NOTHING: Seen = Seen {
    adopted: 0,
    refused: 0,
    done: 0,
    lost: 0,
};

const ALL: Drives = 0b11111;

fn count(number: &mut u32) {
    *number = number.saturating_add(1);
}

// Of a database that isn't made yet.
fn new_life(alloc: Global, ground: &Ground, world: World) -> Result<Life, Fail> {
    Ok(Life {
        host: Host::new(alloc, ground.layout.text(), ground.own)?,
        world,
        next: 1,
        told: 0,
        seen: NOTHING,
    })
}

impl Life {
    // Whether the store and the world come to one end. Nothing is written where nothing is adopted, and no table that was told is taken back.
    fn boots(&mut self, alloc: Global) -> Result<bool, Fail> {
        let want = self.world.boot();
        let End::Adopted(found) = want else {
            count(&mut self.seen.refused);
            let (boot, is_same) = self.host.boot_watched(alloc)?;
            return Ok(boot.end == want && is_same);
        };
        count(&mut self.seen.adopted);
        let boot = self.host.boot(alloc)?;
        let up = ALL & !self.world.lost();
        Ok(boot.end == want && boot.up == up && self.told <= found.table)
    }

    fn restarts(&mut self, alloc: Global, draws: &mut Draws) -> Result<bool, Fail> {
        let keeps = draws.below(2) == 1;
        let back = draws.below(32) & draws.below(32) & self.world.lost();
        let image = if keeps { Image::Last } else { Image::Stable };
        self.host.crash(alloc, image)?;
        self.host.bring_back(back);
        self.world.crash(keeps, back);
        self.boots(alloc)
    }

    // A commit of the next table, of which so many calls pass.
    fn commits(&mut self, alloc: Global, passing: u64) -> Result<bool, Fail> {
        let table = self.next;
        self.next = table.saturating_add(1);
        let want = self.world.commit(table, passing);
        let committed = self.host.commit(alloc, table)?;
        if committed == Committed::Done {
            self.told = table;
            count(&mut self.seen.done);
        } else {
            count(&mut self.seen.lost);
        }
        Ok(want == Some(committed))
    }

    fn stops(&mut self, alloc: Global, draws: &mut Draws) -> Result<bool, Fail> {
        let passing = u64::from(draws.below(40));
        self.host.stop_after(passing);
        let committed = self.commits(alloc, passing)?;
        Ok(committed && self.restarts(alloc, draws)?)
    }

    fn loses(&mut self, draws: &mut Draws) {
        let drives = bit(draws.below(5)) | bit(draws.below(5));
        self.host.lose(drives);
        self.world.lose(drives);
    }

    fn turn(&mut self, alloc: Global, draws: &mut Draws) -> Result<bool, Fail> {
        let turn = draws.below(10);
        if !self.world.is_open() {
            return self.restarts(alloc, draws);
        }
        match turn {
            0..=3 => self.commits(alloc, u64::MAX),
            4 | 5 => self.stops(alloc, draws),
            6 | 7 => {
                self.loses(draws);
                Ok(true)
            }
            _ => self.restarts(alloc, draws),
        }
    }
}

const TURNS: u32 = 60;

// On which lines the places are, how many on each, and a seed.
type Drawn = (&'static [usize], u8, u64);

fn plays(alloc: Global, life: &mut Life, seed: u64) -> Result<bool, Fail> {
    let mut draws = Draws::new(seed);
    for _ in 0..TURNS {
        if !life.turn(alloc, &mut draws)? {
            return Ok(false);
        }
    }
    Ok(true)
}

fn makes_and_plays(
    alloc: Global,
    ground: &Ground,
    life: &mut Life,
    (on, places, seed): Drawn,
) -> Result<bool, Fail> {
    let made = life.host.create(alloc, &ground.own, 7, on, places)?;
    Ok(made == Made::Done && plays(alloc, life, seed)?)
}

// Whether the store did what the world does, and what was seen.
fn lives(alloc: Global, drawn: Drawn) -> Result<(bool, Seen), Fail> {
    let ground = local_on(Layout::Five)?;
    let world = World::new(alloc, drawn.0, drawn.1)?;
    let mut life = new_life(alloc, &ground, world)?;
    let is_kept = makes_and_plays(alloc, &ground, &mut life, drawn)?;
    Ok((is_kept, life.seen))
}

const LIVES: &[Drawn] = &[
    (&[0, 2, 4, 6, 8], 1, 1),
    (&[0, 2, 4, 6, 8], 1, 2),
    (&[0, 2, 4], 1, 3),
    (&[0, 2, 4, 6], 1, 4),
    (&[0, 2, 4, 6], 2, 5),
    (&[0, 1, 2, 4, 5], 1, 6),
    (&[9, 0, 4, 5, 2], 1, 7),
    (&[0, 2, 4, 6, 8], 3, 8),
];

fn sum(a: Seen, b: Seen) -> Seen {
    Seen {
        adopted: a.adopted.saturating_add(b.adopted),
        refused: a.refused.saturating_add(b.refused),
        done: a.done.saturating_add(b.done),
        lost: a.lost.saturating_add(b.lost),
    }
}

// The number of the first life that went another way; and where none did, whether enough was seen.
fn first_apart(alloc: Global) -> Result<(Option<usize>, bool), Fail> {
    let mut all = NOTHING;
    for number in 0..LIVES.len() {
        let (is_kept, seen) = lives(alloc, LIVES[number])?;
        if !is_kept {
            return Ok((Some(number), false));
        }
        all = sum(all, seen);
    }
    let is_full = all.adopted > 40 && all.refused > 20 && all.done > 40 && all.lost > 20;
    Ok((None, is_full))
}

// There are boots that adopt and boots that don't, and commits that are done and others that aren't.
#[test]
fn lives_go_as_in_a_plain_world(rt: HostRuntime) -> Result<(), Fail> {
    let (apart, is_full) = first_apart(rt.alloc())?;
    assert!(rt; apart.is_none() && is_full, "{apart:?}");
    Ok(())
}
