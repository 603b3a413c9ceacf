//! A boot that ends a change of places is stopped before each of its calls from the first write on, the host crashes, and two boots follow.
use mdv_store_tests::{Boot, Drives, End, Found, Host, Image, Layout, local_on};
use std::alloc::Global;
use std::test::Fail;

// As in `changing_tests`: three places were, on the drives 0 to 2, and five come.
const OLD: &[usize] = &[0, 2, 4];

const NEW: &[usize] = &[4, 6, 8, 1, 3];

const ALL: Drives = 0b11111;

// It makes so many calls where none fails, and these first ones read and sync drives.
const CALLS: u64 = 113;

const READS: u64 = 27;

const IMAGES: &[Image] = &[Image::Stable, Image::Last, Image::Drawn(1), Image::Drawn(2)];

// The drives of the first boot behind the crash: all; those of the old list, on which three of the five lie; and three others, on which three of the five lie, and one of the old list.
const FIRST: &[Drives] = &[ALL, 0b00111, 0b11100];

// Table 1 with the list that came, under one of these numbers.
fn is_over(found: Found, least: u64, most: u64) -> bool {
    found.fresh == 7
        && found.table == 1
        && found.places == 5
        && least <= found.boot
        && found.boot <= most
}

fn boots_with(alloc: Global, host: &mut Host, drives: Drives) -> Result<Boot, Fail> {
    host.bring_back(ALL);
    host.lose(ALL & !drives);
    host.boot(alloc)
}

// Where nothing was stopped it is done; and a boot that tells so was done.
fn is_stopped(boot: Boot, number: u64) -> bool {
    match boot.end {
        End::Adopted(found) => is_over(found, 2, 2) && boot.clean == (CALLS <= number),
        _ => number < CALLS && !boot.clean,
    }
}

// Behind one that was done the old list counts no more. Where half of it is there, or the change was over, the next one is.
fn goes_on(done: bool, drives: Drives, boot: Boot) -> bool {
    match boot.end {
        End::Adopted(found) => is_over(found, 2, 3) && (!done || found.boot == 3),
        End::NoQuorum(1, 2) => !done && drives == 0b11100,
        _ => false,
    }
}

// The greatest number that may have been claimed by then.
fn ends(before: Boot, boot: Boot) -> bool {
    let least = match before.end {
        End::Adopted(found) => found.boot.saturating_add(1),
        _ => 2,
    };
    boot.clean && matches!(boot.end, End::Adopted(found) if is_over(found, least, 4))
}

fn lives(alloc: Global, number: u64, image: Image, drives: Drives) -> Result<bool, Fail> {
    let ground = local_on(Layout::Five)?;
    let mut host = Host::new(alloc, ground.layout.text(), ground.own)?;
    host.lay_change(alloc, &ground.own, 7, [OLD, NEW], 1)?;
    host.stop_after(number);
    let stopped = host.boot(alloc)?;
    host.crash(alloc, image)?;
    let done = matches!(stopped.end, End::Adopted(_));
    let next = boots_with(alloc, &mut host, drives)?;
    let last = boots_with(alloc, &mut host, ALL)?;
    Ok(is_stopped(stopped, number) && goes_on(done, drives, next) && ends(next, last))
}

// Each stop is tried with one image, and with the drives of one of these.
fn way_at(number: u64) -> (Image, Drives) {
    let turn = number as usize;
    (IMAGES[turn % IMAGES.len()], FIRST[turn % FIRST.len()])
}

// The first stop behind which something else happens.
fn first_broken(alloc: Global) -> Result<Option<u64>, Fail> {
    for number in READS..=CALLS {
        let (image, drives) = way_at(number);
        if !lives(alloc, number, image, drives)? {
            return Ok(Some(number));
        }
    }
    Ok(None)
}

#[test]
fn a_change_is_over_behind_each_stop(rt: HostRuntime) -> Result<(), Fail> {
    let broken = first_broken(rt.alloc())?;
    assert!(rt; broken.is_none(), "{broken:?}");
    Ok(())
}
