//! Steps of a database whose places change, each with what has to come of it, and the walk over a list of them.
use crate::host::{Asked, Moved, change, end};
use mdv_base::Mark;
use mdv_store_tests::{Committed, Drives, End, Found, Host, Image, Layout, Made, local_on};
use std::alloc::Global;
use std::test::Fail;

/// What is done, and what comes of it.
#[derive(Clone, Copy)]
pub(crate) enum Step {
    /// A creation of database 7: on which lines of the site, and how many places on each.
    Make(&'static [usize], u8),
    /// A creation of a database with this fresh word, on one place.
    MakeAnother(u64, usize),
    Moves(Asked<'static>, Moved),
    /// Nothing is written.
    MovesNothing(Asked<'static>, Moved),
    Ends(bool),
    Commits(u16, Committed),
    /// It adopts a table of database 7 under this number: the table's number, and how many places it lists.
    Adopts(u64, u16, usize),
    Boots(End),
    /// The mark's boot number and its count.
    Marks(u64, u64),
    Lose(Drives),
    /// Behind a crash these drives are back.
    Back(Drives),
    Crash(Image),
    /// The call of that number fails, counted from the first.
    Fail(u64),
    /// So many calls pass, and then every call fails.
    Stop(u64),
}

/// What it shows, and its steps.
pub(crate) type Case = (&'static str, &'static [Step]);

fn adopted(boot: u64, table: u16, places: usize) -> End {
    End::Adopted(Found {
        fresh: 7,
        boot,
        table,
        places,
    })
}

fn mark_of(host: &Host) -> Option<Mark> {
    let store = host.store.as_ref()?;
    Some(store.mark())
}

fn moves_nothing(alloc: Global, host: &mut Host, asked: &Asked, want: Moved) -> Result<bool, Fail> {
    let before = host.blocks(alloc)?;
    let moved = change(host, alloc, asked)?;
    Ok(moved == want && host.holds(alloc, before.as_slice())?)
}

// Nothing is written where nothing is adopted.
fn boots(alloc: Global, host: &mut Host, want: End) -> Result<bool, Fail> {
    let (boot, is_same) = host.boot_watched(alloc)?;
    Ok(boot.end == want && (is_same || matches!(want, End::Adopted(_))))
}

// What is done to the drives alone.
fn turn(alloc: Global, host: &mut Host, step: &Step) -> Result<(), Fail> {
    match *step {
        Step::Lose(drives) => host.lose(drives),
        Step::Back(drives) => {
            host.crash(alloc, Image::Stable)?;
            host.bring_back(drives);
        }
        Step::Crash(image) => host.crash(alloc, image)?,
        Step::Fail(number) => host.fail_call(number)?,
        Step::Stop(calls) => host.stop_after(calls),
        _ => {}
    }
    Ok(())
}

// A host on drives of this layout, by this table of drives.
fn host_on(alloc: Global, layout: Layout, text: &[u8]) -> Result<Host, Fail> {
    let ground = local_on(layout)?;
    let host = Host::new(alloc, text, ground.own)?;
    Ok(host)
}

// Whether the database is made.
fn makes(
    alloc: Global,
    host: &mut Host,
    layout: Layout,
    fresh: u64,
    on: &[usize],
    places: u8,
) -> Result<bool, Fail> {
    let ground = local_on(layout)?;
    Ok(host.create(alloc, &ground.own, fresh, on, places)? == Made::Done)
}

// Whether this comes of the step.
fn is_so(alloc: Global, host: &mut Host, layout: Layout, step: &Step) -> Result<bool, Fail> {
    match *step {
        Step::Make(on, places) => makes(alloc, host, layout, 7, on, places),
        Step::MakeAnother(fresh, line) => makes(alloc, host, layout, fresh, &[line], 1),
        Step::Moves(asked, want) => Ok(change(host, alloc, &asked)? == want),
        Step::MovesNothing(asked, want) => moves_nothing(alloc, host, &asked, want),
        Step::Ends(want) => Ok(end(host)? == want),
        Step::Commits(number, want) => Ok(host.commit(alloc, number)? == want),
        Step::Adopts(boot, table, places) => boots(alloc, host, adopted(boot, table, places)),
        Step::Boots(want) => boots(alloc, host, want),
        Step::Marks(boot, count) => Ok(mark_of(host) == Some(Mark { boot, count })),
        _ => {
            turn(alloc, host, step)?;
            Ok(true)
        }
    }
}

// The first step, counted from 0, of which something else comes.
fn first_wrong(
    alloc: Global,
    layout: Layout,
    text: &[u8],
    steps: &[Step],
) -> Result<Option<usize>, Fail> {
    let mut host = host_on(alloc, layout, text)?;
    for number in 0..steps.len() {
        if !is_so(alloc, &mut host, layout, &steps[number])? {
            return Ok(Some(number));
        }
    }
    Ok(None)
}

/// The case of which something else comes on drives of this layout, and the number of its step.
pub(crate) fn first_of(
    alloc: Global,
    layout: Layout,
    text: &[u8],
    cases: &[Case],
) -> Result<Option<(&'static str, usize)>, Fail> {
    for (name, steps) in cases {
        if let Some(step) = first_wrong(alloc, layout, text, *steps)? {
            return Ok(Some((*name, step)));
        }
    }
    Ok(None)
}
