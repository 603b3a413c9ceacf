//! Changes of places on a host, asked by the lines of its site.
use crate::asking::{may_end, may_move};
use mdv_base::SliceName;
use mdv_name::SliceLine;
use mdv_places::{Move, PlacesFault, change_places};
use mdv_shown::Site;
use mdv_store_tests::Host;
use std::alloc::Global;
use std::test::Fail;

/// What is asked of the places.
#[derive(Clone, Copy)]
pub enum Asked<'a> {
    /// On each of these lines so many, each of so many blocks.
    Add(&'a [usize], u8, u32),
    /// None any more on these lines.
    Drop(&'a [usize]),
    First,
}

/// What came of it.
#[derive(Clone, Copy, Debug, PartialEq, Eq)]
pub enum Moved {
    /// Done, and whether each dropped place was wiped.
    Done(bool),
    Failed,
    /// So many places are active, and so many are listed.
    Lost(u32, u32),
    /// So many bytes, and room for so many.
    TooLong(u64, u64),
    Spent,
    Memory,
}

fn came_of(answer: Result<bool, PlacesFault>) -> Moved {
    match answer {
        Ok(clean) => Moved::Done(clean),
        Err(PlacesFault::Failed) => Moved::Failed,
        Err(PlacesFault::TooLong(fault)) => Moved::TooLong(fault.bytes, fault.room),
        Err(PlacesFault::Lost { active, listed }) => Moved::Lost(active, listed),
        Err(PlacesFault::Spent) => Moved::Spent,
        Err(PlacesFault::Memory) => Moved::Memory,
    }
}

fn lines_of<'a>(asked: &Asked<'a>) -> &'a [usize] {
    match *asked {
        Asked::Add(on, _, _) | Asked::Drop(on) => on,
        Asked::First => &[],
    }
}

// These lines of the site, in this order.
fn lines_on(alloc: Global, site: &Site, on: &[usize]) -> Result<Vec<SliceLine>, Fail> {
    let mut lines = Vec::new(alloc);
    for index in on {
        let line = site.lines.as_slice().get(*index).ok_or("a line")?;
        lines.push(*line)?;
    }
    Ok(lines)
}

fn names_of(alloc: Global, lines: &[SliceLine]) -> Result<Vec<SliceName>, Fail> {
    let mut names = Vec::new(alloc);
    for line in lines {
        names.push(line.name)?;
    }
    Ok(names)
}

/// Changes the places of the open database.
pub fn change(host: &mut Host, alloc: Global, asked: &Asked) -> Result<Moved, Fail> {
    let lines = lines_on(alloc, &host.site, lines_of(asked))?;
    let names = names_of(alloc, lines.as_slice())?;
    let asked = match *asked {
        Asked::Add(_, count, blocks) => Move::Add {
            lines: lines.as_slice(),
            count,
            blocks,
        },
        Asked::Drop(_) => Move::Drop {
            slices: names.as_slice(),
        },
        Asked::First => Move::First,
    };
    let mut store = host.store.take().ok_or("a database")?;
    if !may_move(&host.shelf, &host.geometry, &store, &asked) {
        return Err("a change that may be asked".into());
    }
    let answer = change_places(&mut store, &mut host.shelf, alloc, &host.geometry, &asked);
    host.store = Some(store);
    Ok(came_of(answer))
}

/// Ends the open database, and tells whether its last place was wiped.
pub fn end(host: &mut Host) -> Result<bool, Fail> {
    let store = host.store.take().ok_or("a database")?;
    if !may_end(&store) {
        return Err("a database with one place".into());
    }
    Ok(mdv_places::end(store, &mut host.shelf).is_ok())
}
