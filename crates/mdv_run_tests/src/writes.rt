// What a write leaves of what a place shows.
use crate::{Shown, ShownTable, ShownVolume};
use mdv_base::{Identity, Mark};

/// A write that failed, and with it its run.
#[derive(Clone, Copy, Debug, PartialEq, Eq)]
pub enum Broken {
    /// The first table of a database; whole it would show this.
    Creation(Shown),
    /// A table in the slot that doesn't hold the newest one, with the claim before it; whole it would show this.
    Table(Shown),
}

/// The first table of a database, on a replica of so many blocks.
pub(crate) fn made(identity: Identity, blocks: u64) -> Shown {
    Shown {
        identity,
        blocks,
        claim: 1,
        first: Some(ShownTable {
            mark: Mark { boot: 1, count: 0 },
            volumes: [None; 3],
        }),
        second: None,
    }
}

/// The table with the greatest mark.
pub(crate) fn newest(shown: &Shown) -> Option<ShownTable> {
    if is_second_newest(shown) {
        shown.second
    } else {
        shown.first
    }
}

/// The table's volume of that number.
pub(crate) fn volume_in(table: &ShownTable, number: u16) -> Option<ShownVolume> {
    for volume in table.volumes {
        match volume {
            Some(volume) if volume.number == number => return Some(volume),
            _ => {}
        }
    }
    None
}

/// What a boot leaves: it draws one more than the greatest number, claims it, and writes the newest table under it.
pub(crate) fn adopted(before: &Shown) -> Shown {
    let number = before.greatest().saturating_add(1);
    let mark = Mark {
        boot: number,
        count: 0,
    };
    let claimed = Shown {
        claim: number,
        ..*before
    };
    match newest(before) {
        Some(table) => with_spare(&claimed, Some(ShownTable { mark, ..table })),
        None => claimed,
    }
}

/// What a change leaves: the newest table with one volume more, under the next count.
pub(crate) fn changed(before: &Shown, volume: ShownVolume) -> Shown {
    match newest(before) {
        Some(table) => with_next(before, &table, with_volume(table.volumes, volume)),
        None => *before,
    }
}

/// What the clearing of a volume that is there leaves: the newest table without it, likewise.
pub(crate) fn cleared(before: &Shown, number: u16) -> Shown {
    match newest(before) {
        Some(table) => with_next(before, &table, without_volume(table.volumes, number)),
        None => *before,
    }
}

// These volumes, under the count behind that of the newest table.
fn with_next(before: &Shown, table: &ShownTable, volumes: [Option<ShownVolume>; 3]) -> Shown {
    let mark = Mark {
        count: table.mark.count.saturating_add(1),
        ..table.mark
    };
    with_spare(before, Some(ShownTable { mark, volumes }))
}

// The volumes with one more, in the order of their numbers.
fn with_volume(volumes: [Option<ShownVolume>; 3], volume: ShownVolume) -> [Option<ShownVolume>; 3] {
    let [first, second, _] = volumes;
    if !is_lower(first, volume) {
        [Some(volume), first, second]
    } else if !is_lower(second, volume) {
        [first, Some(volume), second]
    } else {
        [first, second, Some(volume)]
    }
}

// The others, of which there are two at most.
fn without_volume(volumes: [Option<ShownVolume>; 3], number: u16) -> [Option<ShownVolume>; 3] {
    let [first, second, third] = volumes;
    if has_number(first, number) {
        [second, third, None]
    } else if has_number(second, number) {
        [first, third, None]
    } else {
        [first, second, None]
    }
}

fn has_number(volume: Option<ShownVolume>, number: u16) -> bool {
    match volume {
        Some(volume) => volume.number == number,
        None => false,
    }
}

fn is_lower(other: Option<ShownVolume>, volume: ShownVolume) -> bool {
    match other {
        Some(other) => other.number < volume.number,
        None => false,
    }
}

// The slot that doesn't hold the newest table has this one.
fn with_spare(before: &Shown, table: Option<ShownTable>) -> Shown {
    if is_second_newest(before) {
        Shown {
            first: table,
            ..*before
        }
    } else {
        Shown {
            second: table,
            ..*before
        }
    }
}

/// Whether the place may show this, where it showed that by the writes that were answered, and one more
/// failed.
pub(crate) fn may_show(shown: Option<Shown>, broken: Option<Broken>, after: Option<Shown>) -> bool {
    match (broken, shown) {
        (None, _) => after == shown,
        (Some(Broken::Creation(new)), _) => after.is_none() || after == Some(new),
        (Some(Broken::Table(new)), Some(before)) => {
            after.is_some_and(|after| is_between(&before, &new, &after))
        }
        (Some(Broken::Table(_)), None) => false,
    }
}

// Nothing was written, or the claim, or the spare slot was closed behind it, or it has the new table.
fn is_between(before: &Shown, new: &Shown, after: &Shown) -> bool {
    let claimed = Shown {
        claim: new.claim,
        ..*before
    };
    let closed = with_spare(&claimed, None);
    after == before || *after == claimed || *after == closed || after == new
}

fn is_second_newest(shown: &Shown) -> bool {
    match (shown.first, shown.second) {
        (Some(first), Some(second)) => {
            (first.mark.boot, first.mark.count) < (second.mark.boot, second.mark.count)
        }
        (None, Some(_)) => true,
        _ => false,
    }
}
