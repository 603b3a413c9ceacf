// Tables that are told apart by a number: of one without volumes that is 0, and else its only volume's.
ghost use Rattle.std.specs.Prelude.{◌≡◌, ◌≤◌, ◌<◌, length, IfOk};

use mdv_base::{DriveName, Place, Places, SliceName, VolId};
use mdv_plan::{
    Base, Component, KindStatus, Listed, Lists, PartStatus, Row, State, Stripe, Table, Volume,
    VolumeKind, VolumeStatus,
};
use std::alloc::{AllocError, Global};

const VOLUME_SLICE: SliceName = SliceName {
    drive: DriveName {
        controller: 0,
        target: 0,
        disk: 0,
    },
    slice: 0,
};

const VOLUME_BLOCKS: u64 = 2;

// The same lists, and no volume, or that of the number.
pub(crate) fn next_table(alloc: Global, last: &Table, number: u16) -> Result<Table, AllocError>
    ensures { IfOk result (λ next. next.plan.lists ≡ last.now.plan.lists) }
{
    let mut next = Table::empty(alloc, Places::new());
    add_volume(alloc, &mut next, number)?;
    next.plan.lists = same_lists(&last.plan.lists);
    Ok(next)
}

// The same lists, and volumes of the numbers below this one, all on one slice: so a commit can write the text, and no boot reads it.
pub(crate) fn many_volumes(alloc: Global, last: &Table, count: u16) -> Result<Table, AllocError>
    ensures { IfOk result (λ next. next.plan.lists ≡ last.now.plan.lists) }
{
    let mut next = Table::empty(alloc, Places::new());
    for number in 0..count.min(8192) {
        add_stripe(alloc, &mut next, VolId(number))?;
    }
    next.plan.lists = same_lists(&last.plan.lists);
    Ok(next)
}

fn same_lists(lists: &Lists) -> Lists
    ensures { result ≡ lists.now }
{
    match lists {
        Lists::One(places) => Lists::One(same_places(places)),
        Lists::Two(old, new) => Lists::Two(same_places(old), same_places(new)),
    }
}

// Places have no copy of their own.
fn same_places(places: &Places) -> Places
    ensures { result ≡ places.now }
{
    let mut same = Places::new();
    for place in all_of(places) {
        same.push(*place);
    }
    same
}

// The places, and that they are few.
fn all_of(places: &Places) -> &[Place]
    ensures value { result.now ≡ places.now }
    ensures few { length result.now ≤ 50 }
{
    let _few = places.is_full();
    places.as_slice()
}

// The volume of the number, where it is one of a volume and not 0.
pub(crate) fn add_volume(alloc: Global, table: &mut Table, number: u16) -> Result<(), AllocError> {
    if 0 < number && number < 8192 {
        add_stripe(alloc, table, VolId(number))?;
    }
    Ok(())
}

// A stripe of one component, of which nothing failed.
fn add_stripe(alloc: Global, table: &mut Table, number: VolId) -> Result<(), AllocError>
    requires { number.0 < 8192 }
{
    let kind = VolumeKind::Stripe(stripe(alloc)?);
    table.plan.volumes.put(Volume { number, kind })?;
    let okay = PartStatus {
        state: State::Okay,
        spare: None,
    };
    let kind = KindStatus::Stripe(Listed::from_slice(alloc, &[okay])?);
    table.status.volumes.put(VolumeStatus { number, kind })
}

fn stripe(alloc: Global) -> Result<Stripe, AllocError> {
    let component = Component {
        on: Base::Slice(VOLUME_SLICE),
        start: 0,
        blocks: VOLUME_BLOCKS,
    };
    let row = Row {
        interlace: 32,
        components: Listed::from_slice(alloc, &[component])?,
    };
    let mut rows = Listed::new(alloc);
    rows.push(row)?;
    Ok(Stripe { rows, spares: None })
}

pub(crate) fn number_of(table: &Table) -> u16 {
    match table.plan.volumes.as_slice() {
        [only] => only.number.0,
        [] => 0,
        _ => u16::MAX,
    }
}
