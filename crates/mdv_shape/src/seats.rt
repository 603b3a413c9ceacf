//! The spares of all pools, and the components that lie on spares.
ghost use Rattle.std.specs.Prelude.{◌≡◌, ◌++◌, ◌↔◌, true, map, IsTrue, IfOk, OnOk};
ghost use Rattle.std.specs.List.{flat_map, list_all};
ghost use Rattle.mdv_name.specs.Code.{slice_code};
ghost use Rattle.mdv_shape.specs.Seats.{spares_in, spare_key, same_seat as spec_same_seat, are_spares};
ghost use Rattle.mdv_shape.specs.Seats.{is_room_for as spec_is_room_for, is_in_use as spec_is_in_use, AreSeats};
ghost use Rattle.mdv_shape.specs.Found.{seat_in, HasSeat, AreFirsts, is_as_seat as spec_is_as_seat, is_seat_in};

use crate::distinct::set_of;
use crate::taken::seats_taken;
use mdv_base::SliceName;
use mdv_plan::{Keyed, Pool, Spare, SpareState, SpareStatus, Table};
use mdv_whole::{States, state_in};
use std::alloc::{AllocError, Global};
use std::collections::BTreeMap;

// The first spare on each slice, in the order of the pools, by the slice's number.
type Seats = BTreeMap<u32, Spare>;

/// One number for each slice.
pub fn slice_key(slice: SliceName) -> u32
    ensures { result ≡ slice_code slice }
{
    let state = SpareState::Available;
    SpareStatus { slice, state }.key()
}

fn all_spares(alloc: Global, pools: &[Pool]) -> Result<Vec<Spare>, AllocError>
    ensures { IfOk result (λ list. list.items ≡ flat_map spares_in pools.now) }
{
    let mut list = Vec::new(alloc);
    for pool in pools {
        list.extend_from_slice(pool.spares.as_slice())?;
    }
    Ok(list)
}

fn find_seat(seats: &Seats, slice: SliceName) -> Option<Spare>
    ensures { result ≡ seat_in seats.now slice }
{
    match seats.get(&slice_key(slice)) {
        Some(first) => Some(*first),
        None => None,
    }
}

fn add_seat(seats: &mut Seats, spare: Spare) -> Result<(), AllocError>
    ensures { OnOk result (HasSeat seats.old spare seats.new) }
{
    let key = slice_key(spare.slice);
    if !seats.contains_key(&key) {
        seats.insert(key, spare)?;
    }
    Ok(())
}

fn seats_from(alloc: Global, spares: &[Spare]) -> Result<Seats, AllocError>
    ensures { IfOk result (AreFirsts spares.now) }
{
    let mut seats = BTreeMap::new(alloc);
    for spare in spares {
        add_seat(&mut seats, *spare)?;
    }
    Ok(seats)
}

fn same_seat(spare: &Spare, found: Option<Spare>) -> bool
    ensures { result ≡ spec_same_seat spare.now found }
{
    match found {
        Some(first) => first.start == spare.start && first.blocks == spare.blocks,
        None => false,
    }
}

fn is_as_seat(seats: &Seats, spare: &Spare) -> bool
    ensures { result ≡ spec_is_as_seat seats.now spare.now }
{
    same_seat(spare, find_seat(seats, spare.slice))
}

fn are_as_seats(seats: &Seats, spares: &[Spare]) -> bool
    ensures { result ≡ list_all (spec_is_as_seat seats.now) spares.now }
{
    spares.iter().all(|spare| is_as_seat(seats, spare))
}

fn is_room_for(taken: &Spare, found: Option<Spare>) -> bool
    ensures { result ≡ spec_is_room_for taken.now found }
{
    match found {
        Some(first) => first.start == taken.start && taken.blocks <= first.blocks,
        None => false,
    }
}

fn is_in_use(state: SpareState) -> bool
    ensures { result ≡ spec_is_in_use state }
{
    matches!(state, SpareState::InUse)
}

fn is_seat(seats: &Seats, states: &States, taken: &Spare) -> bool
    ensures { result ≡ is_seat_in seats.now states.now taken.now }
{
    is_room_for(taken, find_seat(seats, taken.slice)) && is_in_use(state_in(states, taken.slice))
}

fn are_seats(seats: &Seats, states: &States, taken: &[Spare]) -> bool
    ensures { result ≡ list_all (is_seat_in seats.now states.now) taken.now }
{
    taken.iter().all(|one| is_seat(seats, states, one))
}

/// The numbers of the slices of spares.
pub fn spare_keys(alloc: Global, taken: &[Spare]) -> Result<Vec<u32>, AllocError>
    ensures { IfOk result (λ keys. keys.items ≡ map spare_key taken.now) }
{
    let mut keys = Vec::with_capacity(alloc, taken.len())?;
    for one in taken {
        keys.push(slice_key(one.slice))?;
    }
    Ok(keys)
}

/// Whether each spare begins where the first one on its slice does and has as many blocks, and components lie on spares of
/// pools that are In use, each on its own. The work is linear, with look-ups of slices.
pub(crate) fn are_seated(alloc: Global, table: &Table) -> Result<bool, AllocError>
    ensures { IfOk result (λ yes. IsTrue yes ↔ ((are_spares table.now.plan ≡ true) × AreSeats table.now)) }
{
    let spares = all_spares(alloc, table.plan.pools.as_slice())?;
    let seats = seats_from(alloc, spares.as_slice())?;
    let taken = seats_taken(alloc, table)?;
    if !are_as_seats(&seats, spares.as_slice()) {
        return Ok(false);
    }
    if !are_seats(&seats, &table.status.spares, taken.as_slice()) {
        return Ok(false);
    }
    let keys = spare_keys(alloc, taken.as_slice())?;
    let set = set_of(alloc, keys.as_slice())?;
    Ok(set.is_some())
}
