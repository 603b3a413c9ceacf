//! Lists of places and seats, and how many of them are in a set.

ghost use Rattle.std.specs.Prelude.{◌≡◌, ◌<◌, ◌≤◌, ◌↔◌, ◌*◌, IsTrue, length, count_by};
ghost use Rattle.mdv_votes.specs.Spots.{same_spot as spec_same_spot, is_in as spec_is_in, same_kind as spec_same_kind, is_named as spec_is_named, is_majority as spec_is_majority, is_half as spec_is_half, same_spots as spec_same_spots};

use crate::{Spot, SpotLists};

/// Whether these are more than half of those listed.
pub fn more_than_half(taken: u32, listed: u32) -> bool
    ensures { IsTrue result ↔ (listed < 2 * taken) }
{
    u64::from(listed) < 2 * u64::from(taken)
}

/// Whether these are at least half of those listed.
pub fn at_least_half(taken: u32, listed: u32) -> bool
    ensures { IsTrue result ↔ (listed ≤ 2 * taken) }
{
    u64::from(listed) <= 2 * u64::from(taken)
}

/// A seat is never a place, also where both lie at one block.
pub fn same_spot(p: Spot, q: Spot) -> bool
    ensures { result ≡ spec_same_spot p q }
{
    p.drive.0 == q.drive.0 && p.first == q.first && same_kind(p.mediator, q.mediator)
}

fn same_kind(a: bool, b: bool) -> bool
    ensures { result ≡ spec_same_kind a b }
{
    if a { b } else { !b }
}

/// Whether the list has the place or seat.
pub fn is_in(list: &[Spot], p: Spot) -> bool
    ensures { result ≡ spec_is_in list.now p }
{
    list.iter().any(|q| same_spot(*q, p))
}

/// How many of the list are in the set.
fn counted(set: &[Spot], list: &[Spot]) -> usize
    ensures count { result ≡ count_by (spec_is_in set.now) list.now }
    ensures within { result ≤ length list.now }
{
    list.iter().filter(|p| is_in(set, **p)).count()
}

/// Whether more than half of the list is in the set.
pub(crate) fn is_majority(set: &[Spot], list: &[Spot]) -> bool
    ensures { result ≡ spec_is_majority (spec_is_in set.now) list.now }
{
    let taken = counted(set, list);
    list.len() - taken < taken
}

/// Whether at least half of the list is in the set.
pub(crate) fn is_half(set: &[Spot], list: &[Spot]) -> bool
    ensures { result ≡ spec_is_half (spec_is_in set.now) list.now }
{
    let taken = counted(set, list);
    list.len() - taken <= taken
}

/// Whether the lists are the same, in the same order.
pub fn same_spots(xs: &[Spot], ys: &[Spot]) -> bool
    ensures { result ≡ spec_same_spots xs.now ys.now }
{
    if xs.len() != ys.len() {
        return false;
    }
    for i in 0..xs.len() {
        if !same_spot(xs[i], ys[i]) {
            return false;
        }
    }
    true
}

/// Whether a table's lists name the place or seat.
pub fn is_named(lists: &SpotLists, p: Spot) -> bool
    ensures { result ≡ spec_is_named lists.now p }
{
    if p.mediator {
        return is_in(lists.mediators.as_slice(), p);
    }
    let second = match &lists.second {
        Some(list) => is_in(list.as_slice(), p),
        None => false,
    };
    is_in(lists.first.as_slice(), p) || second
}
