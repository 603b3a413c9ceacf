//! When a table is written, when a boot's claims suffice, and when what was read suffices.

ghost use Rattle.std.specs.Prelude.{◌≡◌, ◌&&◌, not};
ghost use Rattle.std.specs.List.{list_any};
ghost use Rattle.mdv_votes.specs.Spots.{is_in as spec_is_in, is_none as spec_is_none, is_half as spec_is_half, is_majority as spec_is_majority};
ghost use Rattle.mdv_votes.specs.Quorum.{is_written as spec_is_written, is_written_list as spec_is_written_list, is_claimed as spec_is_claimed, is_claimed_list as spec_is_claimed_list, is_read as spec_is_read, is_read_list as spec_is_read_list};
ghost use Rattle.mdv_votes.specs.Family.{knows_above as spec_knows_above};

use crate::family::{mark_at, mark_below};
use crate::places::place_at;
use crate::spots::{is_half, is_in, is_majority};
use crate::{Spot, SpotState, Version};

fn is_written_list(by_majority: bool, mediators: &[Spot], took: &[Spot], list: &[Spot]) -> bool
    ensures { result ≡ spec_is_written_list by_majority mediators.now (spec_is_in took.now) list.now }
{
    is_majority(took, list)
        || (!by_majority
            && is_half(took, list)
            && (mediators.is_empty() || is_majority(took, mediators)))
}

/// Whether the places and mediators that took a table are a write quorum of it.
pub fn is_written(table: &Version, took: &[Spot]) -> bool
    ensures { result ≡ spec_is_written table.now (spec_is_in took.now) }
{
    let mediators = table.lists.mediators.as_slice();
    let first = is_written_list(
        table.by_majority,
        mediators,
        took,
        table.lists.first.as_slice(),
    );
    let second = match &table.lists.second {
        Some(list) => is_written_list(table.by_majority, mediators, took, list.as_slice()),
        None => true,
    };
    first && second
}

fn is_claimed_list(set: bool, mediators: &[Spot], claimed: &[Spot], list: &[Spot]) -> bool
    ensures { result ≡ spec_is_claimed_list set mediators.now (spec_is_in claimed.now) list.now }
{
    let backed = if mediators.is_empty() {
        !set
    } else {
        is_majority(claimed, mediators)
    };
    is_majority(claimed, list) || (is_half(claimed, list) && backed)
}

/// Whether the claims of a boot that adopts this table suffice.
pub fn is_claimed(set: bool, table: &Version, claimed: &[Spot]) -> bool
    ensures { result ≡ spec_is_claimed set table.now (spec_is_in claimed.now) }
{
    let mediators = table.lists.mediators.as_slice();
    let first = is_claimed_list(set, mediators, claimed, table.lists.first.as_slice());
    let second = match &table.lists.second {
        Some(list) => is_claimed_list(set, mediators, claimed, list.as_slice()),
        None => true,
    };
    first && second
}

/// Whether a place or mediator knows a greater mark than that of this table.
fn knows_above(family: &[Version], places: &[SpotState], table: &Version, p: Spot) -> bool
    ensures { result ≡ spec_knows_above family.now places.now table.now p }
{
    match place_at(places, p).newest {
        Some(number) => mark_below(table.mark, mark_at(family, number)),
        None => false,
    }
}

/// Whether a mediator that was read knows a greater mark than that of this table.
fn is_denied(family: &[Version], places: &[SpotState], table: &Version, read: &[Spot]) -> bool
    ensures { result ≡ list_any (λ m. spec_is_in read.now m && spec_knows_above family.now places.now table.now m) table.now.lists.mediators }
{
    let mediators = table.lists.mediators.as_slice();
    mediators.iter().any(|m| is_in(read, *m) && knows_above(family, places, table, *m))
}

/// Whether exactly half suffices, by the mediators that were read.
fn is_mediated(denied: bool, mediators: &[Spot], read: &[Spot], list: &[Spot]) -> bool
    ensures { result ≡ ((not (spec_is_none mediators.now) && spec_is_half (spec_is_in read.now) list.now) && (spec_is_majority (spec_is_in read.now) mediators.now && not denied)) }
{
    (!mediators.is_empty() && is_half(read, list)) && (is_majority(read, mediators) && !denied)
}

fn is_read_list(
    family: &[Version],
    places: &[SpotState],
    table: &Version,
    read: &[Spot],
    list: &[Spot],
) -> bool
    ensures { result ≡ spec_is_read_list table.now.lists.mediators (spec_is_in read.now) (spec_knows_above family.now places.now table.now) list.now }
{
    let denied = is_denied(family, places, table, read);
    let mediated = is_mediated(denied, table.lists.mediators.as_slice(), read, list);
    is_majority(read, list) || mediated
}

/// Whether what was read suffices to adopt this table.
pub fn is_read(family: &[Version], places: &[SpotState], table: &Version, read: &[Spot]) -> bool
    ensures { result ≡ spec_is_read table.now (spec_is_in read.now) (spec_knows_above family.now places.now table.now) }
{
    let first = is_read_list(family, places, table, read, table.lists.first.as_slice());
    let second = match &table.lists.second {
        Some(list) => is_read_list(family, places, table, read, list.as_slice()),
        None => true,
    };
    first && second
}
