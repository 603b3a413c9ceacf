//! How many blocks from one on have a usable copy in a submirror, or lie beside one of its components.
ghost use Rattle.std.specs.Prelude.{◌≡◌, ◌<◌, ◌+◌, ◌≤◌, ℕ, false, not, true, drop, length};
ghost use Rattle.std.specs.List.{slice_get};
ghost use Rattle.mdv_copies.specs.Copies.{IsRun, is_usable as spec_is_usable, is_usable_part as spec_is_usable_part, unit_blocks as spec_unit_blocks, width as spec_width};
ghost use Rattle.mdv_copies.specs.Copies.{place_in as spec_place_in, is_usable_in_row as spec_is_usable_in_row, is_usable_in as spec_is_usable_in};
ghost use Rattle.mdv_copies.specs.Copies.{has_copy as spec_has_copy, has_part_on as spec_has_part_on, is_on as spec_is_on, is_part_on as spec_is_part_on, lies_in as spec_lies_in, lies_in_row as spec_lies_in_row};
ghost use Rattle.mdv_copies.specs.Below.{row_blocks as spec_row_blocks};

use crate::states::parts_of;
use mdv_base::VolId;
use mdv_plan::{Base, Component, PartStatus, Row, State, Table, same_base};
use mdv_rows::rows_of;
use mdv_submirrors::row_blocks;

fn is_usable(state: State) -> bool
    ensures { result ≡ spec_is_usable state }
{
    match state {
        State::Okay | State::LastErred => true,
        _ => false,
    }
}

fn is_usable_part(parts: &[PartStatus], place: usize) -> bool
    ensures { result ≡ spec_is_usable_part (slice_get parts.now place) }
{
    match parts.get(place) {
        Some(part) => is_usable(part.state),
        None => false,
    }
}

fn unit_blocks(row: &Row) -> u64
    ensures { result ≡ spec_unit_blocks row.now }
{
    u64::from(row.interlace).max(1)
}

fn width(row: &Row) -> usize
    ensures { result ≡ spec_width row.now }
{
    row.components.as_slice().len().max(1)
}

fn place_in(row: &Row, block: u64) -> usize
    ensures { result ≡ spec_place_in row.now block }
{
    let unit = block / unit_blocks(row);
    let width = width(row) as u64;
    (unit % width) as usize
}

fn is_usable_in_row(row: &Row, parts: &[PartStatus], block: u64) -> bool
    ensures { result ≡ spec_is_usable_in_row row.now parts.now block }
{
    is_usable_part(parts, place_in(row, block))
}

// Whether all components of the stripe are usable.
fn is_whole(row: &Row, parts: &[PartStatus]) -> bool
    ensures { (block : ℕ) → result ≡ true → spec_is_usable_in_row row.now parts.now block ≡ true }
{
    for place in 0..width(row) {
        if !is_usable_part(parts, place) {
            return false;
        }
    }
    true
}

// How many blocks of the stripe from this one on are usable, looking no further than its unit where not all
// components are.
fn row_run(row: &Row, parts: &[PartStatus], block: u64) -> u64
    requires { block < spec_row_blocks row.now }
    ensures run { IsRun (spec_is_usable_in_row row.now parts.now) block result }
    ensures within { block + result ≤ spec_row_blocks row.now }
{
    let left = row_blocks(row) - block;
    if is_whole(row, parts) {
        return left;
    }
    if !is_usable_in_row(row, parts, block) {
        return 0;
    }
    let unit = unit_blocks(row);
    left.min(unit - block % unit)
}

fn parts_behind(parts: &[PartStatus], count: usize) -> &[PartStatus]
    ensures { result.now ≡ drop count parts.now }
{
    if count >= parts.len() {
        return &[];
    }
    &parts[count..]
}

fn run_in(rows: &[Row], parts: &[PartStatus], block: u64) -> u64
    ensures { IsRun (spec_is_usable_in rows.now parts.now) block result }
{
    let mut rest = rows;
    let mut states = parts;
    let mut left = block;
    while let [row, behind @ ..] = rest {
        let blocks = row_blocks(row);
        if left < blocks {
            return row_run(row, states, left);
        }
        states = parts_behind(states, row.components.as_slice().len());
        left -= blocks;
        rest = behind;
    }
    0
}

/// How many blocks from this one on have a usable copy in the submirror: none only where this one hasn't.
pub(crate) fn run_of(table: &Table, volume: VolId, block: u64) -> u64
    ensures { IsRun (λ b. spec_has_copy table.now b volume) block result }
{
    let parts = parts_of(&table.status, volume);
    run_in(rows_of(&table.plan, volume), parts, block)
}

/// Whether the component has this base.
pub fn is_part_on(component: &Component, on: Base) -> bool
    ensures { result ≡ spec_is_part_on on component.now }
{
    same_base(component.on, on)
}

/// Whether the stripe has a component with this base.
pub fn has_part_on(row: &Row, on: Base) -> bool
    ensures { result ≡ spec_has_part_on on row.now }
{
    let components = row.components.as_slice();
    components.iter().any(|component| is_part_on(component, on))
}

fn is_on(components: &[Component], place: usize, on: Base) -> bool
    ensures { result ≡ spec_is_on on (slice_get components.now place) }
{
    match components.get(place) {
        Some(component) => is_part_on(component, on),
        None => false,
    }
}

fn lies_in_row(row: &Row, on: Base, block: u64) -> bool
    ensures { result ≡ spec_lies_in_row row.now on block }
{
    is_on(row.components.as_slice(), place_in(row, block), on)
}

// How many blocks of the stripe from this one on don't lie on the component that has this base, looking no
// further than its unit where the stripe has that component.
fn row_beside(row: &Row, on: Base, block: u64) -> u64
    requires { block < spec_row_blocks row.now }
    ensures run { IsRun (λ b. not (spec_lies_in_row row.now on b)) block result }
    ensures within { block + result ≤ spec_row_blocks row.now }
{
    let left = row_blocks(row) - block;
    if !has_part_on(row, on) {
        return left;
    }
    if lies_in_row(row, on, block) {
        return 0;
    }
    let unit = unit_blocks(row);
    left.min(unit - block % unit)
}

/// How many blocks from this one on don't lie on the component that has this base: none only where this one
/// does.
pub(crate) fn beside_in(rows: &[Row], on: Base, block: u64) -> u64
    ensures { IsRun (λ b. not (spec_lies_in rows.now on b)) block result }
{
    let mut rest = rows;
    let mut left = block;
    while let [row, behind @ ..] = rest {
        let blocks = row_blocks(row);
        if left < blocks {
            return row_beside(row, on, left);
        }
        left -= blocks;
        rest = behind;
    }
    u64::MAX
}
