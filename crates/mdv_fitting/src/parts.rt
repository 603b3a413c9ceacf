//! Where components, extents and spares lie on slices.
ghost use Rattle.std.specs.Prelude.{◌≡◌};
ghost use Rattle.std.specs.List.{list_all};
ghost use Rattle.mdv_fitting.specs.Below.{IsSound};
ghost use Rattle.mdv_fitting.specs.Slices.{AreSlices};
ghost use Rattle.mdv_fitting.specs.Parts.{may_start as spec_may_start, may_start_at as spec_may_start_at, ends_at as spec_ends_at, lies as spec_lies};

use crate::slices::{Slices, slice_in};
use mdv_base::SliceName;
use mdv_components::first_block;
use mdv_name::{Geometry, SliceAt};
use mdv_plan::{Lists, SliceUse};

fn may_start(lists: &Lists, slice: SliceName, start: u64, at: SliceAt) -> bool
    ensures { result ≡ spec_may_start lists.now slice start at }
{
    if at.db {
        first_block(lists, slice, at) <= start
    } else {
        start == 0
    }
}

/// Whether a use of the slice other than by a replica may start at that block.
pub(crate) fn may_start_at(lists: &Lists, slice: SliceName, start: u64, at: Option<SliceAt>) -> bool
    ensures { result ≡ spec_may_start_at lists.now slice start at }
{
    match at {
        Some(at) => may_start(lists, slice, start, at),
        None => false,
    }
}

fn ends_at(one: &SliceUse, at: Option<SliceAt>) -> bool
    ensures { result ≡ spec_ends_at one.now at }
{
    let Some(at) = at else {
        return false;
    };
    one.start <= at.blocks
        && one.run.at <= at.blocks - one.start
        && one.run.blocks <= at.blocks - one.start - one.run.at
}

fn lies(geometry: &Geometry, slices: &Slices, lists: &Lists, one: &SliceUse) -> bool
    requires sound { IsSound geometry.now }
    requires slices { AreSlices geometry.now slices.now }
    ensures { result ≡ spec_lies geometry.now lists.now one.now }
{
    let at = slice_in(geometry, slices, one.slice);
    may_start_at(lists, one.slice, one.start, at) && ends_at(one, at)
}

/// Whether each use lies within a slice of the table of drives, behind its replicas.
pub(crate) fn all_lie(
    geometry: &Geometry,
    slices: &Slices,
    lists: &Lists,
    uses: &[SliceUse],
) -> bool
    requires sound { IsSound geometry.now }
    requires slices { AreSlices geometry.now slices.now }
    ensures { result ≡ list_all (spec_lies geometry.now lists.now) uses.now }
{
    uses.iter().all(|one| lies(geometry, slices, lists, one))
}
