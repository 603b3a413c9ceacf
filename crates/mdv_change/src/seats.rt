//! Components that lie on spares which go, of volumes that stay.
ghost use Rattle.std.specs.Prelude.{◌≡◌, IfOk};
ghost use Rattle.std.specs.List.{list_any};
ghost use Rattle.mdv_change.specs.Clear.{is_left_on as spec_is_left_on};
ghost use Rattle.mdv_change.specs.Seats.{AreKeys, is_left_by, lies_by};

use crate::clearing::{available, parts_of};
use mdv_base::VolId;
use mdv_keys::{VolumeMarks, volumes_marked};
use mdv_plan::{Keyed, PartStatus, Status, VolumeStatus};
use std::alloc::{AllocError, Global};
use std::collections::BTreeSet;

fn set_of(alloc: Global, keys: &[u32]) -> Result<BTreeSet<u32>, AllocError>
    ensures { IfOk result (λ set. AreKeys set keys.now) }
{
    let mut set = BTreeSet::new(alloc);
    for key in keys {
        let _ = set.insert(*key)?;
    }
    Ok(set)
}

fn lies_on(spares: &BTreeSet<u32>, part: &PartStatus) -> bool
    ensures { result ≡ lies_by spares.now part.now }
{
    match part.spare {
        Some(spare) => spares.contains(&available(spare.slice).key()),
        None => false,
    }
}

fn have_one_on(spares: &BTreeSet<u32>, parts: &[PartStatus]) -> bool
    ensures { result ≡ list_any (lies_by spares.now) parts.now }
{
    parts.iter().any(|part| lies_on(spares, part))
}

fn is_left_on(named: &VolumeMarks, spares: &BTreeSet<u32>, state: &VolumeStatus) -> bool
    ensures { result ≡ is_left_by named.now spares.now state.now }
{
    !named.has(state.number.0) && have_one_on(spares, parts_of(&state.kind))
}

fn has_left_by(named: &VolumeMarks, spares: &BTreeSet<u32>, states: &[VolumeStatus]) -> bool
    ensures { result ≡ list_any (is_left_by named.now spares.now) states.now }
{
    states.iter().any(|state| is_left_on(named, spares, state))
}

/// Whether a component of a volume that stays lies on a spare of one of these numbers. Each component is looked up once, and none where no spare goes.
pub(crate) fn has_left_on(
    alloc: Global,
    status: &Status,
    volumes: &[VolId],
    lost: &[u32],
) -> Result<bool, AllocError>
    ensures { IfOk result (λ has. has ≡ list_any (spec_is_left_on volumes.now lost.now) status.now.volumes) }
{
    if lost.is_empty() {
        return Ok(false);
    }
    let named = volumes_marked(alloc, volumes)?;
    let spares = set_of(alloc, lost)?;
    let states = status.volumes.as_slice();
    Ok(has_left_by(&named, &spares, states))
}
