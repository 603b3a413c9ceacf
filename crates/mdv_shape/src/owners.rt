//! By what each volume is used.
ghost use Rattle.std.specs.Prelude.{◌≡◌, ◌++◌, ◌↔◌, nat_eq, List, IsTrue, IfOk, OnOk, map};
ghost use Rattle.std.specs.BTreeSet.{contains};
ghost use Rattle.std.specs.List.{flat_map, list_any};
ghost use Rattle.std.specs.Ordering.{nat_cmp};
ghost use Rattle.mdv_shape.specs.Below.{volume_key};
ghost use Rattle.mdv_shape.specs.Owners.{kind_taken, kind_carried, taken_by, carried_by, taken as spec_taken, carrying as spec_carrying, HaveOwners};

use crate::distinct::set_of;
use mdv_base::VolId;
use mdv_plan::{Plan, Volume, VolumeKind, add_named};
use std::alloc::{AllocError, Global};
use std::collections::BTreeSet;

fn add_taken(list: &mut Vec<VolId>, kind: &VolumeKind) -> Result<(), AllocError>
    ensures { OnOk result (list.new.items ≡ list.old.items ++ kind_taken kind.now) }
{
    match kind {
        VolumeKind::Soft(_) => Ok(()),
        _ => add_named(list, kind),
    }
}

fn add_carried(list: &mut Vec<VolId>, kind: &VolumeKind) -> Result<(), AllocError>
    ensures { OnOk result (list.new.items ≡ list.old.items ++ kind_carried kind.now) }
{
    match kind {
        VolumeKind::Soft(_) => add_named(list, kind),
        _ => Ok(()),
    }
}

fn numbers_of(alloc: Global, volumes: &[VolId]) -> Result<Vec<u32>, AllocError>
    ensures { IfOk result (λ numbers. numbers.items ≡ map volume_key volumes.now) }
{
    let mut numbers = Vec::with_capacity(alloc, volumes.len())?;
    for volume in volumes {
        numbers.push(u32::from(volume.0))?;
    }
    Ok(numbers)
}

fn all_taken(alloc: Global, volumes: &[Volume]) -> Result<Vec<VolId>, AllocError>
    ensures { IfOk result (λ list. list.items ≡ flat_map taken_by volumes.now) }
{
    let mut list = Vec::new(alloc);
    for volume in volumes {
        add_taken(&mut list, &volume.kind)?;
    }
    Ok(list)
}

fn all_carried(alloc: Global, volumes: &[Volume]) -> Result<Vec<VolId>, AllocError>
    ensures { IfOk result (λ list. list.items ≡ flat_map carried_by volumes.now) }
{
    let mut list = Vec::new(alloc);
    for volume in volumes {
        add_carried(&mut list, &volume.kind)?;
    }
    Ok(list)
}

// The volumes that mirrors, stripes and RAID-5 volumes name.
fn taken(alloc: Global, plan: &Plan) -> Result<Vec<u32>, AllocError>
    ensures { IfOk result (λ numbers. numbers.items ≡ spec_taken plan.now) }
{
    let list = all_taken(alloc, plan.volumes.as_slice())?;
    numbers_of(alloc, list.as_slice())
}

// The volumes on which soft partitions lie.
fn carrying(alloc: Global, plan: &Plan) -> Result<Vec<u32>, AllocError>
    ensures { IfOk result (λ numbers. numbers.items ≡ spec_carrying plan.now) }
{
    let list = all_carried(alloc, plan.volumes.as_slice())?;
    numbers_of(alloc, list.as_slice())
}

fn has_one(set: &BTreeSet<u32>, numbers: &[u32]) -> bool
    ensures { result ≡ list_any (contains nat_cmp set.now) numbers.now }
{
    numbers.iter().any(|number| set.contains(number))
}

/// Whether each volume is used by one mirror, stripe or RAID-5 volume, by soft partitions, or by nothing.
pub(crate) fn have_owners(alloc: Global, plan: &Plan) -> Result<bool, AllocError>
    ensures { IfOk result (λ yes. IsTrue yes ↔ HaveOwners plan.now) }
{
    let taken = taken(alloc, plan)?;
    let carrying = carrying(alloc, plan)?;
    match set_of(alloc, taken.as_slice())? {
        Some(set) => Ok(!has_one(&set, carrying.as_slice())),
        None => Ok(false),
    }
}
