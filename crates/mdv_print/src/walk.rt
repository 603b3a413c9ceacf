//! The lines of volumes in order.
ghost use Rattle.std.specs.Prelude.{◌≡◌, ◌++◌, ℕ, List, reverse, IfOk, OnOk};
ghost use Rattle.std.specs.List.{flat_map};
ghost use Rattle.mdv_print.specs.Below.{VolId};
ghost use Rattle.mdv_keys.specs.Marks.{AreMarked, below_it};
ghost use Rattle.mdv_print.specs.Marks.{IsNext, unmarked_of};
ghost use Rattle.std.specs.Option.{option_copied};
ghost use Rattle.mdv_plan.specs.Named.{kind_below};
ghost use Rattle.mdv_print.specs.Order.{next_of, untold, uppermost as spec_uppermost};
ghost use Rattle.mdv_print.specs.Text.{volumes_text};

use crate::line::add_volume;
use mdv_base::{Name, VolId};
use mdv_keys::{Marks, VolumeMarks, mark_named};
use mdv_plan::{Plan, Volume, VolumeKind, add_named};
use std::alloc::{AllocError, Global};

// The volumes that a volume of this kind names.
fn below(alloc: Global, kind: &VolumeKind) -> Result<Vec<VolId>, AllocError>
    ensures { IfOk result (λ list. list.items ≡ kind_below kind.now) }
{
    let mut list = Vec::new(alloc);
    add_named(&mut list, kind)?;
    Ok(list)
}

// Adds the volumes, the last first.
fn add_reversed(list: &mut Vec<VolId>, mut volumes: Vec<VolId>) -> Result<(), AllocError>
    ensures { OnOk result (list.new.items ≡ list.old.items ++ reverse volumes.items) }
{
    while let Some(volume) = volumes.pop() {
        list.push(volume)?;
    }
    Ok(())
}

// The volume of this number, where it is there and isn't told yet.
fn find_untold<'p>(plan: &'p Plan, told: &VolumeMarks, volume: VolId) -> Option<&'p Volume>
    ensures { (vs : List VolId) → AreMarked told.now vs → option_copied result ≡ untold plan.now vs volume }
{
    let _keys = plan.volumes.as_slice();
    let found = plan.volumes.find(u32::from(volume.0))?;
    if told.has(volume.0) {
        return None;
    }
    Some(found)
}

// Takes the volumes from the end of the list, up to the first that is there and isn't told yet.
fn take_next<'p>(plan: &'p Plan, told: &VolumeMarks, left: &mut Vec<VolId>) -> Option<&'p Volume>
    ensures { (vs : List VolId) → AreMarked told.now vs →
        IsNext (next_of plan.now vs (reverse left.old.items)) (option_copied result) (reverse left.new.items) }
{
    while let Some(volume) = left.pop() {
        if let Some(found) = find_untold(plan, told, volume) {
            return Some(found);
        }
    }
    None
}

// Appends the lines of these volumes, each with those of all volumes below it behind it.
pub(crate) fn add_volumes(
    text: &mut Vec<u8>,
    set: &Option<Name>,
    plan: &Plan,
    volumes: &[VolId],
) -> Result<(), AllocError>
    ensures { OnOk result (text.new.items ≡ text.old.items ++ volumes_text set.now plan.now volumes.now) }
{
    let alloc = *text.allocator();
    let mut told = Marks::new(alloc)?;
    let mut left = Vec::new(alloc);
    add_reversed(&mut left, Vec::from_slice(alloc, volumes)?)?;
    let count = plan.volumes.as_slice().len();
    for _ in 0..count {
        let Some(volume) = take_next(plan, &told, &mut left) else {
            return Ok(());
        };
        add_volume(text, set, volume)?;
        told.add(volume.number.0);
        add_reversed(&mut left, below(alloc, &volume.kind)?)?;
    }
    Ok(())
}

// The volumes that volumes name.
fn used(alloc: Global, volumes: &[Volume]) -> Result<VolumeMarks, AllocError>
    ensures { IfOk result (λ marks. AreMarked marks (flat_map below_it volumes.now)) }
{
    let mut marks = Marks::new(alloc)?;
    for volume in volumes {
        mark_named(alloc, &mut marks, &volume.kind)?;
    }
    Ok(marks)
}

// The volumes that aren't marked.
fn unmarked(
    alloc: Global,
    volumes: &[Volume],
    marks: &VolumeMarks,
) -> Result<Vec<VolId>, AllocError>
    ensures { IfOk result (λ list. list.items ≡ unmarked_of marks.now volumes.now) }
{
    let mut list = Vec::new(alloc);
    for volume in volumes {
        if !marks.has(volume.number.0) {
            list.push(volume.number)?;
        }
    }
    Ok(list)
}

// The volumes that no volume uses.
pub(crate) fn uppermost(alloc: Global, plan: &Plan) -> Result<Vec<VolId>, AllocError>
    ensures { IfOk result (λ list. list.items ≡ spec_uppermost plan.now) }
{
    let volumes = plan.volumes.as_slice();
    let used = used(alloc, volumes)?;
    unmarked(alloc, volumes, &used)
}
