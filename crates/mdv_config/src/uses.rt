// Which slices are in use: eight marks for each of 256 drives. Whether a slice overlaps one in use is
// decided by the marks of its own drive, so the check of a whole table is linear in its components.
ghost use Rattle.std.specs.Prelude.{◌≡◌, ◌<◌, ◌+◌, ◌*◌, ◌↔◌, ℕ, true, false, IsTrue, List, [], ◌∷◌, ◌++◌, slice_index_or, flat_map};
ghost use Rattle.mdv_base.specs.declared.drive.SliceName.{SliceName};
ghost use Rattle.mdv_name.specs.SliceIndex.{HasSlice};
ghost use Rattle.mdv_config.specs.Lists.{IsInUse, base_slices, kind_rows, kind_slices, part_slices, place_slices, row_slices};
ghost use Rattle.mdv_config.specs.Marks.{IsMarked, Takes, mark_place};
ghost use Rattle.mdv_config.specs.Slices.{IsSound, Overlap, OverlapsAt};

use mdv_base::{Place, SliceName};
use mdv_name::{Geometry, SliceAt};
use mdv_plan::{Base, Component, Row, VolumeKind};
use std::marker::Model;

// How many slices a drive has.
const DRIVE_SLICES: usize = 8;

// Eight for each drive that a table of drives may have.
const MARKS: usize = 2048;

#[derive(Drop)]
pub(crate) struct Uses {
    marks: [bool; MARKS],
}

impl Model for Uses {
    ghost use Rattle.std.specs.Prelude.{List, Bool};

    ghost Value = { List Bool };

    ghost view = { λ u. u.marks };
}

impl Uses {
    pub(crate) fn new() -> Uses
        ensures { (place : ℕ) → slice_index_or result place false ≡ false }
    {
        Uses {
            marks: [false; MARKS],
        }
    }

    pub(crate) fn mark_places(&mut self, geometry: &Geometry, places: &[Place])
        requires { IsSound geometry.now }
        ensures { (uses : List SliceName) → IsMarked geometry.now.slices self.old uses →
            IsMarked geometry.now.slices self.new (uses ++ place_slices places.now) }
    {
        for place in places {
            self.mark(geometry, place.slice);
        }
    }

    fn mark(&mut self, geometry: &Geometry, slice: SliceName)
        requires { IsSound geometry.now }
        ensures { (uses : List SliceName) → IsMarked geometry.now.slices self.old uses →
            IsMarked geometry.now.slices self.new (uses ++ slice ∷ []) }
    {
        if let Some(at) = geometry.slices.find(slice) {
            self.marks[mark_place(at, slice.slice)] = true;
        }
    }

    // Marks the slices of a volume of this kind. Whether none of them was in use, nor one that overlaps it.
    pub(crate) fn take_volume(&mut self, geometry: &Geometry, kind: &VolumeKind) -> bool
        requires { IsSound geometry.now }
        ensures { Takes geometry.now.slices (kind_slices kind.now) self.old result self.new }
    {
        self.take_rows(geometry, rows_of(kind))
    }

    // Marks those of the rows, up to the first that isn't free.
    fn take_rows(&mut self, geometry: &Geometry, rows: &[Row]) -> bool
        requires { IsSound geometry.now }
        ensures { Takes geometry.now.slices (flat_map row_slices rows.now) self.old result self.new }
    {
        for row in rows {
            let free = self.take_parts(geometry, row.components.as_slice());
            if !free {
                return false;
            }
        }
        true
    }

    fn take_parts(&mut self, geometry: &Geometry, components: &[Component]) -> bool
        requires { IsSound geometry.now }
        ensures { Takes geometry.now.slices (flat_map part_slices components.now) self.old result self.new }
    {
        for component in components {
            let free = self.take_base(geometry, component.on);
            if !free {
                return false;
            }
        }
        true
    }

    fn take_base(&mut self, geometry: &Geometry, base: Base) -> bool
        requires { IsSound geometry.now }
        ensures { Takes geometry.now.slices (base_slices base) self.old result self.new }
    {
        match base {
            Base::Slice(slice) => self.take(geometry, slice),
            Base::Volume(_) => true,
        }
    }

    fn take(&mut self, geometry: &Geometry, slice: SliceName) -> bool
        requires { IsSound geometry.now }
        ensures { Takes geometry.now.slices (slice ∷ []) self.old result self.new }
    {
        let used = self.has(geometry, slice);
        self.mark(geometry, slice);
        !used
    }

    // Whether the slice, or one that overlaps it, is in use.
    fn has(&self, geometry: &Geometry, slice: SliceName) -> bool
        requires { IsSound geometry.now }
        ensures { (uses : List SliceName) → IsMarked geometry.now.slices self.now uses →
            IsTrue result ↔ IsInUse geometry.now.slices uses slice }
    {
        match geometry.slices.find(slice) {
            Some(at) => self.overlap(geometry, slice, at),
            None => false,
        }
    }

    // Whether a slice of its drive that is in use overlaps the slice, which lies there.
    fn overlap(&self, geometry: &Geometry, name: SliceName, at: SliceAt) -> bool
        requires sound { IsSound geometry.now }
        requires there { HasSlice geometry.now.slices name at }
        ensures { (uses : List SliceName) → IsMarked geometry.now.slices self.now uses →
            IsTrue result ↔ IsInUse geometry.now.slices uses name }
    {
        for slice in 0..DRIVE_SLICES as u8 {
            let other = SliceName {
                drive: name.drive,
                slice,
            };
            if self.marks[mark_place(at, slice)] && overlaps(geometry, other, at) {
                return true;
            }
        }
        false
    }
}

fn rows_of(kind: &VolumeKind) -> &[Row]
    ensures { result.now ≡ kind_rows kind.now }
{
    match kind {
        VolumeKind::Stripe(stripe) => stripe.rows.as_slice(),
        _ => &[],
    }
}

// Where the mark of a slice of the drive is.
fn mark_place(at: SliceAt, slice: u8) -> usize
    ensures { result ≡ mark_place at slice }
{
    at.drive.0 as usize * DRIVE_SLICES + usize::from(slice)
}

// Whether the slice is in the table of drives and overlaps the other.
fn overlaps(geometry: &Geometry, slice: SliceName, other: SliceAt) -> bool
    requires { IsSound geometry.now }
    ensures { IsTrue result ↔ OverlapsAt geometry.now.slices slice other }
{
    match geometry.slices.find(slice) {
        Some(at) => share_a_block(at, other),
        None => false,
    }
}

fn share_a_block(a: SliceAt, b: SliceAt) -> bool
    ensures { IsTrue result ↔ Overlap a b }
{
    let (first, second) = if a.start <= b.start { (a, b) } else { (b, a) };
    a.drive == b.drive && second.blocks > 0 && second.start - first.start < first.blocks
}
