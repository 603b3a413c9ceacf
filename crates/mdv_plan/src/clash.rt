//! Which new uses of a slice clash with those that there are.
ghost use Rattle.std.specs.Prelude.{◌≡◌, ◌≤◌, ◌+◌, ◌^◌, ◌↔◌, not, Some, IfSome, IsTrue};
ghost use Rattle.mdv_plan.specs.Slices.{IsSound, IsSoundSlice, slice_at as spec_slice_at, share_a_block as spec_share_a_block, overlap as spec_overlap};
ghost use Rattle.mdv_plan.specs.Slices.{can_share as spec_can_share, clashes_with as spec_clashes_with, clashes as spec_clashes};
ghost use Rattle.mdv_plan.specs.Slices.{IsDb, meets_db as spec_meets_db, overlap_at};
ghost use Rattle.mdv_plan.specs.Slices.{same_drive as spec_same_drive, beside as spec_beside, AreNeighbours};

use crate::uses::{SliceUse, User, Uses};
use mdv_base::{DriveName, SliceName};
use mdv_name::{Geometry, SliceAt};

// A drive has at most so many slices, numbered from 0 on.
const SLICES: usize = 8;

/// A use of a slice that is asked for.
#[derive(Clone, Copy, Debug, PartialEq, Eq)]
pub enum Asked {
    /// Replicas that end before this block of the slice.
    ReplicasTo(u64),
    OneComponent,
    /// Extents of a soft partition.
    Extents,
    /// A spare of a pool that doesn't have the slice yet.
    OneSpare,
}

impl Uses {
    /// Whether one of the uses stands in the way of the one that is asked for. The work is linear in the
    /// number of uses, none of which is looked up in the table of drives.
    pub fn clash(&self, geometry: &Geometry, asked: Asked, slice: SliceName) -> bool
        requires { IsSound geometry.now }
        ensures { result ≡ spec_clashes geometry.now asked slice self.now }
    {
        let marks = neighbours_of(geometry, slice);
        let uses = self.as_slice();
        uses.iter()
            .any(|one| clashes_with(geometry, &marks, asked, slice, one))
    }
}

/// Whether another slice that overlaps this one is set aside for replicas: then it takes none of these
/// uses. Only the eight slices of its drive are looked up.
pub fn meets_db(geometry: &Geometry, slice: SliceName) -> bool
    requires { IsSound geometry.now }
    ensures { result ≡ spec_meets_db geometry.now slice }
{
    let marks = neighbours_of(geometry, slice);
    meets_db_beside(geometry, &marks, slice)
}

/// The same of a slice whose neighbours are these: only they are looked up.
pub fn meets_db_beside(geometry: &Geometry, marks: &[bool], slice: SliceName) -> bool
    requires sound { IsSound geometry.now }
    requires marks { AreNeighbours geometry.now slice marks.now }
    ensures { result ≡ spec_meets_db geometry.now slice }
{
    for number in 0..8u8 {
        let is_other = marks[usize::from(number)] && number != slice.slice;
        if is_other && is_db(geometry, beside(slice, number)) {
            return true;
        }
    }
    false
}

// Whether the slice is there, and set aside for replicas.
fn is_db(geometry: &Geometry, slice: SliceName) -> bool
    requires { IsSound geometry.now }
    ensures { IsTrue result ↔ IsDb geometry.now slice }
{
    match geometry.slices.find(slice) {
        Some(at) => at.db,
        None => false,
    }
}

// The slice of this number on the same drive.
fn beside(slice: SliceName, number: u8) -> SliceName
    ensures { result ≡ spec_beside slice number }
{
    SliceName {
        drive: slice.drive,
        slice: number,
    }
}

/// Which slices of its drive share a block with the slice, by their numbers. No slice of another drive does.
pub fn neighbours_of(geometry: &Geometry, slice: SliceName) -> [bool; SLICES]
    requires { IsSound geometry.now }
    ensures { AreNeighbours geometry.now slice result }
{
    let mut marks = [false; SLICES];
    let Some(at) = slice_at(geometry, slice) else {
        return marks;
    };
    for number in 0..8u8 {
        marks[usize::from(number)] = shares_with(geometry, beside(slice, number), at);
    }
    marks
}

// Whether the slice shares a block with the one that lies there.
fn shares_with(geometry: &Geometry, name: SliceName, at: SliceAt) -> bool
    requires sound { IsSound geometry.now }
    requires within { at.start + at.blocks ≤ 2 ^ 40 }
    ensures { result ≡ overlap_at (spec_slice_at geometry.now.slices name) (Some at) }
{
    match slice_at(geometry, name) {
        Some(other) => share_a_block(other, at),
        None => false,
    }
}

/// Whether the other slice shares a block with the slice, whose neighbours are these. Nothing is looked
/// up.
pub fn is_neighbour(
    geometry: &Geometry,
    marks: &[bool],
    slice: SliceName,
    other: &SliceName,
) -> bool
    requires sound { IsSound geometry.now }
    requires marks { AreNeighbours geometry.now slice marks.now }
    ensures { result ≡ spec_overlap geometry.now other.now slice }
{
    if !same_drive(&other.drive, &slice.drive) {
        return false;
    }
    match marks.get(usize::from(other.slice)) {
        Some(mark) => *mark,
        None => false,
    }
}

fn clashes_with(
    geometry: &Geometry,
    marks: &[bool],
    asked: Asked,
    slice: SliceName,
    one: &SliceUse,
) -> bool
    requires sound { IsSound geometry.now }
    requires marks { AreNeighbours geometry.now slice marks.now }
    ensures { result ≡ spec_clashes_with geometry.now asked slice one.now }
{
    if !same_drive(&one.slice.drive, &slice.drive) {
        return false;
    }
    if one.slice.slice == slice.slice {
        return !can_share(asked, one.by, one.start);
    }
    is_neighbour(geometry, marks, slice, &one.slice)
}

fn can_share(asked: Asked, by: User, start: u64) -> bool
    ensures { result ≡ spec_can_share asked by start }
{
    match (asked, by) {
        (Asked::ReplicasTo(_), User::Replica) => false,
        (Asked::ReplicasTo(end), _) => end <= start,
        (_, User::Replica) => true,
        (Asked::Extents, User::Extent(_)) | (Asked::OneSpare, User::Spare(_)) => true,
        _ => false,
    }
}

// The target is looked at first: in it most drives differ.
fn same_drive(a: &DriveName, b: &DriveName) -> bool
    ensures { result ≡ spec_same_drive a.now b.now }
{
    (a.target == b.target && a.disk == b.disk) && a.controller == b.controller
}

/// Whether the slices share a block. A slice overlaps itself, and nothing where there is no slice of
/// the name. Only slices of one drive are looked up.
pub fn overlap(geometry: &Geometry, m: SliceName, n: SliceName) -> bool
    requires { IsSound geometry.now }
    ensures { result ≡ spec_overlap geometry.now m n }
{
    if !same_drive(&m.drive, &n.drive) {
        return false;
    }
    match (slice_at(geometry, m), slice_at(geometry, n)) {
        (Some(a), Some(b)) => share_a_block(a, b),
        _ => false,
    }
}

/// Where the slice lies, found in logarithmic time.
pub fn slice_at(geometry: &Geometry, name: SliceName) -> Option<SliceAt>
    requires { IsSound geometry.now }
    ensures value { result ≡ spec_slice_at geometry.now.slices name }
    ensures sound { IfSome result (IsSoundSlice name) }
{
    geometry.slices.find(name)
}

fn share_a_block(a: SliceAt, b: SliceAt) -> bool
    requires first { a.start + a.blocks ≤ 2 ^ 40 }
    requires second { b.start + b.blocks ≤ 2 ^ 40 }
    ensures { result ≡ spec_share_a_block a b }
{
    a.drive.0 == b.drive.0 && a.start < b.start + b.blocks && b.start < a.start + a.blocks
}
