//! Numbers that are marked.
ghost use Rattle.std.specs.Prelude.{◌≡◌, ◌++◌, List, false, true, length, replicate, slice_index_or, slice_set, IfOk};
ghost use Rattle.mdv_keys.specs.Below.{VolId};
ghost use Rattle.mdv_keys.specs.Marks.{AreMarks, AreMarked, pool_key};

use mdv_base::{PoolId, VolId};
use mdv_plan::{MAX_POOLS, MAX_VOLUMES};
use std::alloc::{AllocError, Global};
use std::marker::Model;

/// A mark for each number below `LIMIT`.
#[derive(Drop)]
pub struct Marks<const LIMIT: usize> {
    marks: Vec<bool>,
}

/// Which volumes are marked.
pub type VolumeMarks = Marks<MAX_VOLUMES>;

/// Which pools are marked.
pub type PoolMarks = Marks<MAX_POOLS>;

impl<const LIMIT: usize> Model for Marks<LIMIT> {
    ghost use Rattle.std.specs.Prelude.{◌≡◌, Bool, List, length};

    ghost Value = { List Bool };

    ghost view = { λ m. m.marks.items };

    ghost invariant = { λ m. length m.marks.items ≡ LIMIT };
}

impl<const LIMIT: usize> Marks<LIMIT> {
    /// No number is marked.
    pub fn new(alloc: Global) -> Result<Self, AllocError>
        ensures { IfOk result (λ m. m ≡ replicate LIMIT false) }
    {
        let marks = vec![in alloc; false; LIMIT]?;
        Ok(Marks { marks })
    }

    pub fn as_slice(&self) -> &[bool]
        ensures value { result.now ≡ self.now }
        ensures size { length self.now ≡ LIMIT }
    {
        self.marks.as_slice()
    }

    /// Whether it is marked. A number from `LIMIT` on never is.
    pub fn has(&self, number: u16) -> bool
        ensures { result ≡ slice_index_or self.now number false }
    {
        match self.marks.get(usize::from(number)) {
            Some(mark) => *mark,
            None => false,
        }
    }

    /// Marks the number, where it is below `LIMIT`.
    pub fn add(&mut self, number: u16)
        ensures { self.new ≡ slice_set self.old number true }
    {
        let place = usize::from(number);
        if place < self.marks.len() {
            self.marks[place] = true;
        }
    }
}

/// Marks these volumes too.
pub(crate) fn mark_volumes(marks: &mut VolumeMarks, volumes: &[VolId])
    ensures { (vs : List VolId) → AreMarked marks.old vs → AreMarked marks.new (vs ++ volumes.now) }
{
    for volume in volumes {
        marks.add(volume.0);
    }
}

/// Marks of these volumes.
pub fn volumes_marked(alloc: Global, volumes: &[VolId]) -> Result<VolumeMarks, AllocError>
    ensures { IfOk result (λ marks. AreMarked marks volumes.now) }
{
    let mut marks = Marks::new(alloc)?;
    mark_volumes(&mut marks, volumes);
    Ok(marks)
}

/// Marks of these pools.
pub fn pools_marked(alloc: Global, pools: &[PoolId]) -> Result<PoolMarks, AllocError>
    ensures { IfOk result (λ marks. AreMarks pool_key 1000 marks pools.now) }
{
    let mut marks = Marks::new(alloc)?;
    for pool in pools {
        marks.add(pool.0);
    }
    Ok(marks)
}
