//! Values by numbers, most of which are found at once.
ghost use Rattle.std.specs.Prelude.{◌≡◌, ℕ, None, IfOk, OnOk};
ghost use Rattle.mdv_fitting.specs.Held.{held, cell_at, is_free as spec_is_free, HasValue, PutsValue};

use std::alloc::{AllocError, Global};
use std::collections::BTreeMap;

// Numbers of slices of disks 0 of controllers 0 to 3 differ in what is left when they are divided by it.
const CELLS: u64 = 8191;

#[derive(Clone, Copy)]
pub(crate) struct Entry<V> {
    pub(crate) key: u64,
    pub(crate) value: V,
}

/// Values by numbers. A value stands in the cell of its number or, where that one has a value of another number, in a map.
/// So a look-up is logarithmic at most, whatever the numbers are.
#[derive(Drop)]
pub(crate) struct Held<V> {
    pub(crate) cells: Vec<Option<Entry<V>>>,
    pub(crate) rest: BTreeMap<u64, V>,
}

fn is_free<V: Copy>(cell: Option<Entry<V>>, key: u64) -> bool
    ensures { result ≡ spec_is_free cell key }
{
    match cell {
        Some(entry) => entry.key == key,
        None => true,
    }
}

impl<V: Copy + Drop> Held<V> {
    pub(crate) fn new(alloc: Global) -> Result<Self, AllocError>
        ensures { IfOk result (λ none. (k : ℕ) → held none k ≡ None) }
    {
        let mut cells = Vec::with_capacity(alloc, CELLS as usize)?;
        for _ in 0..CELLS {
            cells.push(None)?;
        }
        let rest = BTreeMap::new(alloc);
        Ok(Held { cells, rest })
    }

    // What stands in the cell of the number.
    fn cell(&self, key: u64) -> Option<Entry<V>>
        ensures { result ≡ cell_at self.now key }
    {
        match self.cells.get((key % CELLS) as usize) {
            Some(cell) => *cell,
            None => None,
        }
    }

    /// The value of the number.
    pub(crate) fn get(&self, key: u64) -> Option<V>
        ensures { result ≡ held self.now key }
    {
        if let Some(entry) = self.cell(key) {
            if entry.key == key {
                return Some(entry.value);
            }
        }
        match self.rest.get(&key) {
            Some(value) => Some(*value),
            None => None,
        }
    }

    /// Puts the value in for the one of its number, or adds it.
    pub(crate) fn put(&mut self, key: u64, value: V) -> Result<(), AllocError>
        ensures { OnOk result (PutsValue self.old key value self.new) }
    {
        let place = (key % CELLS) as usize;
        if place < self.cells.len() && is_free(self.cell(key), key) {
            self.cells[place] = Some(Entry { key, value });
            return Ok(());
        }
        self.rest.insert(key, value)?;
        Ok(())
    }

    /// Adds the value. Where the number has one, that one stays.
    pub(crate) fn add(&mut self, key: u64, value: V) -> Result<(), AllocError>
        ensures { OnOk result (HasValue self.old key value self.new) }
    {
        if self.get(key).is_some() {
            return Ok(());
        }
        self.put(key, value)
    }
}
