ghost use Rattle.std.specs.Prelude.{◌≡◌, ◌<◌, ◌≤◌, ◌↔◌, List, [], ◌∷◌, ◌++◌, length, IsTrue, slice_get};

use crate::{DriveName, SliceName};
use arrayvec::ArrayVec;
use std::marker::Model;

/// The most replicas that a database has.
pub const MAX_PLACES: usize = 50;

/// Where a replica lies: on this slice, from this block of the slice on, so many blocks.
#[derive(Clone, Copy, Debug, PartialEq, Eq)]
pub struct Place {
    pub slice: SliceName,
    pub start: u32,
    pub blocks: u32,
}

impl Default for Place {
    fn default() -> Self {
        let drive = DriveName {
            controller: 0,
            target: 0,
            disk: 0,
        };
        Place {
            slice: SliceName { drive, slice: 0 },
            start: 0,
            blocks: 0,
        }
    }
}

/// The places of a database's replicas, in order: at most 50.
#[derive(Drop)]
pub struct Places {
    items: ArrayVec<Place, 50>,
}

impl Model for Places {
    ghost use Rattle.std.specs.Prelude.{List, ◌≤◌, length};
    ghost use Rattle.mdv_base.specs.declared.place.Place.{Place};

    ghost Value = { List Place };

    ghost view = { λ p. p.items.items };

    ghost invariant = { λ p. length p.items.items ≤ 50 };
}

impl Places {
    pub fn new() -> Self
        ensures { result ≡ [] }
    {
        Places {
            items: ArrayVec::new(),
        }
    }

    pub fn as_slice(&self) -> &[Place]
        ensures { result.now ≡ self.now }
    {
        self.items.as_slice()
    }

    pub fn is_full(&self) -> bool
        ensures full { IsTrue result ↔ (length self.now ≡ 50) }
        ensures within { length self.now ≤ 50 }
    {
        self.items.len() == MAX_PLACES
    }

    pub fn push(&mut self, place: Place)
        requires { length self.old < 50 }
        ensures { self.new ≡ self.old ++ place ∷ [] }
    {
        self.items.push(place);
    }
}
