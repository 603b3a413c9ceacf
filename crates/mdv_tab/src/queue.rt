ghost use Rattle.std.specs.Prelude.{◌≡◌, ◌≤◌, [], ◌∷◌, length, All, IfSome, IfNone, OnOk, IsPermutation};

use std::alloc::{AllocError, Global};
use std::cmp::Reverse;
use std::collections::BinaryHeap;
use std::marker::Model;

// Places, of which the least is taken first.
#[derive(Drop)]
pub(crate) struct Queue {
    heap: BinaryHeap<Reverse<u32>>,
}

impl Model for Queue {
    ghost use Rattle.std.specs.Prelude.{ℕ, List, map};
    ghost use Rattle.std.specs.Ordering.{nat_cmp};
    ghost use Rattle.std.specs.BinaryHeap.{IsHeap, heap_items};

    ghost Value = { List ℕ };

    ghost view = { λ q. map (λ x. x.0) (heap_items q.heap) };

    ghost invariant = { λ q. IsHeap (λ x y. nat_cmp y.0 x.0) (heap_items q.heap) };
}

impl Queue {
    pub(crate) fn new(alloc: Global) -> Self
        ensures { result ≡ [] }
    {
        Queue {
            heap: BinaryHeap::new(alloc),
        }
    }

    pub(crate) fn push(&mut self, place: u32) -> Result<(), AllocError>
        ensures { OnOk result (IsPermutation (place ∷ self.old) self.new) }
    {
        self.heap.push(Reverse(place))?;
        Ok(())
    }

    pub(crate) fn pop(&mut self) -> Option<u32>
        ensures taken { IfSome result (λ x. IsPermutation self.old (x ∷ self.new)) }
        ensures least { IfSome result (λ x. All (λ y. x ≤ y) self.new) }
        ensures none { IfNone result ((self.old ≡ []) × (self.new ≡ [])) }
    {
        if let Some(Reverse(place)) = self.heap.pop() {
            return Some(place);
        }
        None
    }
}
