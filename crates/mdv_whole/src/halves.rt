//! What a record says beside each other comes apart again: what the plan says of it, and what is noted.
ghost use Rattle.std.specs.Prelude.{◌≡◌, map, IfOk};
ghost use Rattle.mdv_plan.specs.Sorted.{IsSorted};

use mdv_plan::{Keyed, Listed, Sorted};
use std::alloc::{AllocError, Global};

/// What has the other for one of its sides.
pub trait Half<T> {
    ghost half: { Self → T };

    fn half(&self, alloc: Global) -> Result<T, AllocError>
        ensures { IfOk result (λ side. side ≡ half self.now) };
}

/// That side of each.
pub fn halves<T: Drop, R: Half<T> + Drop, const MOST: usize>(
    alloc: Global,
    items: &Listed<R, MOST>,
) -> Result<Listed<T, MOST>, AllocError>
    ensures { IfOk result (λ sides. sides ≡ map R.half items.now) }
{
    let items = items.as_slice();
    let mut sides = Listed::with_capacity(alloc, items.len())?;
    for item in items {
        sides.push(item.half(alloc)?)?;
    }
    Ok(sides)
}

/// That side of each, by its key. The keys ascend.
pub fn sorted_halves<T: Keyed + Drop, R: Half<T> + Drop, const LIMIT: usize>(
    alloc: Global,
    items: &[R],
) -> Result<Sorted<T, LIMIT>, AllocError>
    requires { IsSorted T.key LIMIT (map R.half items.now) }
    ensures { IfOk result (λ sides. sides ≡ map R.half items.now) }
{
    let mut sides = Vec::with_capacity(alloc, items.len())?;
    for item in items {
        sides.push(item.half(alloc)?)?;
    }
    Ok(Sorted::from_ascending(sides))
}
