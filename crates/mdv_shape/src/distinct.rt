//! Numbers of which none stands twice.
ghost use Rattle.std.specs.Prelude.{◌≡◌, ◌↔◌, ℕ, nat_eq, IsSome, IfOk, IfSome};
ghost use Rattle.std.specs.BTreeSet.{contains};
ghost use Rattle.std.specs.List.{IsDistinct, list_any};
ghost use Rattle.std.specs.Ordering.{nat_cmp};

use std::alloc::{AllocError, Global};
use std::collections::BTreeSet;

/// The numbers as a set; none where one stands twice.
pub fn set_of(alloc: Global, numbers: &[u32]) -> Result<Option<BTreeSet<u32>>, AllocError>
    ensures distinct { IfOk result (λ set. IsSome set ↔ IsDistinct nat_eq numbers.now) }
    ensures members { IfOk result (λ set. IfSome set (λ s. (n : ℕ) → contains nat_cmp s n ≡ list_any (nat_eq n) numbers.now)) }
{
    let mut set = BTreeSet::new(alloc);
    for number in numbers {
        if !set.insert(*number)? {
            return Ok(None);
        }
    }
    Ok(Some(set))
}
