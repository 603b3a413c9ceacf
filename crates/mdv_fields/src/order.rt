ghost use Rattle.std.specs.Prelude.{◌↔◌, IsTrue, AllPairs};

/// What stands in ascending order in a record.
pub trait Ordered {
    ghost below: { Self → Self → Type 0 };

    /// Whether it stands in front of the other.
    fn is_below(&self, other: &Self) -> bool
        ensures { IsTrue result ↔ below self.now other.now };

    ghost follows: { (x y z : Self) → below x y → below y z → below x z };
}

/// Whether each is below all that follow. The work is linear.
pub fn ascend<T: Ordered>(items: &[T]) -> bool
    ensures { IsTrue result ↔ AllPairs T.below items.now }
{
    for i in 1..items.len() {
        if !items[i - 1].is_below(&items[i]) {
            return false;
        }
    }
    true
}
