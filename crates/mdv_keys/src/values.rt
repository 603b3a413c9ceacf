ghost use Rattle.std.specs.Prelude.{◌≡◌, ℕ, List};
ghost use Rattle.mdv_keys.specs.Keys.{kept, replaced};
ghost use Rattle.mdv_keys.specs.Marks.{AreMarks, same};

use crate::marks::Marks;
use mdv_plan::{Keyed, Sorted};

/// Takes out the values of these keys.
pub fn remove_all<T: Keyed + Drop, const LIMIT: usize>(values: &mut Sorted<T, LIMIT>, keys: &[u32])
    ensures { values.new ≡ kept T.key keys.now values.old }
{
    for key in keys {
        values.remove(*key);
    }
}

/// Takes out the values whose keys are marked. The work is linear.
pub fn remove_marked<T: Keyed + Drop, const LIMIT: usize>(
    values: &mut Sorted<T, LIMIT>,
    marks: &Marks<LIMIT>,
)
    ensures { (gone : List ℕ) → AreMarks same LIMIT marks.now gone → values.new ≡ kept T.key gone values.old }
{
    let _keys = values.as_slice();
    values.remove_marked(marks.as_slice());
}

/// Puts each of the items in for the value of its key, where there is one.
pub fn replace_all<T: Keyed + Drop, const LIMIT: usize>(
    values: &mut Sorted<T, LIMIT>,
    items: Vec<T>,
)
    ensures { values.new ≡ replaced T.key values.old items.items }
{
    let mut items = items;
    while let Some(item) = items.pop() {
        values.replace(item);
    }
}
