ghost use Rattle.std.specs.Prelude.{◌≡◌, ◌<◌, ◌⊎◌, ℕ, List, length};
ghost use Rattle.mdv_tab.specs.declared.entry.Entry.{Entry};
ghost use Rattle.mdv_tab.specs.Order.{IsOrderOfNeed};
ghost use Rattle.mdv_tab.specs.Text.{IsTab, IsBadLine, HasTooMany};

/// A text is read in one way: as one list of entries at most, or with one first line that is of no
/// form, or as one with too many bytes or entries, and never in two of these ways.
pub fn reads_as_one_tab()
    ensures tabs { (text : List ℕ) (a b : List Entry) → IsTab text a → IsTab text b → a ≡ b }
    ensures wrong { (text : List ℕ) (a : List Entry) (n : ℕ) → IsTab text a →
        IsBadLine text n → ⊥ }
    ensures many { (text : List ℕ) (a : List Entry) → IsTab text a →
        (65536 < length text) ⊎ HasTooMany text → ⊥ }
    ensures first { (text : List ℕ) (m n : ℕ) → IsBadLine text m → IsBadLine text n → m ≡ n }
    ensures either { (text : List ℕ) (n : ℕ) → IsBadLine text n →
        (65536 < length text) ⊎ HasTooMany text → ⊥ }
{}

/// Entries have one order of need at most.
pub fn has_one_order()
    ensures { (entries : List Entry) (a b : List ℕ) → IsOrderOfNeed entries a →
        IsOrderOfNeed entries b → a ≡ b }
{}
