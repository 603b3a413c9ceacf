ghost use Rattle.std.specs.Prelude.{◌≡◌, List, ℕ};
ghost use Rattle.mdv_parts.specs.declared.part.Part.{Part};
ghost use Rattle.mdv_parts.specs.declared.names.Scope.{Scope};
ghost use Rattle.mdv_parts.specs.Part.{IsPart, AreParts};

/// A word spells one part at most, and the words of a line one list of parts.
pub fn spells_one_list()
    ensures part { (scope : Scope) (word : List ℕ) (p q : Part) →
        IsPart scope word p → IsPart scope word q → p ≡ q }
    ensures parts { (scope : Scope) (words : List (List ℕ)) (ps qs : List Part) →
        AreParts scope words ps → AreParts scope words qs → ps ≡ qs }
{}
