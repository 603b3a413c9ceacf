ghost use Rattle.std.specs.Prelude.{◌≡◌, ℕ, List};
ghost use Rattle.mdv_grammar.specs.declared.line.Line.{Line};
ghost use Rattle.mdv_grammar.specs.Line.{IsLine};

/// A line asks one thing at most.
pub fn asks_one_thing()
    ensures { (line : List ℕ) (a b : Line) → IsLine line a → IsLine line b → a ≡ b }
{}
