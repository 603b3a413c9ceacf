ghost use Rattle.std.specs.Prelude.{◌≡◌, ◌↔◌, [], ◌∷◌, ◌++◌, IsTrue, Contains, OnOk, OnErr};

use mdv_base::Name;
use std::alloc::{AllocError, Global};
use std::collections::BTreeSet;
use std::marker::Model;

/// Names in order. A sorted set beside the list tells in logarithmic time whether a name is in it.
#[derive(Drop)]
pub struct NameList {
    items: Vec<Name>,
    sorted: BTreeSet<String>,
}

impl Model for NameList {
    ghost use Rattle.std.specs.Prelude.{ℕ, List};
    ghost use Rattle.mdv_name.specs.Index.{HasTexts};

    ghost Value = { List (List ℕ) };

    ghost view = { λ l. l.items.items };

    ghost invariant = { λ l. HasTexts l.sorted l.items.items };
}

impl NameList {
    pub fn new(alloc: Global) -> Self
        ensures { result ≡ [] }
    {
        NameList {
            items: Vec::new(alloc),
            sorted: BTreeSet::new(alloc),
        }
    }

    pub fn as_slice(&self) -> &[Name]
        ensures { result.now ≡ self.now }
    {
        self.items.as_slice()
    }

    pub fn contains(&self, name: &Name) -> bool
        ensures { IsTrue result ↔ Contains self.now name.now }
    {
        self.sorted.contains(name.as_str())
    }

    pub fn push(&mut self, name: Name) -> Result<(), AllocError>
        ensures ok { OnOk result (self.new ≡ self.old ++ name ∷ []) }
        ensures err { OnErr result (self.new ≡ self.old) }
    {
        let text = String::from_str(*self.items.allocator(), name.as_str())?;
        self.items.reserve(1)?;
        self.sorted.insert(text)?;
        self.items.push(name)?;
        Ok(())
    }
}
