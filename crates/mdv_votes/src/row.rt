ghost use Rattle.std.specs.Prelude.{◌≡◌, ◌++◌, [], ◌∷◌, OnOk, OnErr, IfOk, ◌<◌, length, slice_set};
ghost use Rattle.std.specs.Fn.{CalledAt};
ghost use Rattle.std.specs.List.Retain.{IsFiltered};

use std::alloc::{AllocError, Global};
use std::marker::Model;

/// A list in memory.
#[derive(Drop)]
pub struct Row<T> {
    items: Vec<T>,
}

impl<T> Model for Row<T> {
    ghost use Rattle.std.specs.Prelude.{List};

    ghost Value = { List T };

    ghost view = { λ r. r.items.items };
}

impl<T> Row<T> {
    pub fn new(alloc: Global) -> Self
        ensures { result ≡ [] }
    {
        Row {
            items: Vec::new(alloc),
        }
    }

    pub fn as_slice(&self) -> &[T]
        ensures { result.now ≡ self.now }
    {
        self.items.as_slice()
    }
}

impl<T: Drop> Row<T> {
    pub fn push(&mut self, item: T) -> Result<(), AllocError>
        ensures ok { OnOk result (self.new ≡ self.old ++ item ∷ []) }
        ensures err { OnErr result (self.new ≡ self.old) }
    {
        self.items.push(item)?;
        Ok(())
    }
}

impl<T: Drop> Row<T> {
    /// Keeps the items that pass the test, in their order. It takes no memory.
    pub fn retain<F: FnMut(&T) -> bool>(&mut self, keep: F)
        requires { F.IsAlwaysCallable keep }
        ensures { IsFiltered (CalledAt F.FnMut) keep self.old self.new }
    {
        self.items.retain(keep);
    }
}

impl<T: Drop> Row<T> {
    pub fn set(&mut self, index: usize, item: T)
        requires { index < length self.old }
        ensures { self.new ≡ slice_set self.old index item }
    {
        self.items[index] = item;
    }
}

impl<T: Copy + Drop> Row<T> {
    /// A list of one item.
    pub fn of_one(alloc: Global, item: T) -> Result<Self, AllocError>
        ensures { IfOk result (λ row. row ≡ item ∷ []) }
    {
        let mut row = Row::new(alloc);
        row.push(item)?;
        Ok(row)
    }

    /// The same list with one more item at its end.
    pub fn with(&self, alloc: Global, item: T) -> Result<Self, AllocError>
        ensures { IfOk result (λ row. row ≡ self.now ++ item ∷ []) }
    {
        let mut row = self.copied(alloc)?;
        row.push(item)?;
        Ok(row)
    }
}

impl<T: Copy> Row<T> {
    pub fn from_slice(alloc: Global, items: &[T]) -> Result<Self, AllocError>
        ensures { IfOk result (λ row. row ≡ items.now) }
    {
        let items = Vec::from_slice(alloc, items)?;
        Ok(Row { items })
    }

    /// The same list once more.
    pub fn copied(&self, alloc: Global) -> Result<Self, AllocError>
        ensures { IfOk result (λ row. row ≡ self.now) }
    {
        Row::from_slice(alloc, self.as_slice())
    }
}
