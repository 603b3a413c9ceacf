ghost use Rattle.std.specs.Prelude.{◌≡◌, ◌≤◌, ◌<◌, ◌↔◌, [], ◌∷◌, ◌++◌, length, IsTrue, IfOk, OnOk, OnErr};
ghost use Rattle.std.specs.Borrow.{sem};
ghost use Rattle.mdv_plan.specs.Lent.{lends_items};

use std::alloc::{AllocError, Global};
use std::marker::Model;

/// What can be had once more, where memory allows.
pub trait Copied: Drop {
    fn copied(&self, alloc: Global) -> Result<Self, AllocError>
        ensures { IfOk result (λ copy. copy ≡ self.now) };
}

/// At most `MOST` values in order.
#[derive(Drop)]
pub struct Listed<T, const MOST: usize> {
    items: Vec<T>,
}

impl<T, const MOST: usize> Model for Listed<T, MOST> {
    ghost use Rattle.std.specs.Prelude.{List, ◌≤◌, length};

    ghost Value = { List T };

    ghost view = { λ l. l.items.items };

    ghost invariant = { λ l. length l.items.items ≤ MOST };
}

impl<T: Drop, const MOST: usize> Listed<T, MOST> {
    pub fn new(alloc: Global) -> Self
        ensures { result ≡ [] }
    {
        Listed {
            items: Vec::new(alloc),
        }
    }

    /// No values yet, and memory for so many.
    pub fn with_capacity(alloc: Global, count: usize) -> Result<Self, AllocError>
        ensures { IfOk result (λ list. list ≡ []) }
    {
        let items = Vec::with_capacity(alloc, count)?;
        Ok(Listed { items })
    }

    pub fn as_slice(&self) -> &[T]
        ensures value { result.now ≡ self.now }
        ensures few { length self.now ≤ MOST }
    {
        self.items.as_slice()
    }

    /// The values, to be changed in place. There stay as many.
    pub fn as_mut_slice(&mut self) -> &mut [T]
        ensures* lends { sem 𝓛 (lends_items T.row MOST.row self.entry result) }
        ensures value { result.now ≡ self.old }
    {
        self.items.as_mut_slice()
    }

    pub fn is_full(&self) -> bool
        ensures full { IsTrue result ↔ (length self.now ≡ MOST) }
        ensures few { length self.now ≤ MOST }
    {
        self.items.len() == MOST
    }

    /// Adds the value behind the others.
    pub fn push(&mut self, item: T) -> Result<(), AllocError>
        requires { length self.old < MOST }
        ensures ok { OnOk result (self.new ≡ self.old ++ item ∷ []) }
        ensures err { OnErr result (self.new ≡ self.old) }
    {
        self.items.push(item)?;
        Ok(())
    }
}

impl<T: Copy, const MOST: usize> Listed<T, MOST> {
    /// The same values in a list of their own.
    pub fn from_slice(alloc: Global, items: &[T]) -> Result<Self, AllocError>
        requires { length items.now ≤ MOST }
        ensures { IfOk result (λ list. list ≡ items.now) }
    {
        let items = Vec::from_slice(alloc, items)?;
        Ok(Listed { items })
    }

    /// The same list once more.
    pub fn copy(&self, alloc: Global) -> Result<Self, AllocError>
        ensures { IfOk result (λ list. list ≡ self.now) }
    {
        let items = Vec::from_slice(alloc, self.items.as_slice())?;
        Ok(Listed { items })
    }
}

impl<T: Copied, const MOST: usize> Copied for Listed<T, MOST> {
    fn copied(&self, alloc: Global) -> Result<Self, AllocError> {
        let items = copy_all(alloc, self.items.as_slice())?;
        Ok(Listed { items })
    }
}

/// Each value once more, in order.
pub(crate) fn copy_all<T: Copied>(alloc: Global, items: &[T]) -> Result<Vec<T>, AllocError>
    ensures { IfOk result (λ copies. copies.items ≡ items.now) }
{
    let mut copies = Vec::new(alloc);
    for item in items {
        copies.push(item.copied(alloc)?)?;
    }
    Ok(copies)
}
