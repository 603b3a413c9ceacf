ghost use Rattle.std.specs.Prelude.{◌≡◌, ◌≤◌, ◌<◌, ◌==◌, ℕ, false, [], ◌∷◌, ◌++◌, length, slice_index_or, None, All, IfOk, IfErr, OnOk, OnErr};
ghost use Rattle.std.specs.List.{find};
ghost use Rattle.std.specs.Option.{option_copied};
ghost use Rattle.mdv_plan.specs.Sorted.{IsAscending, IsSorted, IsAt, IsGapFor, with_item, with_put, without, unmarked, changed};

use crate::listed::{Copied, copy_all};
use std::alloc::{AllocError, Global};
use std::marker::Model;
use std::mem;

/// What is found by a number.
pub trait Keyed {
    ghost key: { Self → ℕ };

    fn key(&self) -> u32
        ensures { result ≡ key self.now };
}

/// Values in ascending order of their keys, which are below `LIMIT`.
#[derive(Drop)]
pub struct Sorted<T: Keyed, const LIMIT: usize> {
    items: Vec<T>,
}

impl<T: Keyed, const LIMIT: usize> Model for Sorted<T, LIMIT> {
    ghost use Rattle.std.specs.Prelude.{List};
    ghost use Rattle.mdv_plan.specs.Sorted.{IsSorted};

    ghost Value = { List T };

    ghost view = { λ l. l.items.items };

    ghost invariant = { λ l. IsSorted T.key LIMIT l.items.items };
}

impl<T: Keyed + Drop, const LIMIT: usize> Sorted<T, LIMIT> {
    pub fn new(alloc: Global) -> Self
        ensures { result ≡ [] }
    {
        Sorted {
            items: Vec::new(alloc),
        }
    }

    /// The list of values whose keys ascend.
    pub fn from_ascending(items: Vec<T>) -> Self
        requires { IsSorted T.key LIMIT items.items }
        ensures { result ≡ items.items }
    {
        Sorted { items }
    }

    pub fn as_slice(&self) -> &[T]
        ensures value { result.now ≡ self.now }
        ensures ascending { IsAscending T.key self.now }
        ensures keys { All (λ x. T.key x < LIMIT) self.now }
        ensures few { length self.now ≤ LIMIT }
    {
        self.items.as_slice()
    }

    /// The value of this key, found in logarithmic time.
    pub fn find(&self, key: u32) -> Option<&T>
        ensures { option_copied result ≡ find (λ x. T.key x == key) self.now }
    {
        match self.search(key) {
            Ok(place) => Some(&self.items[place]),
            Err(_) => None,
        }
    }

    /// Adds the value at its place.
    pub fn insert(&mut self, item: T) -> Result<(), AllocError>
        requires key { T.key item < LIMIT }
        requires fresh { find (λ x. T.key x == T.key item) self.old ≡ None }
        ensures ok { OnOk result (self.new ≡ with_item T.key item self.old) }
        ensures err { OnErr result (self.new ≡ self.old) }
    {
        match self.search(item.key()) {
            Ok(_) => unreachable!(),
            Err(place) => {
                self.items.insert(place, item)?;
                Ok(())
            }
        }
    }

    /// Adds the value at its place, or puts it in for the one of its key.
    pub fn put(&mut self, item: T) -> Result<(), AllocError>
        requires { T.key item < LIMIT }
        ensures ok { OnOk result (self.new ≡ with_put T.key item self.old) }
        ensures err { OnErr result (self.new ≡ self.old) }
    {
        match self.search(item.key()) {
            Ok(place) => {
                self.items[place] = item;
                Ok(())
            }
            Err(place) => {
                self.items.insert(place, item)?;
                Ok(())
            }
        }
    }

    /// Takes out the value of this key, where there is one.
    pub fn remove(&mut self, key: u32)
        ensures { self.new ≡ without T.key key self.old }
    {
        if let Ok(place) = self.search(key) {
            let _ = self.items.remove(place);
        }
    }

    /// Takes out the values whose keys are marked. The work is linear.
    pub fn remove_marked(&mut self, marks: &[bool])
        ensures { self.new ≡ unmarked T.key marks.now self.old }
    {
        self.items.retain(|item| !is_marked(marks, item.key()));
    }

    /// Puts the value in for the one of its key, where there is one.
    pub fn replace(&mut self, item: T)
        ensures { self.new ≡ changed T.key item self.old }
    {
        if let Ok(place) = self.search(item.key()) {
            self.items[place] = item;
        }
    }

    /// Puts the value in for the one of its key and gives that one back, where there is one.
    pub fn exchange(&mut self, item: T) -> Option<T>
        ensures value { result ≡ find (λ x. T.key x == T.key item) self.old }
        ensures list { self.new ≡ changed T.key item self.old }
    {
        match self.search(item.key()) {
            Ok(place) => Some(mem::replace(&mut self.items[place], item)),
            Err(_) => None,
        }
    }

    // Where the value of this key is, or where it would go.
    fn search(&self, key: u32) -> Result<usize, usize>
        ensures found { IfOk result (IsAt T.key self.now key) }
        ensures absent { IfErr result (IsGapFor T.key self.now key) }
    {
        self.items.binary_search_by_key(&key, |item| item.key())
    }
}

fn is_marked(marks: &[bool], key: u32) -> bool
    ensures { result ≡ slice_index_or marks.now key false }
{
    match marks.get(key as usize) {
        Some(mark) => *mark,
        None => false,
    }
}

impl<T: Keyed + Copy, const LIMIT: usize> Sorted<T, LIMIT> {
    /// The same list once more.
    pub fn copy(&self, alloc: Global) -> Result<Self, AllocError>
        ensures { IfOk result (λ list. list ≡ self.now) }
    {
        let items = Vec::from_slice(alloc, self.items.as_slice())?;
        Ok(Sorted { items })
    }
}

impl<T: Keyed + Copied, const LIMIT: usize> Copied for Sorted<T, LIMIT> {
    fn copied(&self, alloc: Global) -> Result<Self, AllocError> {
        let items = copy_all(alloc, self.items.as_slice())?;
        Ok(Sorted { items })
    }
}
