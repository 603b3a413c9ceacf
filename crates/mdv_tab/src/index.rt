ghost use Rattle.std.specs.Prelude.{◌≡◌, ◌<◌, ◌≤◌, length, IfOk, OnOk};
ghost use Rattle.mdv_tab.specs.Index.{IsIndexOf, IsNumbering, AddsKey, index_len, key_of as spec_key_of, set_key as spec_set_key, number_of};
ghost use Rattle.mdv_tab.specs.Order.{entry_set, makes};

use crate::entry::Entry;
use crate::key::{Key, SetKey};
use mdv_base::{NAME_BYTES, Name, Named};
use std::alloc::{AllocError, Global};
use std::collections::BTreeMap;

// The names that entries make, each with a number.
#[derive(Drop)]
pub(crate) struct Index {
    pub(crate) numbers: BTreeMap<Key, u32>,
}

fn set_key(name: &Name) -> SetKey
    ensures { result ≡ spec_set_key name.now }
{
    let text = name.as_bytes();
    let mut bytes = [0; NAME_BYTES];
    bytes[..text.len()].copy_from_slice(text);
    SetKey {
        bytes,
        len: text.len() as u8,
    }
}

fn key_of(set: &Option<Name>, named: Named) -> Key
    ensures { result ≡ spec_key_of set.now named }
{
    let (number, pool) = match named {
        Named::Volume(volume) => (volume.0, false),
        Named::Pool(pool) => (pool.0, true),
    };
    let set = match set {
        Some(name) => Some(set_key(name)),
        None => None,
    };
    Key { number, pool, set }
}

// The set of the entry's names.
pub(crate) fn set_of_entry(entry: &Entry) -> Option<Name>
    ensures { result ≡ entry_set entry.now }
{
    match entry {
        Entry::Stripe { name, .. } => name.set,
        Entry::Mirror { name, .. } => name.set,
        Entry::Raid { name, .. } => name.set,
        Entry::Soft { name, .. } => name.set,
        Entry::Pool { name, .. } => name.set,
        Entry::Replicas { .. } => None,
    }
}

// The volume or the pool that the entry makes.
pub(crate) fn made_by(entry: &Entry) -> Option<Named>
    ensures { result ≡ makes entry.now }
{
    match entry {
        Entry::Stripe { name, .. } => Some(Named::Volume(name.volume)),
        Entry::Mirror { name, .. } => Some(Named::Volume(name.volume)),
        Entry::Raid { name, .. } => Some(Named::Volume(name.volume)),
        Entry::Soft { name, .. } => Some(Named::Volume(name.volume)),
        Entry::Pool { name, .. } => Some(Named::Pool(name.pool)),
        Entry::Replicas { .. } => None,
    }
}

impl Index {
    // How many names there are.
    pub(crate) fn len(&self) -> u32
        requires { index_len self.now ≤ 1024 }
        ensures { result ≡ index_len self.now }
    {
        self.numbers.len() as u32
    }

    // Gives the name the next number, where it has none.
    fn add(&mut self, key: Key) -> Result<(), AllocError>
        requires sound { IsNumbering self.old }
        requires few { index_len self.old < 1024 }
        ensures { OnOk result (AddsKey self.old self.new key) }
    {
        if self.numbers.get(&key).is_none() {
            let next = self.numbers.len() as u32;
            self.numbers.insert(key, next)?;
        }
        Ok(())
    }

    // The number of the name, if an entry makes it.
    pub(crate) fn find(&self, set: &Option<Name>, named: Named) -> Option<u32>
        ensures { result ≡ number_of self.now set.now named }
    {
        self.numbers.get(&key_of(set, named)).copied()
    }
}

// The names that the entries make.
pub(crate) fn index_of(alloc: Global, entries: &[Entry]) -> Result<Index, AllocError>
    requires { length entries.now ≤ 1024 }
    ensures { IfOk result (λ i. IsIndexOf entries.now i) }
{
    let mut index = Index {
        numbers: BTreeMap::new(alloc),
    };
    for entry in entries {
        if let Some(named) = made_by(entry) {
            index.add(key_of(&set_of_entry(entry), named))?;
        }
    }
    Ok(index)
}
