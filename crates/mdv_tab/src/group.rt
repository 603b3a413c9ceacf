ghost use Rattle.std.specs.Prelude.{◌≡◌, ◌<◌, ◌≤◌, ◌+◌, ◌&&◌, [], ◌∷◌, ◌++◌, true, length, IfOk, OnOk};
ghost use Rattle.mdv_text.specs.Words.{words};
ghost use Rattle.mdv_tab.specs.Gather.{IsGathered, IsSetOf, IsReadWith};
ghost use Rattle.mdv_tab.specs.Text.{counted, joins, is_ascii_line as spec_is_ascii_line, IsFound};

use crate::entry::Entry;
use crate::form::read_entry;
use crate::lines::{cut_line, is_ascii_line, split_line};
use mdv_base::Name;
use mdv_name::{parse_pool, parse_volume};
use mdv_parts::{Scope, read_parts};
use mdv_text::first_word;
use std::alloc::{AllocError, Global};

/// The most bytes that a text has.
pub const MAX_TEXT: usize = 65536;

/// What lines that belong together are.
#[derive(Drop)]
pub enum Found {
    /// No words.
    Blank,
    Spelled(Entry),
    Bad,
}

// Lines that belong together: what counts of each, and a blank behind it.
#[derive(Drop)]
pub(crate) struct Group {
    pub(crate) text: Vec<u8>,
    pub(crate) ascii: bool,
    pub(crate) lines: u32,
}

impl Group {
    fn new(alloc: Global) -> Self
        ensures text { result.text.items ≡ [] }
        ensures ascii { result.ascii ≡ true }
        ensures lines { result.lines ≡ 0 }
    {
        Group {
            text: Vec::new(alloc),
            ascii: true,
            lines: 0,
        }
    }

    // Whether the next line goes on with this one.
    fn add(&mut self, line: &[u8]) -> Result<bool, AllocError>
        requires { self.old.lines < 65536 }
        ensures text { OnOk result (self.new.text.items ≡
            self.old.text.items ++ (counted line.now ++ 32 ∷ [])) }
        ensures ascii { OnOk result (self.new.ascii ≡
            (self.old.ascii && spec_is_ascii_line line.now)) }
        ensures lines { OnOk result (self.new.lines ≡ self.old.lines + 1) }
        ensures joined { IfOk result (λ b. b ≡ joins line.now) }
    {
        let (text, joined) = cut_line(line);
        self.text.extend_from_slice(text)?;
        self.text.push(b' ')?;
        self.ascii = self.ascii && is_ascii_line(line);
        self.lines += 1;
        Ok(joined)
    }

    // What the lines are.
    pub(crate) fn read(&self, alloc: Global) -> Result<Found, AllocError>
        ensures { IfOk result (λ f. IsFound self.now.ascii (words self.now.text.items) f) }
    {
        if !self.ascii {
            return Ok(Found::Bad);
        }
        let text = self.text.as_slice();
        let Some((first, _)) = first_word(text) else {
            return Ok(Found::Blank);
        };
        let set = set_of(first);
        match read_words(alloc, &set, text)? {
            Some(entry) => Ok(Found::Spelled(entry)),
            None => Ok(Found::Bad),
        }
    }
}

// The entry that the words spell with this set, or with none.
fn read_words(alloc: Global, set: &Option<Name>, text: &[u8]) -> Result<Option<Entry>, AllocError>
    ensures { IfOk result (λ o. IsReadWith set.now (words text.now) o) }
{
    let scope = Scope::Only(*set);
    let Some(parts) = read_parts(alloc, &scope, text)? else {
        return Ok(None);
    };
    let entry = read_entry(alloc, set, parts.as_slice())?;
    Ok(entry)
}

// The first lines that belong together, and what stands behind them.
pub(crate) fn gather(alloc: Global, text: &[u8]) -> Result<(Group, &[u8]), AllocError>
    requires some { 0 < length text.now }
    requires short { length text.now ≤ 65536 }
    ensures { IfOk result (λ r.
        IsGathered text.now r.0.text.items r.0.ascii r.0.lines r.1.now) }
{
    let mut group = Group::new(alloc);
    let mut rest = text;
    while !rest.is_empty() {
        let (line, behind) = split_line(rest);
        rest = behind;
        if !group.add(line)? {
            return Ok((group, rest));
        }
    }
    Ok((group, rest))
}

/// The set of the volume or pool that the word names, and None for any other word.
pub fn set_of(word: &[u8]) -> Option<Name>
    ensures { IsSetOf word.now result }
{
    if let Some(volume) = parse_volume(word) {
        return volume.set;
    }
    match parse_pool(word) {
        Some(pool) => pool.set,
        None => None,
    }
}
