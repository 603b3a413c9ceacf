ghost use Rattle.std.specs.Prelude.{◌≡◌, ◌≢◌, ◌≤◌, ◌∷◌, ◌++◌, [], length, IfOk, IfErr, OnOk};
ghost use Rattle.mdv_tab.specs.Text.{IsTab, IsFaultOf, IsAddFaultOf, AddsFound, IsGroupFaultOf};
ghost use Rattle.mdv_text.specs.Words.{words};

use crate::entry::Entry;
use crate::group::{Found, Group, MAX_TEXT, gather};
use std::alloc::Global;
use thiserror::Error;

/// The most entries of a text.
pub const MAX_ENTRIES: usize = 1024;

/// Why a text isn't read.
#[derive(Debug, Drop, PartialEq, Eq, Error)]
pub enum TabFault {
    /// The number of the line, from 1, where the first entry begins that is of no form.
    #[error("line {0} is no entry")]
    BadLine(u32),
    /// More than 65,536 bytes, or more than 1,024 entries before any that is of no form.
    #[error("too many bytes or entries")]
    TooMany,
    #[error("out of memory")]
    Memory,
}

/// Reads the text of an md.tab: its entries in order. `#` begins a comment that runs to the line's
/// end, and a backslash directly before the end of a line, and not in a comment, joins the next line.
/// A line with a byte past ASCII, be it in a comment, is of no form.
pub fn read_tab(alloc: Global, text: &[u8]) -> Result<Vec<Entry>, TabFault>
    ensures value { IfOk result (λ v. IsTab text.now v.items) }
    ensures fault { IfErr result (IsFaultOf text.now) }
{
    if text.len() > MAX_TEXT {
        return Err(TabFault::TooMany);
    }
    let mut entries = Vec::new(alloc);
    let mut rest = text;
    let mut number = 1;
    while !rest.is_empty() {
        let Ok((group, behind)) = gather(alloc, rest) else {
            return Err(TabFault::Memory);
        };
        match add_group(alloc, &mut entries, &group, number) {
            Ok(()) => {
                number += group.lines;
                rest = behind;
            }
            Err(fault) => return Err(fault),
        }
    }
    Ok(entries)
}

// What the lines from this number on add.
fn add_group(
    alloc: Global,
    entries: &mut Vec<Entry>,
    group: &Group,
    number: u32,
) -> Result<(), TabFault>
    requires { length entries.old.items ≤ 1024 }
    ensures added { OnOk result (AddsFound group.now.ascii (words group.now.text.items)
        entries.old.items entries.new.items) }
    ensures fault { IfErr result (IsGroupFaultOf group.now.ascii (words group.now.text.items)
        entries.old.items number) }
{
    match group.read(alloc) {
        Ok(Found::Blank) => Ok(()),
        Ok(Found::Spelled(entry)) => add(entries, entry),
        Ok(Found::Bad) => Err(TabFault::BadLine(number)),
        Err(_) => Err(TabFault::Memory),
    }
}

// One entry more, where there is room.
fn add(entries: &mut Vec<Entry>, entry: Entry) -> Result<(), TabFault>
    ensures added { OnOk result (entries.new.items ≡ entries.old.items ++ entry ∷ []) }
    ensures room { OnOk result (length entries.old.items ≢ 1024) }
    ensures fault { IfErr result (IsAddFaultOf entries.old.items) }
{
    if entries.len() == MAX_ENTRIES {
        return Err(TabFault::TooMany);
    }
    match entries.push(entry) {
        Ok(()) => Ok(()),
        Err(_) => Err(TabFault::Memory),
    }
}
