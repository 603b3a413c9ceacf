ghost use Rattle.std.specs.Prelude.{◌≡◌, None, Some, MatchOption};
ghost use Rattle.std.specs.List.{find};
ghost use Rattle.mdv_words.specs.Listed.{is_listed as spec_is_listed, listed_by};

use crate::command::{blocks_of, count_of};
use mdv_base::SliceName;
use mdv_tab::Entry;

/// What an entry of replicas says.
#[derive(Clone, Copy)]
pub struct Listed<'a> {
    /// One or more; an entry may name a slice twice.
    pub slices: &'a [SliceName],
    /// Replicas on each slice, 1 to 50.
    pub count: u8,
    /// Blocks of each replica, 16 to 8192.
    pub blocks: u32,
}

/// What the first of these entries says that is one of replicas and has the number; none where no entry is so.
pub fn replicas_listed(entries: &[Entry], number: u8) -> Option<Listed<'_>>
    ensures { MatchOption result (listed_by entries.now number ≡ None)
        (λ l. listed_by entries.now number ≡ Some (record { slices = l.slices.now; count = l.count; blocks = l.blocks })) }
{
    match entry_listed(entries, number) {
        Some(
            Entry::Replicas {
                options,
                slices,
                ..
            },
        ) => Some(Listed {
            slices: slices.as_slice(),
            count: count_of(options),
            blocks: blocks_of(options),
        }),
        _ => None,
    }
}

fn entry_listed(entries: &[Entry], number: u8) -> Option<&Entry>
    ensures { MatchOption result (find (spec_is_listed number) entries.now ≡ None) (λ e. find (spec_is_listed number) entries.now ≡ Some e.now) }
{
    entries.iter().find(|entry| is_listed(entry, number))
}

// Whether it is an entry of replicas with this number.
fn is_listed(entry: &Entry, number: u8) -> bool
    ensures { result ≡ spec_is_listed number entry.now }
{
    match entry {
        Entry::Replicas { number: own, .. } => *own == number,
        _ => false,
    }
}
