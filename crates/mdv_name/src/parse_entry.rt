ghost use Rattle.std.specs.Prelude.{◌≡◌, ◌↔◌, ◌≤◌, ◌<◌, ◌^◌, ◌∷◌, [], ℕ, Bool, true, false, List};
ghost use Rattle.std.specs.Prelude.{IsTrue, Some, None, codes, decimal, IfOk, IfSome, IfNone};
ghost use Rattle.std.specs.Prelude.{MatchOption};
ghost use Rattle.mdv_text.specs.Words.{words};
ghost use Rattle.mdv_name.specs.declared.drive_line.DriveKind.{DriveKind};
ghost use Rattle.mdv_name.specs.declared.drive_line.DriveLine.{DriveLine};
ghost use Rattle.mdv_name.specs.declared.entry.SliceEntry.{SliceEntry};
ghost use Rattle.mdv_name.specs.declared.entry.Entry.{Entry};
ghost use Rattle.mdv_name.specs.declared.entry.Entry.TheVariants.{Host, Drive, Slice};
ghost use Rattle.mdv_name.specs.Entry.{IsHostName, IsDriveLine, IsSliceEntry, IsEntry, IsKindOf};
ghost use Rattle.mdv_name.specs.Entry.{IsReadAs, IsEntryRead, db_words, entry_words};
ghost use Rattle.mdv_name.specs.FileText.{IsFileText};

use crate::drive::{parse_drive, parse_plain_slice};
use crate::drive_line::{DriveKind, DriveLine};
use crate::entry::{Entry, SliceEntry};
use crate::file_name::FileName;
use mdv_base::Name;
use mdv_text::{MAX_BLOCKS, first_word, number};
use std::alloc::{AllocError, Global};

// The line's first three words, and what stands behind them.
fn split_three(text: &[u8]) -> Option<(&[u8], &[u8], &[u8], &[u8])>
    ensures value { IfSome result (λ r. words text.now ≡ r.0.now ∷ r.1.now ∷ r.2.now ∷ words r.3.now) }
    ensures none { IfNone result ((a b c : List ℕ) (ws : List (List ℕ)) →
        words text.now ≡ a ∷ b ∷ c ∷ ws → ⊥) }
{
    let (first, rest) = first_word(text)?;
    let (second, rest) = first_word(rest)?;
    let (third, rest) = first_word(rest)?;
    Some((first, second, third, rest))
}

// The only word.
fn only_word(text: &[u8]) -> Option<&[u8]>
    ensures value { IfSome result (λ w. words text.now ≡ w.now ∷ []) }
    ensures none { IfNone result ((w : List ℕ) → words text.now ≡ w ∷ [] → ⊥) }
{
    let (word, rest) = first_word(text)?;
    if has_words(rest) {
        return None;
    }
    Some(word)
}

pub(crate) fn has_words(text: &[u8]) -> bool
    ensures yes { result ≡ false → words text.now ≡ [] }
    ensures no { result ≡ true → words text.now ≡ [] → ⊥ }
{
    first_word(text).is_some()
}

// `db`, or nothing.
fn parse_db(text: &[u8]) -> Option<bool>
    ensures value { IfSome result (λ b. words text.now ≡ db_words b) }
    ensures none { IfNone result ((b : Bool) → words text.now ≡ db_words b → ⊥) }
{
    if !has_words(text) {
        return Some(false);
    }
    let word = only_word(text)?;
    if word == b"db".as_slice() {
        Some(true)
    } else {
        None
    }
}

// A number of blocks, this many at least.
fn parse_blocks(text: &[u8], least: u64) -> Option<u64>
    ensures value { IfSome result (λ n. (text.now ≡ decimal n) × (least ≤ n) × (n ≤ 2 ^ 40)) }
    ensures none { IfNone result ((n : ℕ) → least ≤ n → n ≤ 2 ^ 40 → text.now ≡ decimal n → ⊥) }
{
    let blocks = number(text)?;
    if blocks < least || blocks > MAX_BLOCKS {
        return None;
    }
    Some(blocks)
}

// What `host` is followed by.
fn parse_host_line(text: &[u8]) -> Option<Name>
    ensures value { IfSome result (λ name. words text.now ≡ name ∷ []) }
    ensures form { IfSome result IsHostName }
    ensures none { IfNone result ((name : List ℕ) → IsHostName name →
        words text.now ≡ name ∷ [] → ⊥) }
{
    let word = only_word(text)?;
    if word == b"shared".as_slice() {
        return None;
    }
    Name::new(word)
}

// What `slice` is followed by.
fn parse_slice_line(text: &[u8]) -> Option<SliceEntry>
    ensures value { IfSome result (λ s. codes "slice" ∷ words text.now ≡ entry_words (Slice s)) }
    ensures form { IfSome result IsSliceEntry }
    ensures none { IfNone result ((s : SliceEntry) → IsSliceEntry s →
        codes "slice" ∷ words text.now ≡ entry_words (Slice s) → ⊥) }
{
    let (name, start, blocks, rest) = split_three(text)?;
    let name = parse_plain_slice(name)?;
    let start = number(start)?;
    let blocks = number(blocks)?;
    let db = parse_db(rest)?;
    if blocks == 0 {
        return None;
    }
    Some(SliceEntry {
        name,
        start,
        blocks,
        db,
    })
}

// The drive of that name and owner.
fn parse_kind(drive: &[u8], owner: &[u8]) -> Option<DriveKind>
    ensures value { IfSome result (λ k. IsKindOf k drive.now owner.now) }
    ensures none { IfNone result ((k : DriveKind) → IsKindOf k drive.now owner.now → ⊥) }
{
    let drive = parse_drive(drive)?;
    if owner == b"shared".as_slice() {
        return Some(DriveKind::Shared { drive });
    }
    let host = Name::new(owner)?;
    Some(DriveKind::Own { drive, host })
}

// What `drive` is followed by.
fn parse_drive_line(alloc: Global, text: &[u8]) -> Result<Option<DriveLine>, AllocError>
    ensures { IfOk result (λ o. IsReadAs o (codes "drive" ∷ words text.now)) }
{
    let Some((drive, blocks, owner, rest)) = split_three(text) else {
        return Ok(None);
    };
    let Some(kind) = parse_kind(drive, owner) else {
        return Ok(None);
    };
    let Some(blocks) = parse_blocks(blocks, 1) else {
        return Ok(None);
    };
    make_line(alloc, kind, blocks, rest)
}

// What `mediator` is followed by.
fn parse_mediator_line(alloc: Global, text: &[u8]) -> Result<Option<DriveLine>, AllocError>
    ensures { IfOk result (λ o. IsReadAs o (codes "mediator" ∷ words text.now)) }
{
    let Some((host, rest)) = first_word(text) else {
        return Ok(None);
    };
    let Some((blocks, rest)) = first_word(rest) else {
        return Ok(None);
    };
    let Some(host) = Name::new(host) else {
        return Ok(None);
    };
    let Some(blocks) = parse_blocks(blocks, 32) else {
        return Ok(None);
    };
    make_line(alloc, DriveKind::Mediator { host }, blocks, rest)
}

// The line of that kind whose last word is the name of a file.
fn make_line(
    alloc: Global,
    kind: DriveKind,
    blocks: u64,
    text: &[u8],
) -> Result<Option<DriveLine>, AllocError>
    ensures some { IfOk result (λ o. IfSome o (λ d. (d.kind ≡ kind) × (d.blocks ≡ blocks) ×
        (words text.now ≡ d.file ∷ []) × IsFileText d.file)) }
    ensures none { IfOk result (λ o. IfNone o ((file : List ℕ) → IsFileText file →
        words text.now ≡ file ∷ [] → ⊥)) }
{
    let Some(word) = only_word(text) else {
        return Ok(None);
    };
    match FileName::new(alloc, word)? {
        Some(file) => Ok(Some(DriveLine { kind, blocks, file })),
        None => Ok(None),
    }
}

// What the line says, where it has the form of one.
pub(crate) fn parse_entry(alloc: Global, line: &[u8]) -> Result<Option<Entry>, AllocError>
    ensures { IfOk result (λ o. IsEntryRead o (words line.now)) }
{
    let Some((word, rest)) = first_word(line) else {
        return Ok(None);
    };
    if word == b"host".as_slice() {
        return Ok(parse_host_line(rest).map(Entry::Host));
    }
    if word == b"slice".as_slice() {
        return Ok(parse_slice_line(rest).map(Entry::Slice));
    }
    if word == b"drive".as_slice() {
        return Ok(parse_drive_line(alloc, rest)?.map(Entry::Drive));
    }
    if word == b"mediator".as_slice() {
        return Ok(parse_mediator_line(alloc, rest)?.map(Entry::Drive));
    }
    Ok(None)
}
