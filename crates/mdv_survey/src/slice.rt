// The replicas of one slice, as far as each one before is readable.
ghost use Rattle.std.specs.Prelude.{◌≡◌, ◌==◌, ◌&&◌, ◌↔◌, ◌+◌, ◌*◌, ◌<◌, ◌≤◌, ◌^◌, Contains, length, slice_index_or, IsTrue, IfOk, IfSome};
ghost use Rattle.mdv_base.specs.Causes.{HasCause};
ghost use Rattle.mdv_name.specs.Sound.{IsSound};
ghost use Rattle.mdv_shelf.specs.Calls.{OnDrive};
ghost use Rattle.mdv_shelf.specs.Shelves.{DriveFailures, MadeCalls};
ghost use Rattle.mdv_shelf.specs.Tale.{last};
ghost use Rattle.mdv_replica.specs.Replica.{IsFormed, slot_blocks};
ghost use Rattle.mdv_replica.specs.declared.replica.Head.{Head};
ghost use Rattle.mdv_survey.specs.Counts.{IsBehindBy, IsCounted, IsNumberBy, IsSliceBy, IsVisitBy, ReadOn};
ghost use Rattle.mdv_survey.specs.Replica.{IsOnShelf, IsSeated, at_of};
ghost use Rattle.mdv_survey.specs.Others.{first_at, first_of, headed_flags, most_on, unread_flags};
ghost use Rattle.mdv_survey.specs.Slice.{IsSeenThere, IsVisitAnswer, ListsRest, Looks, LooksAtAll, LooksBehind, Visits};
ghost use Rattle.mdv_survey.specs.Slots.{OnlyReads, ReadAnswer};

use crate::body::{Body, ReadFault};
use crate::replica::{Finds, Other, Replica};
use crate::slots::slots_at;
use mdv_base::{Failed, Flags, Place};
use mdv_name::{Geometry, SliceLine};
use mdv_replica::{Head, MAX_BLOCKS, PlaceAt, Seen, inspect};
use mdv_shelf::Shelf;
use mdv_shown::Site;
use std::alloc::Global;

// The first replica begins at this block of its slice.
const FIRST_BLOCK: u32 = 16;

/// Looks at the replicas of the slice: at the first one, which tells how long they are and how many, and at each further one as long as the one
/// before is readable and it ends within the slice.
pub(crate) fn look_at_slice<S: Shelf>(
    shelf: &mut S,
    alloc: Global,
    geometry: &Geometry,
    site: &Site,
    line: SliceLine,
    finds: &mut Finds,
) -> Result<(), ReadFault>
    requires sound { IsSound geometry.now }
    requires on_shelf { IsOnShelf (S.sizes shelf.old) site.now }
    requires one_of { Contains site.now.lines line }
    ensures answer { ReadAnswer (DriveFailures S.Shelf shelf.old shelf.new line.at.drive.0) result }
    ensures listed { ListsRest site.now line 0 finds.old finds.new }
    ensures reads { OnlyReads S.Shelf (λ t. LooksAtAll geometry.now site.now line (last t) finds.old finds.new result) shelf.old shelf.new }
    ensures counted { IsCounted S.Shelf shelf.old shelf.new 765 (λ t n. (1 ≤ n) × IfOk result (λ _. IsSliceBy geometry.now site.now line (last t line.at.drive.0) n)) }
    ensures kept { ReadOn S.Shelf shelf.old shelf.new line.at.drive.0 }
{
    let seen = look_at(shelf, first_place(line))?;
    let found = seen.head;
    let Some(head) = found else {
        finds.add_other(first_other(line, seen.flags))?;
        return Ok(());
    };
    let first = Replica {
        line,
        number: 0,
        first: head.master,
        head,
    };
    let mut body = Body::new(alloc, head.master.blocks)?;
    if !visit(shelf, alloc, geometry, site, first, &mut body, finds)? {
        return Ok(());
    }
    look_behind(shelf, alloc, geometry, site, first, &mut body, finds)?;
    Ok(())
}

// Looks at the replicas behind the first one of a slice.
fn look_behind<S: Shelf>(
    shelf: &mut S,
    alloc: Global,
    geometry: &Geometry,
    site: &Site,
    first: Replica,
    body: &mut Body,
    finds: &mut Finds,
) -> Result<(), ReadFault>
    requires sound { IsSound geometry.now }
    requires on_shelf { IsOnShelf (S.sizes shelf.old) site.now }
    requires seated { IsSeated site.now first }
    requires whole { body.old ≡ slot_blocks first.first.blocks }
    ensures answer { ReadAnswer (DriveFailures S.Shelf shelf.old shelf.new first.line.at.drive.0) result }
    ensures listed { ListsRest site.now first.line 1 finds.old finds.new }
    ensures reads { OnlyReads S.Shelf (λ t. LooksBehind geometry.now site.now first.line first.first (last t) finds.old finds.new result) shelf.old shelf.new }
    ensures counted { IsCounted S.Shelf shelf.old shelf.new 762 (λ t n. IfOk result (λ _. IsBehindBy geometry.now site.now first.line first.first (last t first.line.at.drive.0) n)) }
    ensures kept { ReadOn S.Shelf shelf.old shelf.new first.line.at.drive.0 }
{
    for number in 1..first.first.count {
        if !look_at_number(shelf, alloc, geometry, site, first, number, body, finds)? {
            return Ok(());
        }
    }
    Ok(())
}

// Looks at the replica of this number on the slice of the first one. Tells whether it is readable.
fn look_at_number<S: Shelf>(
    shelf: &mut S,
    alloc: Global,
    geometry: &Geometry,
    site: &Site,
    first: Replica,
    number: u8,
    body: &mut Body,
    finds: &mut Finds,
) -> Result<bool, ReadFault>
    requires sound { IsSound geometry.now }
    requires on_shelf { IsOnShelf (S.sizes shelf.old) site.now }
    requires seated { IsSeated site.now first }
    requires behind { 0 < number }
    requires numbered { number < first.first.count }
    requires whole { body.old ≡ slot_blocks first.first.blocks }
    ensures whole { body.new ≡ body.old }
    ensures answer { IsVisitAnswer (DriveFailures S.Shelf shelf.old shelf.new first.line.at.drive.0) site.now first.line number finds.old finds.new result }
    ensures reads { OnlyReads S.Shelf (λ t. IfOk result (λ readable. Looks geometry.now site.now first.line first.first number (last t) readable finds.old finds.new)) shelf.old shelf.new }
    ensures counted { IsCounted S.Shelf shelf.old shelf.new 3 (λ t n. IfOk result (λ readable. IsNumberBy geometry.now site.now first.line first.first (last t first.line.at.drive.0) number readable n)) }
    ensures kept { ReadOn S.Shelf shelf.old shelf.new first.line.at.drive.0 }
{
    let next = Replica { number, ..first };
    if !ends_within(&next) {
        finds.add_other(next.as_other(unread(false, false)))?;
        return Ok(false);
    }
    let seen = look_at(shelf, next.at())?;
    let Some(head) = head_of_length(&seen, first.first.blocks) else {
        let located = is_located(&seen, first.first.blocks);
        finds.add_other(next.as_other(unread(located, seen.flags.form_fault)))?;
        return Ok(false);
    };
    visit(
        shelf,
        alloc,
        geometry,
        site,
        Replica { head, ..next },
        body,
        finds,
    )
}

// The head that was read, where it has that length.
fn head_of_length(seen: &Seen, blocks: u32) -> Option<Head>
    ensures some { IfSome result (λ head. (seen.now.head ≡ Some head) × (head.master.blocks ≡ blocks)) }
    ensures none { result ≡ None → (head : Head) → seen.now.head ≡ Some head → head.master.blocks ≡ blocks → ⊥ }
{
    match seen.head {
        Some(head) if head.master.blocks == blocks => Some(head),
        _ => None,
    }
}

// Whether a master of that length was read.
fn is_located(seen: &Seen, blocks: u32) -> bool
    ensures { result ≡ (seen.now.flags.located && (seen.now.place.blocks == blocks)) }
{
    seen.flags.located && seen.place.blocks == blocks
}

// The letters of a place without a head.
fn unread(located: bool, form_fault: bool) -> Flags
    ensures { result ≡ unread_flags located form_fault }
{
    Flags {
        located,
        form_fault,
        master_fault: !located,
        ..Flags::default()
    }
}

// The letters of one with a head, whose slots don't both fit, or do.
fn headed(body_fault: bool) -> Flags
    ensures { result ≡ headed_flags body_fault }
{
    Flags {
        located: true,
        body_fault,
        ..Flags::default()
    }
}

// The slice's first place, which has no head.
fn first_other(line: SliceLine, flags: Flags) -> Other
    ensures { result ≡ first_of line flags }
{
    Other {
        line,
        number: 0,
        start: FIRST_BLOCK,
        flags,
    }
}

// Whether the replica's blocks end within its slice.
fn ends_within(replica: &Replica) -> bool
    requires { replica.now.first.blocks ≤ 8192 }
    ensures { IsTrue result ↔ (16 + replica.now.number * replica.now.first.blocks + replica.now.first.blocks ≤ replica.now.line.at.blocks) }
{
    let blocks = u64::from(replica.first.blocks);
    u64::from(FIRST_BLOCK) + u64::from(replica.number) * blocks + blocks <= replica.line.at.blocks
}

// Reads the slots of a replica whose head was read, and adds it where it is readable and of the site's key. Tells whether it is readable.
fn visit<S: Shelf>(
    shelf: &mut S,
    alloc: Global,
    geometry: &Geometry,
    site: &Site,
    replica: Replica,
    body: &mut Body,
    finds: &mut Finds,
) -> Result<bool, ReadFault>
    requires sound { IsSound geometry.now }
    requires on_shelf { IsOnShelf (S.sizes shelf.old) site.now }
    requires seated { IsSeated site.now replica }
    requires whole { body.old ≡ slot_blocks replica.first.blocks }
    ensures whole { body.new ≡ body.old }
    ensures answer { IsVisitAnswer (DriveFailures S.Shelf shelf.old shelf.new replica.line.at.drive.0) site.now replica.line replica.number finds.old finds.new result }
    ensures reads { OnlyReads S.Shelf (λ t. IfOk result (Visits geometry.now site.now replica (last t) finds.old finds.new)) shelf.old shelf.new }
    ensures counted { IsCounted S.Shelf shelf.old shelf.new 2 (λ t n. IfOk result (λ readable. IsVisitBy geometry.now (at_of replica) (last t replica.line.at.drive.0) replica.head readable n)) }
    ensures kept { ReadOn S.Shelf shelf.old shelf.new replica.line.at.drive.0 }
{
    let at = replica.at();
    let Some(slots) = slots_at(shelf, alloc, geometry, at, &replica.head, body)? else {
        finds.add_other(replica.as_other(headed(true)))?;
        return Ok(false);
    };
    if !replica.head.master.key.is_same(&site.key) {
        finds.add_other(replica.as_other(headed(false)))?;
        return Ok(true);
    }
    finds.add(replica, slots.newest)?;
    Ok(true)
}

// The place of a slice's first replica, with the most blocks that it may have there.
fn first_place(line: SliceLine) -> PlaceAt
    requires least { 17 ≤ line.at.blocks }
    requires most { line.at.start + 16 < 2 ^ 64 }
    ensures { result ≡ first_at line (most_on line) }
{
    let most = u64::from(MAX_BLOCKS).min(line.at.blocks - u64::from(FIRST_BLOCK));
    PlaceAt {
        place: Place {
            slice: line.name,
            start: FIRST_BLOCK,
            blocks: most as u32,
        },
        drive: line.at.drive,
        first: line.at.start + u64::from(FIRST_BLOCK),
        index: 0,
        count: 0,
    }
}

// What the head of the place says.
fn look_at<S: Shelf>(shelf: &mut S, at: PlaceAt) -> Result<Seen, Failed>
    requires known { at.drive.0 < length (S.sizes shelf.old) }
    requires within { at.first < slice_index_or (S.sizes shelf.old) at.drive.0 0 }
    ensures form { IfOk result (λ seen. IfSome seen.head (IsFormed at (slice_index_or (S.sizes shelf.old) at.drive.0 0))) }
    ensures cause { HasCause (S.faults shelf.old (OnDrive at.drive.0)) (S.faults shelf.new (OnDrive at.drive.0)) result }
    ensures reads { OnlyReads S.Shelf (λ t. IfOk result (IsSeenThere at (slice_index_or (S.sizes shelf.old) at.drive.0 0) (last t at.drive.0))) shelf.old shelf.new }
    ensures counted { MadeCalls S.Shelf shelf.old shelf.new 1 0 }
    ensures kept { ReadOn S.Shelf shelf.old shelf.new at.drive.0 }
{
    let seen = inspect(shelf, at);
    if seen.flags.read_error {
        return Err(Failed);
    }
    Ok(seen)
}
