// How a database is made: its places are formatted, and then its first table is written to them.
ghost use Rattle.std.specs.Prelude.{◌≡◌, ◌<◌, ◌≤◌, ◌+◌, ◌*◌, ◌^◌, ◌++◌, [], ◌∷◌, Some, IfOk, OnOk, length};
ghost use Rattle.mdv_shelf.specs.Drives.{KeptAmong};
ghost use Rattle.mdv_shelf.specs.Shelves.{AtEachTale, AtEnd, DriveFailures};
ghost use Rattle.mdv_base.specs.Name.{IsName};
ghost use Rattle.mdv_replica.specs.Forms.{name_of_key};
ghost use Rattle.mdv_acts.specs.Asked.{AreAsked, drives_asked};
ghost use Rattle.mdv_store.specs.Create.{CreateEnds, CreateMoment, IsCreated, IsCreationCounted, replica_on as spec_replica_on, seats_asked as spec_seats_asked, seats_on, table_of};

use crate::listing::room_of;
use crate::seats::{Need, Seat, Share, short};
use crate::store::Store;
use crate::writing::write_all;
use mdv_acts::{Owner, clear_all, format_all};
use mdv_base::{Failed, Identity, Key, Mark, Place, Places};
use mdv_name::SliceLine;
use mdv_plan::Table;
use mdv_replica::{Gate, Head, Master};
use mdv_shelf::Shelf;
use mdv_survey::Replica;
use mdv_votes::Row;
use std::alloc::{AllocError, Global};

/// Why a creation failed.
#[derive(Clone, Copy, Debug, PartialEq, Eq)]
pub enum CreateFault {
    /// A call failed before the first table was begun. Places may be blank or formatted; none shows a table of the new database.
    Failed,
    /// Fewer than half of the places took the first table.
    Lost { active: u32, listed: u32 },
    /// Memory was refused; nothing was done.
    Memory,
}

impl From<AllocError> for CreateFault {
    ghost use Rattle.mdv_store.specs.declared.creating.CreateFault.TheVariants.{Memory};

    ghost from_gives = { λ _ fault. fault ≡ Memory };

    fn from(_error: AllocError) -> CreateFault {
        CreateFault::Memory
    }
}

impl From<Failed> for CreateFault {
    ghost use Rattle.mdv_store.specs.declared.creating.CreateFault.TheVariants.{Failed};

    ghost from_gives = { λ _ fault. fault ≡ Failed };

    fn from(_error: Failed) -> CreateFault {
        CreateFault::Failed
    }
}

/// Makes the database, with so many replicas of so many blocks on each of these slices, one behind another from block 16 on. Where a slice gets more
/// than one, their masters are blanked first, that of the first place before all others: so no replica that lay there is found any more, whatever is
/// blanked and formatted behind it. Then each place is formatted with claim 1, and the table of a new database that lists them all is written to each under
/// the mark (1, 0). At least half of them have to take it.
pub fn create<S: Shelf>(
    shelf: &mut S,
    alloc: Global,
    key: &Key,
    identity: Identity,
    lines: &[SliceLine],
    count: u8,
    blocks: u32,
) -> Result<Store, CreateFault>
    requires asked { AreAsked (S.sizes shelf.old) lines.now count blocks }
    ensures answer { IsCreated S.Shelf shelf.old shelf.new key.now identity lines.now count blocks result }
    ensures moments { AtEachTale S.Shelf (CreateMoment key.now identity lines.now count blocks) shelf.old shelf.new }
    ensures end { AtEnd S.Shelf (CreateEnds key.now identity lines.now count blocks result) shelf.old shelf.new }
    ensures counted { IsCreationCounted S.Shelf shelf.old shelf.new lines.now count blocks result }
    ensures kept { KeptAmong S.Shelf shelf.old shelf.new (drives_asked lines.now) }
{
    check_owner(key, identity);
    let mut seats = seats_asked(alloc, key, identity, lines, count, blocks)?;
    let table = table_asked(alloc, seats.as_slice());
    let mut room = room_of(alloc, &table.plan.lists)?;
    clear_all(shelf, lines, count, blocks)?;
    let owner = Owner {
        key: *key,
        identity,
        claim: 1,
    };
    format_all(shelf, &owner, lines, count, blocks)?;
    let mark = Mark { boot: 1, count: 0 };
    write_all(shelf, &mut seats, mark, &table, &mut room);
    if let Some(share) = short(seats.as_slice(), &table.plan.lists, Need::Half) {
        return Err(lost(share));
    }
    Ok(Store {
        key: *key,
        identity,
        mark,
        table,
        seats,
        room,
    })
}

fn lost(share: Share) -> CreateFault
    ensures { result ≡ CreateFault.Lost share.active share.listed }
{
    CreateFault::Lost {
        active: share.active,
        listed: share.listed,
    }
}

// Whose database it is can be spelled in a master.
fn check_owner(key: &Key, identity: Identity)
    ensures fresh { identity.fresh < 2 ^ 64 }
    ensures number { identity.number < 2 ^ 32 }
    ensures name { IsName (name_of_key key.now) }
{
    let _fresh = identity.fresh;
    let _number = identity.number;
    let _name = name_bytes(key);
}

// The name of a host or a set.
fn name_bytes(key: &Key) -> &[u8]
    ensures { IsName (name_of_key key.now) }
{
    match key {
        Key::Local(name) => name.as_bytes(),
        Key::Set(name) => name.as_bytes(),
    }
}

/// The places that are asked for, each with its replica as a creation formats it.
pub fn seats_asked(
    alloc: Global,
    key: &Key,
    identity: Identity,
    lines: &[SliceLine],
    count: u8,
    blocks: u32,
) -> Result<Row<Seat>, AllocError>
    requires few { count ≤ 50 }
    requires most { blocks ≤ 8192 }
    ensures { IfOk result (λ seats. seats ≡ spec_seats_asked key.now identity lines.now count blocks) }
{
    let mut seats = Row::new(alloc);
    for line in lines {
        add_seats(&mut seats, key, identity, *line, count, blocks)?;
    }
    Ok(seats)
}

// Those of a slice.
fn add_seats(
    seats: &mut Row<Seat>,
    key: &Key,
    identity: Identity,
    line: SliceLine,
    count: u8,
    blocks: u32,
) -> Result<(), AllocError>
    requires few { count ≤ 50 }
    requires most { blocks ≤ 8192 }
    ensures { OnOk result (seats.new ≡ seats.old ++ seats_on key.now identity line count blocks 0 count) }
{
    for number in 0..count {
        let place = place_on(line, blocks, number);
        let replica = replica_on(key, identity, line, count, blocks, number);
        add_seat(seats, place, replica)?;
    }
    Ok(())
}

fn add_seat(seats: &mut Row<Seat>, place: Place, replica: Replica) -> Result<(), AllocError>
    ensures { OnOk result (seats.new ≡ seats.old ++ (record { place = place; replica = Some replica }) ∷ []) }
{
    seats.push(Seat {
        place,
        replica: Some(replica),
    })?;
    Ok(())
}

fn place_on(line: SliceLine, blocks: u32, number: u8) -> Place
    requires { 16 + number * blocks < 2 ^ 32 }
    ensures { result ≡ record { slice = line.name; start = 16 + number * blocks; blocks = blocks } }
{
    Place {
        slice: line.name,
        start: 16 + u32::from(number) * blocks,
        blocks,
    }
}

fn replica_on(
    key: &Key,
    identity: Identity,
    line: SliceLine,
    count: u8,
    blocks: u32,
    number: u8,
) -> Replica
    requires { 16 + number * blocks < 2 ^ 32 }
    ensures { result ≡ spec_replica_on key.now identity line count blocks number }
{
    let first = Master {
        identity,
        key: *key,
        slice: line.name,
        start: 16,
        blocks,
        index: 0,
        count,
    };
    let start = 16 + u32::from(number) * blocks;
    let head = Head {
        master: Master {
            start,
            index: number,
            ..first
        },
        claim: 1,
        first: Gate::Closed,
        second: Gate::Closed,
    };
    Replica {
        line,
        number,
        first,
        head,
    }
}

fn table_asked(alloc: Global, seats: &[Seat]) -> Table
    requires { length seats.now ≤ 50 }
    ensures { result ≡ table_of seats.now }
{
    let mut places = Places::new();
    for seat in seats {
        places.push(seat.place);
    }
    Table::empty(alloc, places)
}
