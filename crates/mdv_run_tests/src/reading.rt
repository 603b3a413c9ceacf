// A place is read by comparing bytes, with nothing of the crates that write one. It lies from block 16 of slice 7 on, of a
// drive of controller 0 and disk 0, and the host is alpha.
ghost use Rattle.std.specs.Prelude.{◌≡◌, ◌<◌, ◌^◌, IfSome, None, length};
ghost use Rattle.mdv_run_tests.specs.Numbers.{IsMarked};

use crate::{Shown, ShownTable, ShownVolume};
use mdv_base::{Block, Identity, Mark};

/// The blocks of a place that say what it shows: its first four, and the first one of each slot's body; and the target
/// number of its drive.
#[derive(Clone, Copy)]
pub struct PlaceBlocks {
    pub target: u8,
    pub head: [Block; 4],
    pub first_body: Block,
    pub second_body: Block,
}

// What stands in a master behind the identity: the host and a controller; then, behind the target, the disk, the slice and
// the place's first block; then, behind its length, that it is 0 of 1.
const WHOSE: &[u8] = b"\0\x05alpha\0\0\0\0\0\0\0\0\0\0\0\0\0\0\0\0\0\0\0\0\0\0\0\0\0\0\0\0";

const WHERE: &[u8] = b"\0\x07\0\0\0\x10";

const ALONE: &[u8] = b"\0\x01";

// What stands in a record between its length and the target of this one place: one list. Behind the place come neither a set
// nor pools, and then the number of its volumes.
const ONE_PLACE: &[u8] = b"\x01\x01\0";

// What stands in a volume between its number and its drive's: a stripe without a pool, alone and of width 1, with an
// interlace of 32 blocks, on a slice.
const STRIPE: &[u8] = b"\0\0\0\0\0\x01\0\x01\0\0\0\x20\0";

/// What the place shows; None where it shows no table.
pub fn read_place(place: &PlaceBlocks) -> Option<Shown>
    ensures table { IfSome result (λ s. s.first ≡ None → s.second ≡ None → ⊥) }
    ensures within { IfSome result (λ s. (s.claim < 2 ^ 63) × IfSome s.first (λ t. IsMarked t.mark) × IfSome s.second (λ t. IsMarked t.mark)) }
{
    let [master, claim, first, second] = &place.head;
    let identity = identity_of(master, place.target)?;
    let blocks = number(&master[62..66]);
    let lies = Lies {
        target: place.target,
        blocks,
    };
    let claim = claim_of(claim)?;
    let first = table_of(first, &place.first_body, lies)?;
    let second = table_of(second, &place.second_body, lies)?;
    if first.is_none() && second.is_none() {
        return None;
    }
    Some(Shown {
        identity,
        blocks,
        claim,
        first,
        second,
    })
}

// Where a replica lies: the target of its drive, and how many blocks it has.
#[derive(Clone, Copy)]
struct Lies {
    target: u8,
    blocks: u64,
}

/// The block in which the second slot's body begins, counted from the place's first, where it has this master: behind four
/// blocks the slots have half of those that are left each.
pub fn second_body(master: &Block) -> u64 {
    let blocks = number(&master[62..66]).min(8192);
    (blocks.saturating_sub(4) / 2).saturating_add(4)
}

fn identity_of(master: &Block, target: u8) -> Option<Identity> {
    let blocks = number(&master[62..66]);
    if !begins(master, b"MDVREPL1")
        || !is_zero(behind(&master[20..62], WHOSE, target, WHERE)?)
        || !begins(&master[66..], ALONE)
        || !is_zero(&master[68..])
        || blocks < 16
        || blocks > 8192
    {
        return None;
    }
    Some(Identity {
        fresh: number(&master[8..16]),
        number: u32::try_from(number(&master[16..20])).ok()?,
    })
}

fn claim_of(claim: &Block) -> Option<u64>
    ensures { IfSome result (λ n. n < 2 ^ 63) }
{
    if !begins(claim, b"MDVCLAIM") || !is_zero(&claim[16..]) {
        return None;
    }
    below_limit(number(&claim[8..16]))
}

// The table of an open slot, none of a closed one; None where the gate isn't of its form, or stands open over a body
// that isn't the record of a table.
fn table_of(gate: &Block, body: &Block, lies: Lies) -> Option<Option<ShownTable>>
    ensures { IfSome result (λ t. IfSome t (λ t. IsMarked t.mark)) }
{
    if !begins(gate, b"MDVGATE1") || !is_zero(&gate[29..]) {
        return None;
    }
    match gate[8] {
        0 if is_zero(&gate[8..]) => Some(None),
        1 => {
            let mark = Mark {
                boot: below_limit(number(&gate[9..17]))?,
                count: below_limit(number(&gate[17..25]))?,
            };
            Some(Some(table_in(mark, body, number(&gate[25..29]), lies)?))
        }
        _ => None,
    }
}

// The table of this mark whose record of so many bytes stands in the body.
fn table_in(mark: Mark, body: &Block, bytes: u64, lies: Lies) -> Option<ShownTable>
    ensures { IfSome result (λ t. t.mark ≡ mark) }
{
    if !begins(body, b"MDVREC01")
        || number(&body[8..12]) != bytes
        || !is_zero(behind(&body[12..22], ONE_PLACE, lies.target, WHERE)?)
        || number(&body[22..26]) != lies.blocks
        || !is_zero(&body[26..34])
    {
        return None;
    }
    let count = match (number(&body[34..36]), bytes) {
        (0, 36) => 0,
        (1, 86) => 1,
        (2, 136) => 2,
        (3, 186) => 3,
        _ => return None,
    };
    Some(ShownTable {
        mark,
        volumes: [
            one_of(&body[36..86], count > 0)?,
            one_of(&body[86..136], count > 1)?,
            one_of(&body[136..186], count > 2)?,
        ],
    })
}

// The volume, where the table has so many.
fn one_of(text: &[u8], is_there: bool) -> Option<Option<ShownVolume>>
    requires { length text.now ≡ 50 }
{
    if is_there {
        Some(Some(volume_of(text)?))
    } else {
        Some(None)
    }
}

fn volume_of(text: &[u8]) -> Option<ShownVolume>
    requires { length text.now ≡ 50 }
{
    if !begins(&text[2..], STRIPE)
        || text[15] != 0
        || text[17] != 0
        || !is_zero(&text[19..27])
        || !is_zero(&text[35..])
    {
        return None;
    }
    Some(ShownVolume {
        number: u16::try_from(number(&text[..2])).ok()?,
        target: text[16],
        slice: text[18],
        blocks: number(&text[27..35]),
    })
}

// What stands behind two texts with a byte between them.
fn behind<'a>(bytes: &'a [u8], first: &[u8], between: u8, second: &[u8]) -> Option<&'a [u8]> {
    let (byte, rest) = bytes.strip_prefix(first)?.split_first()?;
    if *byte != between {
        return None;
    }
    rest.strip_prefix(second)
}

fn begins(bytes: &[u8], text: &[u8]) -> bool {
    bytes.starts_with(text)
}

fn is_zero(bytes: &[u8]) -> bool {
    bytes.iter().all(|byte| *byte == 0)
}

// The highest byte stands first.
fn number(bytes: &[u8]) -> u64 {
    let mut sum = 0_u64;
    for byte in bytes {
        sum = (sum << 8) | u64::from(*byte);
    }
    sum
}

fn below_limit(number: u64) -> Option<u64>
    ensures { IfSome result (λ n. n < 2 ^ 63) }
{
    if number < 1 << 63 { Some(number) } else { None }
}
