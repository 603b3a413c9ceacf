// Where a place lies.
ghost use Rattle.std.specs.Prelude.{◌≡◌, ◌<◌, ◌+◌, ◌*◌, ◌^◌};
ghost use Rattle.mdv_shown.specs.Site.{place_on};

use mdv_base::Place;
use mdv_name::SliceLine;
use mdv_replica::PlaceAt;

/// The place of this number on a slice that gets so many, each of so many blocks, one behind another from block 16 on.
pub fn place_at(line: SliceLine, blocks: u32, count: u8, number: u8) -> PlaceAt
    requires short { 16 + number * blocks < 2 ^ 32 }
    requires first { line.at.start + (16 + number * blocks) < 2 ^ 64 }
    ensures { result ≡ place_on line blocks count number }
{
    let start = 16 + u32::from(number) * blocks;
    PlaceAt {
        place: Place {
            slice: line.name,
            start,
            blocks,
        },
        drive: line.at.drive,
        first: line.at.start + u64::from(start),
        index: number,
        count,
    }
}
