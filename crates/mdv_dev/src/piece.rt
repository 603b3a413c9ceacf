ghost use Rattle.std.specs.Prelude.{◌≡◌, ◌+◌, ◌<◌, ◌^◌, ◌&&◌, ◌==◌};

use mdv_base::DriveNo;

/// Blocks of a device that lie one behind another on a drive, from that block of it on.
#[derive(Clone, Copy, Debug)]
pub struct Piece {
    pub drive: DriveNo,
    pub block: u64,
    pub count: u64,
}

/// Whether the second one lies right behind the first, on the same drive.
pub fn is_behind(first: Piece, second: Piece) -> bool
    requires { first.block + first.count < 2 ^ 64 }
    ensures { result ≡ (second.drive.0 == first.drive.0 && second.block == first.block + first.count) }
{
    second.drive == first.drive && second.block == first.block + first.count
}
