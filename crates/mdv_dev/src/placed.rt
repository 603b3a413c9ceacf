ghost use Rattle.std.specs.Prelude.{◌≡◌, ◌+◌, ◌<◌, ◌≤◌, ◌^◌};
ghost use Rattle.mdv_map.specs.Maps.{Map};
ghost use Rattle.mdv_dev.specs.Pieces.{IsPiece, IsOneCopy};

use crate::Piece;

/// A device each of whose blocks lies in one place: a run of a drive, and what is made of such. It makes no call and knows no
/// shelf.
pub trait Placed {
    /// Where its blocks lie.
    ghost map: { Self → Map };

    /// That it was made well.
    ghost IsWell: { Self → Type 0 };

    /// How many blocks it has.
    fn blocks(&self) -> u64
        requires { IsWell self.now }
        ensures { result ≡ (map self.now).blocks };

    /// The first of these blocks, as many as lie together.
    fn piece(&self, at: u64, count: u64) -> Piece
        requires well { IsWell self.now }
        requires some { 0 < count }
        requires within { at + count ≤ (map self.now).blocks }
        ensures { IsPiece (map self.now) at count result };

    // it has fewer than 2^64 blocks, each of one copy
    ghost bounded: { (d : Self) → IsWell d → (map d).blocks < 2 ^ 64 };

    ghost one: { (d : Self) → IsWell d → IsOneCopy (map d) };
}
