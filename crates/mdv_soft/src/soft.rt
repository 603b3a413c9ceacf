ghost use Rattle.std.specs.Prelude.{◌≡◌, ◌+◌, ◌<◌, ◌≤◌, ◌^◌, ◌&&◌, ◌==◌, IfOk, IfErr};
ghost use Rattle.mdv_dev.specs.Pieces.{IsPiece};
ghost use Rattle.mdv_dev.specs.Together.{LieTogether, LiesAs};
ghost use Rattle.mdv_soft.specs.OneCopy.{soft_bounded, soft_one};
ghost use Rattle.mdv_soft.specs.Softs.{IsNoSoft, IsSoft, picked, soft_on, total};

use crate::NoSoft;
use crate::judge::judge;
use crate::spot::spot_in;
use mdv_dev::{Piece, Placed, is_behind};
use mdv_extent::Run;

/// A soft partition, as `metainit d20 -p c0t0d0s1 -o 1 -b 100 -o 200 -b 50` of `metainit(1M)` makes it: the blocks of its extents follow one
/// another in their order, whatever their order on the base. The block before each extent has its header, which is no block of the soft
/// partition.
#[derive_where(Clone, Copy)]
#[derive_where(Debug; D)]
pub struct Soft<'a, D> {
    /// The slice or volume that it lies on.
    pub base: &'a D,
    /// 1 to 16 of them: the first block of each on the base, and how many it has. Headers aren't in them.
    pub extents: &'a [Run],
}

impl<'a, D: Placed> Soft<'a, D> {
    /// The soft partition of these extents, or the first cause for which there is none. It makes no call, and reads no header.
    pub fn new(base: &'a D, extents: &'a [Run]) -> Result<Soft<'a, D>, NoSoft>
        requires { D.IsWell base.now }
        ensures made { IfOk result (λ s. (s.base.now ≡ base.now) × (s.extents.now ≡ extents.now) × ⟦<Soft<'a, D> as Placed>⟧.IsWell s) }
        ensures refused { IfErr result (λ why. IsNoSoft (D.map base.now).blocks extents.now why) }
    {
        judge(base.blocks(), extents)?;
        Ok(Soft { base, extents })
    }

    /// Which block of the base the block is.
    pub fn at_of(&self, at: u64) -> u64
        requires well { ⟦<Soft<'a, D> as Placed>⟧.IsWell self.now }
        requires within { at < (⟦<Soft<'a, D> as Placed>⟧.map self.now).blocks }
        ensures exact { result ≡ picked self.now.extents.now at }
        ensures lies { LiesAs (⟦<Soft<'a, D> as Placed>⟧.map self.now) at (D.map self.now.base.now) result }
    {
        spot_in(self.extents, at).block
    }

    // The first of these blocks, as many as lie together in one extent.
    fn extent_piece(&self, at: u64, count: u64) -> Piece
        requires well { ⟦<Soft<'a, D> as Placed>⟧.IsWell self.now }
        requires some { 0 < count }
        requires within { at + count ≤ (⟦<Soft<'a, D> as Placed>⟧.map self.now).blocks }
        ensures { LieTogether (⟦<Soft<'a, D> as Placed>⟧.map self.now) at count result }
    {
        let spot = spot_in(self.extents, at);
        self.base.piece(spot.block, count.min(spot.left))
    }
}

// How many blocks they have together.
fn total_blocks(extents: &[Run]) -> u64
    requires { total extents.now < 2 ^ 64 }
    ensures { result ≡ total extents.now }
{
    extents.iter().map(|run| run.blocks).sum()
}

impl<'a, D: Placed> Placed for Soft<'a, D> {
    ghost map = { λ soft. soft_on (D.map soft.base.now) soft.extents.now };

    ghost IsWell = { λ soft. D.IsWell soft.base.now × IsSoft (D.map soft.base.now).blocks soft.extents.now };

    ghost bounded = { λ soft well. soft_bounded (D.map soft.base.now) soft.extents.now (D.bounded soft.base.now well.0) well.1 };

    ghost one = { λ soft well. soft_one (D.map soft.base.now) soft.extents.now (D.one soft.base.now well.0) well.1 };

    fn blocks(&self) -> u64 {
        total_blocks(self.extents)
    }

    fn piece(&self, at: u64, count: u64) -> Piece {
        let mut piece = self.extent_piece(at, count);
        while piece.count < count {
            let next = self.extent_piece(at + piece.count, count - piece.count);
            if !is_behind(piece, next) {
                return piece;
            }
            piece.count += next.count;
        }
        piece
    }
}
