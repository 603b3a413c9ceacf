ghost use Rattle.std.specs.Prelude.{◌≡◌, ◌+◌, ◌^◌, ◌<◌};
ghost use Rattle.mdv_map.specs.Maps.{chain_map};
ghost use Rattle.mdv_dev.specs.OneCopy.{chain_one};
ghost use Rattle.mdv_dev.specs.Pieces.{joined_piece};

use crate::{Piece, Placed};

/// A concatenation: all blocks of the front, and behind them those of the back, fewer than 2^64 together.
#[derive(Clone, Copy, Debug)]
pub struct Chain<A, B> {
    pub front: A,
    pub back: B,
}

impl<A: Placed, B: Placed> Placed for Chain<A, B> {
    ghost map = { λ chain. chain_map (A.map chain.front) (B.map chain.back) };

    ghost IsWell = { λ chain. A.IsWell chain.front × B.IsWell chain.back × ((A.map chain.front).blocks + (B.map chain.back).blocks < 2 ^ 64) };

    ghost bounded = { λ chain well. well.2 };

    ghost one = { λ chain well. chain_one (A.map chain.front) (B.map chain.back) (A.one chain.front well.0) (B.one chain.back well.1) };

    fn blocks(&self) -> u64 {
        self.front.blocks() + self.back.blocks()
    }

    fn piece(&self, at: u64, count: u64) -> Piece {
        let front = self.front.blocks();
        if at >= front {
            return self.back.piece(at - front, count);
        }
        if count <= front - at {
            return self.front.piece(at, count);
        }
        let piece = self.front.piece(at, front - at);
        if piece.count < front - at {
            return piece;
        }
        joined(piece, self.back.piece(0, count - (front - at)))
    }
}

// The first piece, with the second where that lies right behind it.
fn joined(first: Piece, second: Piece) -> Piece
    requires first { first.block + first.count < 2 ^ 64 }
    requires sum { first.count + second.count < 2 ^ 64 }
    ensures { result ≡ joined_piece first second }
{
    if first.drive == second.drive && first.block + first.count == second.block {
        Piece {
            drive: first.drive,
            block: first.block,
            count: first.count + second.count,
        }
    } else {
        first
    }
}
