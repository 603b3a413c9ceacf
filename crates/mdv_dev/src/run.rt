ghost use Rattle.std.specs.Prelude.{◌≡◌, ◌+◌, ◌^◌, ◌<◌};
ghost use Rattle.mdv_map.specs.Maps.{run_map};
ghost use Rattle.mdv_dev.specs.OneCopy.{run_bounded, run_one};

use crate::{Piece, Placed};
use mdv_base::DriveNo;

/// So many blocks of a drive, from that one on: a slice, or a part of one. They end below block 2^64 of the drive.
#[derive(Clone, Copy, Debug)]
pub struct DriveRun {
    pub drive: DriveNo,
    pub first: u64,
    pub count: u64,
}

impl Placed for DriveRun {
    ghost map = { λ run. run_map run.drive.0 run.first run.count };

    ghost IsWell = { λ run. run.first + run.count < 2 ^ 64 };

    ghost bounded = { λ run well. run_bounded run.drive.0 run.first run.count well };

    ghost one = { λ run well. run_one run.drive.0 run.first run.count };

    fn blocks(&self) -> u64 {
        self.count
    }

    fn piece(&self, at: u64, count: u64) -> Piece {
        Piece {
            drive: self.drive,
            block: self.first + at,
            count,
        }
    }
}
