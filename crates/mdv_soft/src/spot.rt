ghost use Rattle.std.specs.Prelude.{◌≡◌, ◌+◌, ◌<◌, ◌^◌};
ghost use Rattle.std.specs.List.{All};
ghost use Rattle.mdv_extent.specs.declared.run.Run.{Run};
ghost use Rattle.mdv_soft.specs.Softs.{left_in, picked, total};

use mdv_extent::Run;

/// Where a block of a soft partition lies in its extent.
#[derive(Clone, Copy)]
pub(crate) struct Spot {
    /// The block of the base.
    pub block: u64,
    /// How many blocks of the extent there are from that one on.
    pub left: u64,
}

/// Where a block lies in extents that follow one another.
pub(crate) fn spot_in(extents: &[Run], at: u64) -> Spot
    requires fits { All (λ (r : Run). r.at + r.blocks < 2 ^ 64) extents.now }
    requires within { at < total extents.now }
    ensures block { result.block ≡ picked extents.now at }
    ensures left { result.left ≡ left_in extents.now at }
{
    let mut behind = at;
    for run in extents {
        if behind < run.blocks {
            return Spot {
                block: run.at + behind,
                left: run.blocks - behind,
            };
        }
        behind -= run.blocks;
    }
    unreachable!()
}
