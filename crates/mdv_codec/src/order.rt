ghost use Rattle.std.specs.Prelude.{◌<◌, ◌↔◌, IsTrue};
ghost use Rattle.std.proofs.Common.{rules};
ghost use Rattle.mdv_codec.specs.Record.{IsBehindPool, IsBehindVolume};

use crate::recorded::{RecordedPool, RecordedVolume};
use mdv_base::{PoolId, VolId};
use mdv_fields::Ordered;

impl Ordered for RecordedPool {
    ghost below = { IsBehindPool };

    fn is_below(&self, other: &RecordedPool) -> bool {
        is_pool_below(self.number, other.number)
    }

    ghost follows = { Prim.search rules };
}

impl Ordered for RecordedVolume {
    ghost below = { IsBehindVolume };

    fn is_below(&self, other: &RecordedVolume) -> bool {
        is_volume_below(self.number, other.number)
    }

    ghost follows = { Prim.search rules };
}

fn is_pool_below(pool: PoolId, other: PoolId) -> bool
    ensures { IsTrue result ↔ (pool.0 < other.0) }
{
    pool.0 < other.0
}

fn is_volume_below(volume: VolId, other: VolId) -> bool
    ensures { IsTrue result ↔ (volume.0 < other.0) }
{
    other.0 > volume.0
}
