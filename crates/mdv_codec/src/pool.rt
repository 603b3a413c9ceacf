ghost use Rattle.mdv_codec.specs.Recorded.{PoolPartFits, pool_part_text};

use crate::recorded::RecordedPool;
use mdv_base::PoolId;
use mdv_fields::{Part, Reader, RecordError, read_long};
use std::alloc::Global;

impl Part for RecordedPool {
    ghost fits = { PoolPartFits };

    ghost text = { pool_part_text };

    #[tactic(auto, unfolding(crate::specs::Recorded::pool_part_text))]
    fn read(alloc: Global, rest: &mut Reader) -> Result<RecordedPool, RecordError> {
        let number = PoolId::read(alloc, rest)?;
        let spares = read_long(alloc, rest)?;
        Ok(RecordedPool { number, spares })
    }
}
