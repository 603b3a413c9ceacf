ghost use Rattle.mdv_fitting.specs.Below.{IsSound};
ghost use Rattle.mdv_fitting.specs.Decoded.{IsDecodedOf};

use crate::fit::fits;
use mdv_fields::RecordError;
use mdv_name::Geometry;
use mdv_plan::Table;
use mdv_shape::is_shaped;
use std::alloc::Global;

/// Reads the table of this table of drives whose text these bytes are. `NotARecord` comes exactly where there is none.
pub fn decode(alloc: Global, geometry: &Geometry, bytes: &[u8]) -> Result<Table, RecordError>
    requires { IsSound geometry.now }
    ensures { IsDecodedOf geometry.now bytes.now result }
{
    let table = mdv_whole::decode(alloc, bytes)?;
    if !fits(alloc, geometry, &table.plan)? || !is_shaped(alloc, &table)? {
        return Err(RecordError::NotARecord);
    }
    Ok(table)
}
