ghost use Rattle.std.specs.Prelude.{◌≡◌, Err, IfOk, None};
ghost use Rattle.mdv_encoding.specs.Below.{IsSound, NotARecord};
ghost use Rattle.mdv_encoding.specs.Parsing.{IsTextOf, read_of};
ghost use Rattle.mdv_encoding.specs.Record.{IsDecoded};

use crate::room::has_room;
use mdv_config::is_of_geometry;
use mdv_fields::RecordError;
use mdv_name::Geometry;
use mdv_plan::Table;
use mdv_whole::decode as decode_any;
use std::alloc::Global;

/// Reads the table whose text these bytes are, where it may be one of a database on these drives, each of whose
/// places has room for the text.
pub fn decode(alloc: Global, geometry: &Geometry, bytes: &[u8]) -> Result<Table, RecordError>
    requires { IsSound geometry.now }
    ensures decoded { IsDecoded geometry.now bytes.now result }
    ensures read { IfOk result (IsTextOf geometry.now bytes.now) }
    ensures none { result ≡ Err NotARecord → read_of geometry.now bytes.now ≡ None }
{
    let table = decode_any(alloc, bytes)?;
    if !has_room(&table.plan.lists, bytes.len()) {
        return Err(RecordError::NotARecord);
    }
    if is_of_geometry(&table, geometry) {
        Ok(table)
    } else {
        Err(RecordError::NotARecord)
    }
}
