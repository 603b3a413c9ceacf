ghost use Rattle.std.specs.Prelude.{◌≡◌, ◌<◌, ◌-◌, ◌^◌, ◌↔◌, length, min, IsErr, IfOk, IfErr, OnErr};
ghost use Rattle.mdv_encoding.specs.Below.{with_lists};
ghost use Rattle.mdv_encoding.specs.Record.{IsEncoded};
ghost use Rattle.mdv_encoding.specs.Text.{record_bytes, record_text};

use mdv_plan::{Lists, Table};
use mdv_whole::{TooLong, encode as encode_any, text_bytes as bytes_of, text_bytes_with};

/// Writes the table's text to the front of `out`, and tells how many bytes it has. It takes no memory. After `TooLong` all
/// bytes are as before.
pub fn encode(table: &Table, out: &mut [u8]) -> Result<usize, TooLong>
    ensures ok { IfOk result (IsEncoded table.now out.old out.new) }
    ensures too_long { IsErr result ↔ (min (length out.old) (2 ^ 32 - 1) < length (record_text table.now)) }
    ensures numbers { IfErr result (λ e. (e.bytes ≡ record_bytes table.now) × (e.room ≡ length out.old)) }
    ensures err { OnErr result (out.new ≡ out.old) }
{
    encode_any(table, out)
}

/// How many bytes the table's text has; 2^64 - 1 where it has more. The work is linear in the text.
pub fn text_bytes(table: &Table) -> u64
    ensures { result ≡ record_bytes table.now }
{
    bytes_of(table) as u64
}

/// How many bytes the table's text would have with these lists of places in place of its own; 2^64 - 1 where it had more.
pub fn bytes_with(table: &Table, lists: &Lists) -> u64
    ensures { result ≡ record_bytes (with_lists table.now lists.now) }
{
    text_bytes_with(table, lists) as u64
}
