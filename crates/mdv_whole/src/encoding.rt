ghost use Rattle.std.specs.Prelude.{◌≡◌, ◌<◌, ◌≤◌, ◌-◌, ◌^◌, ◌↔◌, length, map, min, IsErr, IfOk, IfErr, OnErr};
ghost use Rattle.mdv_codec.specs.Record.{front_text, body_text};
ghost use Rattle.mdv_codec.specs.Recorded.{pool_part_text, volume_text};
ghost use Rattle.mdv_fields.specs.Laying.{IsPlaced, IsLaid};
ghost use Rattle.mdv_fields.specs.Reading.{long_text};
ghost use Rattle.mdv_whole.specs.Sides.{beside, front_with, pool_of, recorded_with, volume_of};
ghost use Rattle.mdv_whole.specs.Text.{table_text, text_with};

use crate::beside::{lay_all, lay_pairs};
use crate::spares::States;
use mdv_codec::HEAD;
use mdv_fields::{Spelled, lay, lay_short};
use mdv_plan::{Lists, Plan, Pool, Table, Volume, VolumeStatus};

/// The bytes of the head and of the length behind it.
const HEAD_BYTES: usize = 12;

/// A text has so many bytes, and there is room for so many. A text of 2^32 bytes or more has no length.
#[derive(Clone, Copy, Debug, PartialEq, Eq)]
pub struct TooLong {
    pub bytes: u64,
    pub room: u64,
}

/// How many bytes the table's text has; 2^64 - 1 where it has more. It takes no memory.
pub fn text_bytes(table: &Table) -> usize
    ensures { result ≡ min (length (table_text table.now)) (2 ^ 64 - 1) }
{
    text_bytes_with(table, &table.plan.lists)
}

/// How many bytes the table's text would have with these lists of places in place of its own; 2^64 - 1 where it had more.
pub fn text_bytes_with(table: &Table, lists: &Lists) -> usize
    ensures { result ≡ min (length (text_with table.now lists.now)) (2 ^ 64 - 1) }
{
    let mut nothing: [u8; 0] = [];
    lay_body(&mut nothing, HEAD_BYTES, table, lists)
}

/// Writes the table's text to the front of `out`, and tells how many bytes it has. It takes no memory. After TooLong all
/// bytes are as before.
pub fn encode(table: &Table, out: &mut [u8]) -> Result<usize, TooLong>
    ensures ok { IfOk result (IsPlaced 0 out.old out.new (table_text table.now)) }
    ensures too_long { IsErr result ↔ (min (length out.old) (2 ^ 32 - 1) < length (table_text table.now)) }
    ensures numbers { IfErr result (λ e. (e.bytes ≡ min (length (table_text table.now)) (2 ^ 64 - 1)) × (e.room ≡ length out.old)) }
    ensures err { OnErr result (out.new ≡ out.old) }
{
    let bytes = text_bytes(table);
    let room = out.len();
    let most = room.min(u32::MAX as usize);
    if bytes > most {
        let bytes = bytes as u64;
        let room = room as u64;
        return Err(TooLong { bytes, room });
    }
    Ok(lay_table(out, table, bytes as u32))
}

// The whole text, which has so many bytes.
fn lay_table(out: &mut [u8], table: &Table, bytes: u32) -> usize
    requires { bytes ≡ length (table_text table.now) }
    ensures { IsLaid 0 out.old out.new (table_text table.now) result }
{
    let used = lay(out, 0, HEAD);
    let used = bytes.lay(out, used);
    lay_body(out, used, table, &table.plan.lists)
}

// What stands behind the length, with these lists of places.
fn lay_body(out: &mut [u8], used: usize, table: &Table, lists: &Lists) -> usize
    ensures { IsLaid used out.old out.new (body_text (recorded_with table.now lists.now)) result }
{
    let Table { plan, status } = table;
    let used = lay_front(out, used, plan, lists);
    let used = lay_pools(out, used, plan.pools.as_slice(), &status.spares);
    lay_volumes(
        out,
        used,
        plan.volumes.as_slice(),
        status.volumes.as_slice(),
    )
}

fn lay_front(out: &mut [u8], used: usize, plan: &Plan, lists: &Lists) -> usize
    ensures { IsLaid used out.old out.new (front_text (front_with plan.now lists.now)) result }
{
    let used = lists.lay(out, used);
    let used = plan.set.lay(out, used);
    lay_short(out, used, plan.pending.as_slice())
}

fn lay_pools(out: &mut [u8], used: usize, pools: &[Pool], states: &States) -> usize
    requires { length pools.now ≤ 1000 }
    ensures { IsLaid used out.old out.new (long_text pool_part_text (map (pool_of states.now) pools.now)) result }
{
    let used = (pools.len() as u16).lay(out, used);
    lay_all(out, used, pools, states)
}

fn lay_volumes(out: &mut [u8], used: usize, volumes: &[Volume], noted: &[VolumeStatus]) -> usize
    requires { length volumes.now ≤ 8192 }
    ensures { IsLaid used out.old out.new
        (long_text volume_text (beside volume_of volumes.now noted.now)) result }
{
    let count = volumes.len().min(noted.len());
    let used = (count as u16).lay(out, used);
    lay_pairs(out, used, volumes, noted)
}
