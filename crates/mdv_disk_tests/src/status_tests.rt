ghost use Rattle.std.specs.Prelude.{◌≤◌, ◌<◌, ◌+◌, ◌^◌, length};

use mdv_base::{Block, ZERO_BLOCK};
use mdv_status::ValueText;
use std::alloc::Global;
use std::test::Fail;

// A block that begins with these bytes, and zeros behind them.
fn block(front: &[u8]) -> Block
    requires { length front.now ≤ 512 }
{
    let mut block = ZERO_BLOCK;
    block[..front.len()].copy_from_slice(front);
    block
}

fn is_told(alloc: Global, at: u64, blocks: &[Block], want: &str) -> Result<bool, Fail>
    requires { at + length blocks.now < 2 ^ 64 }
{
    let reply = ValueText::new(alloc, at, blocks)?;
    Ok(reply.as_bytes() == want.as_bytes())
}

fn is_counted(alloc: Global, count: u32, want: &str) -> Result<bool, Fail> {
    let reply = ValueText::of_entries(alloc, count)?;
    Ok(reply.as_bytes() == want.as_bytes())
}

#[test]
fn tells_how_many_entries(rt: HostRuntime) -> Result<(), Fail> {
    assert!(rt; is_counted(rt.alloc(), 0, "entries 0\nok\n")?);
    assert!(rt; is_counted(rt.alloc(), u32::MAX, "entries 4294967295\nok\n")?);
    Ok(())
}

#[test]
fn tells_blocks(rt: HostRuntime) -> Result<(), Fail> {
    let all = [0xff; 512];
    let two = [ZERO_BLOCK, block(&[1])];
    let last = [block(&[0x09, 0xa0]), block(&[0, 0xf0, 0, 0x0f, 0])];
    let end = "18446744073709551614 -\nok\n";
    assert!(rt; is_told(rt.alloc(), 7, &[], "ok\n")?);
    assert!(rt; is_told(rt.alloc(), 0, &two, "0 -\n1 01\nok\n")?);
    assert!(rt; is_told(rt.alloc(), 9, &last, "9 09a0\n10 00f0000f\nok\n")?);
    assert!(rt; is_told(rt.alloc(), u64::MAX - 1, &[ZERO_BLOCK], end)?);
    let whole = ValueText::new(rt.alloc(), 0, &[all])?;
    assert!(rt; whole.as_bytes().len() == 2 + 1024 + 1 + 3);
    Ok(())
}
