ghost use Rattle.std.specs.Prelude.{◌≡◌, ◌↔◌, false, ◌+◌, ◌<◌, ◌^◌, ◌∷◌, [], ◌++◌, length, decimal, flat_map, IsTrue, IfOk, OnOk};
ghost use Rattle.std.specs.Fmt.{digit_glyph};
ghost use Rattle.mdv_status.specs.Values.{hex_byte, significant as spec_significant, block_text, value_line, values_text, values_reply, entries_reply, printed_reply};

use itoa::Buffer;
use mdv_base::Block;
use std::alloc::{AllocError, Global};
use std::marker::Model;

const OK: &[u8] = b"ok\n";

const ENTRIES: &[u8] = b"entries ";

// So many bytes at the end of a block are looked at together.
const CHUNK: usize = 64;

/// The whole reply to a read, to a block of entries or to a print, as it is told at once.
#[derive(Drop)]
pub struct ValueText {
    text: Vec<u8>,
}

impl Model for ValueText {
    ghost use Rattle.std.specs.Prelude.{ℕ, List};

    ghost Value = { List ℕ };

    ghost view = { λ t. t.text.items };
}

impl ValueText {
    /// The reply that tells these blocks, of which the first is the volume's block `at`. It fails only
    /// where memory is refused; the reply takes at most 1,046 bytes for each block and 3 for its end.
    pub fn new(alloc: Global, at: u64, blocks: &[Block]) -> Result<ValueText, AllocError>
        requires { at + length blocks.now < 2 ^ 64 }
        ensures { IfOk result (λ text. text ≡ values_reply at blocks.now) }
    {
        let mut text = Vec::new(alloc);
        push_lines(&mut text, at, blocks)?;
        text.extend_from_slice(OK)?;
        Ok(ValueText { text })
    }

    /// The reply that tells how many entries a block has. It fails only where memory is refused.
    pub fn of_entries(alloc: Global, count: u32) -> Result<ValueText, AllocError>
        ensures { IfOk result (λ text. text ≡ entries_reply count) }
    {
        let mut number = Buffer::new();
        let mut text = Vec::new(alloc);
        text.extend_from_slice(ENTRIES)?;
        text.extend_from_slice(number.format(count).as_bytes())?;
        text.push(b'\n')?;
        text.extend_from_slice(OK)?;
        Ok(ValueText { text })
    }

    /// The reply that tells these lines. It takes their memory and copies none of it, and fails only
    /// where there is no room in it for the 3 bytes of the end and more is refused.
    pub fn of_lines(lines: Vec<u8>) -> Result<ValueText, AllocError>
        ensures { IfOk result (λ text. text ≡ printed_reply lines.items) }
    {
        let mut text = lines;
        text.extend_from_slice(OK)?;
        Ok(ValueText { text })
    }

    pub fn as_bytes(&self) -> &[u8]
        ensures { result.now ≡ self.now }
    {
        self.text.as_slice()
    }
}

fn push_lines(text: &mut Vec<u8>, at: u64, blocks: &[Block]) -> Result<(), AllocError>
    requires { at + length blocks.now < 2 ^ 64 }
    ensures { OnOk result (text.new.items ≡ text.old.items ++ values_text at blocks.now) }
{
    for (index, block) in blocks.iter().enumerate() {
        push_line(text, at + index as u64, block)?;
    }
    Ok(())
}

fn push_line(text: &mut Vec<u8>, at: u64, block: &[u8]) -> Result<(), AllocError>
    ensures { OnOk result (text.new.items ≡ text.old.items ++ value_line at block.now) }
{
    let mut number = Buffer::new();
    text.extend_from_slice(number.format(at).as_bytes())?;
    text.push(b' ')?;
    push_block(text, block)?;
    text.push(b'\n')?;
    Ok(())
}

fn push_block(text: &mut Vec<u8>, block: &[u8]) -> Result<(), AllocError>
    ensures { OnOk result (text.new.items ≡ text.old.items ++ block_text block.now) }
{
    let bytes = significant(block);
    if bytes.is_empty() {
        text.push(b'-')?;
    } else {
        push_digits(text, bytes)?;
    }
    Ok(())
}

// The bytes without the zeros behind the last other one.
fn significant(block: &[u8]) -> &[u8]
    ensures { result.now ≡ spec_significant block.now }
{
    let mut bytes = without_blank(block);
    while let [front @ .., last] = bytes {
        if *last != 0 {
            break;
        }
        bytes = front;
    }
    bytes
}

// The bytes without the chunks of zeros behind the last other one.
fn without_blank(block: &[u8]) -> &[u8]
    ensures { spec_significant result.now ≡ spec_significant block.now }
{
    let mut bytes = block;
    while let Some((front, last)) = bytes.split_last_chunk::<CHUNK>() {
        if !is_blank(last) {
            break;
        }
        bytes = front;
    }
    bytes
}

// Whether all are zeros. No byte ends the loop, so that a machine takes many of them at once.
fn is_blank(bytes: &[u8; CHUNK]) -> bool
    ensures { IsTrue result ↔ (spec_significant bytes.now ≡ []) }
{
    let mut bits = 0;
    for byte in bytes {
        bits |= *byte;
    }
    bits == 0
}

fn push_digits(text: &mut Vec<u8>, bytes: &[u8]) -> Result<(), AllocError>
    ensures { OnOk result (text.new.items ≡ text.old.items ++ flat_map hex_byte bytes.now) }
{
    for byte in bytes {
        text.push(hex_digit(byte / 16))?;
        text.push(hex_digit(byte % 16))?;
    }
    Ok(())
}

fn hex_digit(value: u8) -> u8
    requires { value < 16 }
    ensures { result ≡ digit_glyph false value }
{
    match value {
        0..=9 => b'0' + value,
        _ => b'a' + (value - 10),
    }
}
