//! The words of a line.
ghost use Rattle.std.specs.Prelude.{◌≡◌, ◌∷◌, ◌++◌, codes, decimal, OnOk};
ghost use Rattle.mdv_print.specs.Words.{pool_digits, part_word, next_word};
ghost use Rattle.mdv_print.specs.Below.{replicas_text, set_text};

use mdv_base::{Name, PoolId};
use mdv_name::{PoolName, VolName, print_pool, print_slice, print_volume};
use mdv_parts::Part;
use std::alloc::AllocError;

// Appends the word that spells the part.
pub(crate) fn add_word(text: &mut Vec<u8>, set: &Option<Name>, part: Part) -> Result<(), AllocError>
    ensures { OnOk result (text.new.items ≡ text.old.items ++ part_word set.now part) }
{
    match part {
        Part::Number(number) => add_number(text, number),
        Part::Size(blocks) => add_size(text, blocks),
        Part::Slice(slice) => print_slice(slice, text),
        Part::Volume(volume) => print_volume(&VolName { set: *set, volume }, text),
        Part::Pool(pool) => add_pool(text, set, pool),
        Part::Replicas(number) => add_replicas(text, number),
        Part::Letter(letter) => Ok(text.extend_from_slice(&[b'-', letter])?),
    }
}

// The same with a blank in front.
pub(crate) fn add_next(text: &mut Vec<u8>, set: &Option<Name>, part: Part) -> Result<(), AllocError>
    ensures { OnOk result (text.new.items ≡ text.old.items ++ next_word set.now part) }
{
    text.push(b' ')?;
    add_word(text, set, part)
}

fn add_number(text: &mut Vec<u8>, number: u64) -> Result<(), AllocError>
    ensures { OnOk result (text.new.items ≡ text.old.items ++ decimal number) }
{
    let digits = format!(in *text.allocator(); "{number}")?;
    text.extend_from_slice(digits.as_bytes())?;
    Ok(())
}

fn add_size(text: &mut Vec<u8>, blocks: u64) -> Result<(), AllocError>
    ensures { OnOk result (text.new.items ≡ text.old.items ++ (decimal blocks ++ codes "b")) }
{
    add_number(text, blocks)?;
    text.push(b'b')?;
    Ok(())
}

fn add_pool(text: &mut Vec<u8>, set: &Option<Name>, pool: PoolId) -> Result<(), AllocError>
    ensures { OnOk result (text.new.items ≡ text.old.items ++ (set_text set.now ++ (codes "hsp" ++ pool_digits pool.0))) }
{
    if pool.0 < 1000 {
        return print_pool(&PoolName { set: *set, pool }, text);
    }
    let number = pool.0;
    let alloc = *text.allocator();
    let word = match set {
        Some(set) => format!(in alloc; "{}/hsp{number}", set.as_str())?,
        None => format!(in alloc; "hsp{number}")?,
    };
    text.extend_from_slice(word.as_bytes())?;
    Ok(())
}

fn add_replicas(text: &mut Vec<u8>, number: u8) -> Result<(), AllocError>
    ensures { OnOk result (text.new.items ≡ text.old.items ++ replicas_text number) }
{
    text.extend_from_slice(b"mddb")?;
    text.extend_from_slice(&[b'0' + number / 10, b'0' + number % 10])?;
    Ok(())
}
