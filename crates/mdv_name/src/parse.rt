ghost use Rattle.std.specs.Prelude.{◌≡◌, ◌<◌, ◌+◌, ℕ, IfSome, IfNone};
ghost use Rattle.mdv_base.specs.declared.drive.SliceName.{SliceName};
ghost use Rattle.mdv_name.specs.declared.volume.VolName.{VolName};
ghost use Rattle.mdv_name.specs.declared.volume.PoolName.{PoolName};
ghost use Rattle.mdv_name.specs.Drive.{IsSliceName, SpellsSlice};
ghost use Rattle.mdv_name.specs.Volume.{IsVolName, IsPoolName, SpellsVolume, SpellsDevice};
ghost use Rattle.mdv_name.specs.Volume.{SpellsInDirectory, number_text, volume_text, pool_text};
ghost use Rattle.mdv_name.specs.Volume.{pool_number_text};

use crate::drive::parse_plain_slice;
use crate::path::{split_at_stroke, strip};
use crate::volume::{PoolName, VOLUME_LIMIT, VolName};
use mdv_base::{Name, PoolId, SliceName, VolId};
use mdv_text::number;

/// The slice that `cXtYdZsN` names, also behind `/dev/dsk/` or `/dev/rdsk/`.
pub fn parse_slice(text: &[u8]) -> Option<SliceName>
    ensures value { IfSome result (λ s. SpellsSlice s text.now) }
    ensures form { IfSome result IsSliceName }
    ensures none { IfNone result ((s : SliceName) → IsSliceName s → SpellsSlice s text.now → ⊥) }
{
    if let Some(name) = strip(b"/dev/dsk/", text) {
        return parse_plain_slice(name);
    }
    match strip(b"/dev/rdsk/", text) {
        Some(name) => parse_plain_slice(name),
        None => parse_plain_slice(text),
    }
}

/// The volume that `dN` or `SET/dN` names, N from 0 to 8191, also as a device below `/dev/md/`:
/// `/dev/md/dsk/dN`, `/dev/md/SET/dsk/dN`, or with `rdsk` for `dsk`.
pub fn parse_volume(text: &[u8]) -> Option<VolName>
    ensures value { IfSome result (λ v. SpellsVolume v text.now) }
    ensures form { IfSome result IsVolName }
    ensures none { IfNone result ((v : VolName) → IsVolName v → SpellsVolume v text.now → ⊥) }
{
    match strip(b"/dev/md/", text) {
        Some(path) => parse_device(path),
        None => parse_plain_volume(text),
    }
}

// `dN` or `SET/dN`.
fn parse_plain_volume(text: &[u8]) -> Option<VolName>
    ensures value { IfSome result (λ v. text.now ≡ volume_text v) }
    ensures form { IfSome result IsVolName }
    ensures none { IfNone result ((v : VolName) → IsVolName v → text.now ≡ volume_text v → ⊥) }
{
    if let Some(volume) = parse_volume_number(text) {
        return Some(VolName { set: None, volume });
    }
    let (front, rest) = split_at_stroke(text)?;
    let set = Name::new(front)?;
    let volume = parse_volume_number(rest)?;
    Some(VolName {
        set: Some(set),
        volume,
    })
}

// `dsk/dN`, `SET/dsk/dN`, or with `rdsk` for `dsk`.
fn parse_device(path: &[u8]) -> Option<VolName>
    ensures value { IfSome result (λ v. SpellsDevice v path.now) }
    ensures form { IfSome result IsVolName }
    ensures none { IfNone result ((v : VolName) → IsVolName v → SpellsDevice v path.now → ⊥) }
{
    if let Some(volume) = parse_in_directory(path) {
        return Some(VolName { set: None, volume });
    }
    let (front, rest) = split_at_stroke(path)?;
    let set = Name::new(front)?;
    let volume = parse_in_directory(rest)?;
    Some(VolName {
        set: Some(set),
        volume,
    })
}

// `dsk/dN` or `rdsk/dN`.
fn parse_in_directory(path: &[u8]) -> Option<VolId>
    ensures value { IfSome result (λ v. SpellsInDirectory v.0 path.now) }
    ensures form { IfSome result (λ v. v.0 < 8192) }
    ensures none { IfNone result ((n : ℕ) → n < 8192 → SpellsInDirectory n path.now → ⊥) }
{
    match strip(b"dsk/", path) {
        Some(name) => parse_volume_number(name),
        None => parse_volume_number(strip(b"rdsk/", path)?),
    }
}

// `dN`.
fn parse_volume_number(text: &[u8]) -> Option<VolId>
    ensures value { IfSome result (λ v. text.now ≡ number_text v.0) }
    ensures form { IfSome result (λ v. v.0 < 8192) }
    ensures none { IfNone result ((n : ℕ) → n < 8192 → text.now ≡ number_text n → ⊥) }
{
    let volume = number(strip(b"d", text)?)?;
    if volume >= VOLUME_LIMIT {
        return None;
    }
    Some(VolId(volume as u16))
}

/// The pool that `hspNNN` or `SET/hspNNN` names, with three digits.
pub fn parse_pool(text: &[u8]) -> Option<PoolName>
    ensures value { IfSome result (λ p. text.now ≡ pool_text p) }
    ensures form { IfSome result IsPoolName }
    ensures none { IfNone result ((p : PoolName) → IsPoolName p → text.now ≡ pool_text p → ⊥) }
{
    if let Some(pool) = parse_pool_number(text) {
        return Some(PoolName { set: None, pool });
    }
    let (front, rest) = split_at_stroke(text)?;
    let set = Name::new(front)?;
    let pool = parse_pool_number(rest)?;
    Some(PoolName {
        set: Some(set),
        pool,
    })
}

// `hspNNN`.
fn parse_pool_number(text: &[u8]) -> Option<PoolId>
    ensures value { IfSome result (λ p. text.now ≡ pool_number_text p.0) }
    ensures form { IfSome result (λ p. p.0 < 1000) }
    ensures none { IfNone result ((n : ℕ) → n < 1000 → text.now ≡ pool_number_text n → ⊥) }
{
    let [hundreds, tens, ones] = strip(b"hsp", text)? else {
        return None;
    };
    let hundreds = digit_value(*hundreds)?;
    let tens = digit_value(*tens)?;
    let ones = digit_value(*ones)?;
    Some(PoolId(hundreds * 100 + tens * 10 + ones))
}

fn digit_value(b: u8) -> Option<u16>
    ensures value { IfSome result (λ d. (d < 10) × (b ≡ 48 + d)) }
    ensures none { IfNone result ((d : ℕ) → d < 10 → b ≡ 48 + d → ⊥) }
{
    match b {
        b'0'..=b'9' => Some(u16::from(b - b'0')),
        _ => None,
    }
}
