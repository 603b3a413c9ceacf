ghost use Rattle.std.specs.Prelude.{◌≡◌, IfSome, IfNone, Some, None};
ghost use Rattle.mdv_parts.specs.Runs.{pool_of as spec_pool_of};
ghost use Rattle.mdv_parts.specs.Options.{has_letter as spec_has_letter, size_of as spec_size_of};
ghost use Rattle.mdv_parts.specs.Options.{number_of as spec_number_of, number_within, at_letter};
ghost use Rattle.mdv_parts.specs.Options.{split_interlace as spec_split_interlace};
ghost use Rattle.mdv_parts.specs.Options.{split_count as spec_split_count};
ghost use Rattle.mdv_parts.specs.Options.{split_length as spec_split_length};
ghost use Rattle.mdv_parts.specs.Options.{split_replica_options as spec_split_replica_options};

use crate::component::pool_of;
use crate::part::Part;
use mdv_base::PoolId;
use mdv_text::MAX_BLOCKS;

/// The most replicas that one line or entry puts on each slice.
pub const MAX_REPLICAS: u64 = 50;

/// The fewest blocks of a replica.
pub const MIN_LENGTH: u64 = 16;

/// The most blocks of a replica.
pub const MAX_LENGTH: u64 = 8192;

/// `-c N` and `-l BLOCKS`, where they are given.
#[derive(Clone, Copy, Debug, PartialEq, Eq)]
pub struct ReplicaOptions {
    /// Replicas a slice, 1 to 50.
    pub count: Option<u8>,
    /// Blocks a replica, 16 to 8192.
    pub blocks: Option<u16>,
}

/// Whether the part is this letter behind a dash.
pub fn has_letter(letter: u8, part: Part) -> bool
    ensures { result ≡ spec_has_letter letter part }
{
    match part {
        Part::Letter(here) => here == letter,
        _ => false,
    }
}

/// The number that the part is, without a letter.
pub fn number_of(part: Part) -> Option<u64>
    ensures { result ≡ spec_number_of part }
{
    match part {
        Part::Number(n) => Some(n),
        _ => None,
    }
}

/// The blocks that the part says, at most 2^40, with a letter of a unit or without.
pub fn size_of(part: Part) -> Option<u64>
    ensures { result ≡ spec_size_of part }
{
    match part {
        Part::Number(n) if n <= MAX_BLOCKS => Some(n),
        Part::Size(blocks) => Some(blocks),
        _ => None,
    }
}

/// The number that the part is, from the least to the most.
pub fn number_between(least: u64, most: u64, part: Part) -> Option<u64>
    ensures { result ≡ number_within least most part }
{
    match part {
        Part::Number(n) if least <= n && n <= most => Some(n),
        _ => None,
    }
}

/// The interlace in blocks where `-i` stands in front, and what stands behind it; None where a size
/// is wanting behind `-i`.
pub fn split_interlace(parts: &[Part]) -> Option<(Option<u64>, &[Part])>
    ensures value { IfSome result (λ r. spec_split_interlace parts.now ≡ Some (r.0, r.1.now)) }
    ensures none { IfNone result (spec_split_interlace parts.now ≡ None) }
{
    let [first, rest @ ..] = parts else {
        return Some((None, parts));
    };
    if !has_letter(b'i', *first) {
        return Some((None, parts));
    }
    let [value, behind @ ..] = rest else {
        return None;
    };
    let blocks = size_of(*value)?;
    Some((Some(blocks), behind))
}

/// The pool where `-h` stands in front, and what stands behind it; None where a pool is wanting behind
/// `-h`.
pub fn split_pool(parts: &[Part]) -> Option<(Option<PoolId>, &[Part])>
    ensures value { IfSome result (λ r.
        at_letter 104 spec_pool_of parts.now ≡ Some (r.0, r.1.now)) }
    ensures none { IfNone result (at_letter 104 spec_pool_of parts.now ≡ None) }
{
    let [first, rest @ ..] = parts else {
        return Some((None, parts));
    };
    if !has_letter(b'h', *first) {
        return Some((None, parts));
    }
    let [value, behind @ ..] = rest else {
        return None;
    };
    let pool = pool_of(*value)?;
    Some((Some(pool), behind))
}

fn split_count(parts: &[Part]) -> Option<(Option<u8>, &[Part])>
    ensures value { IfSome result (λ r. spec_split_count parts.now ≡ Some (r.0, r.1.now)) }
    ensures none { IfNone result (spec_split_count parts.now ≡ None) }
{
    let [first, rest @ ..] = parts else {
        return Some((None, parts));
    };
    if !has_letter(b'c', *first) {
        return Some((None, parts));
    }
    let [value, behind @ ..] = rest else {
        return None;
    };
    let count = number_between(1, MAX_REPLICAS, *value)?;
    Some((Some(count as u8), behind))
}

fn split_length(parts: &[Part]) -> Option<(Option<u16>, &[Part])>
    ensures value { IfSome result (λ r. spec_split_length parts.now ≡ Some (r.0, r.1.now)) }
    ensures none { IfNone result (spec_split_length parts.now ≡ None) }
{
    let [first, rest @ ..] = parts else {
        return Some((None, parts));
    };
    if !has_letter(b'l', *first) {
        return Some((None, parts));
    }
    let [value, behind @ ..] = rest else {
        return None;
    };
    let blocks = number_between(MIN_LENGTH, MAX_LENGTH, *value)?;
    Some((Some(blocks as u16), behind))
}

/// `-c` and `-l` at the list's front, in either order and each at most once, and what stands behind
/// them; None where one stands without a number in its range.
pub fn split_replica_options(parts: &[Part]) -> Option<(ReplicaOptions, &[Part])>
    ensures value { IfSome result (λ r.
        spec_split_replica_options parts.now ≡ Some (r.0, r.1.now)) }
    ensures none { IfNone result (spec_split_replica_options parts.now ≡ None) }
{
    let (early, rest) = split_count(parts)?;
    let (blocks, rest) = split_length(rest)?;
    let Some(_) = early else {
        let (count, rest) = split_count(rest)?;
        return Some((ReplicaOptions { count, blocks }, rest));
    };
    let options = ReplicaOptions {
        count: early,
        blocks,
    };
    Some((options, rest))
}
