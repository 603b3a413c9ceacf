ghost use Rattle.std.specs.Prelude.{◌≡◌, None, Some, MatchOption};
ghost use Rattle.mdv_tab.specs.Options.{flag_option, read_option, mirror_options};
ghost use Rattle.mdv_tab.specs.Options.{pass_of as spec_pass_of, late_interlace, late_pool};
ghost use Rattle.mdv_tab.specs.Options.{raid_round as spec_raid_round, raid_options};

use crate::entry::{MirrorOptions, RaidOptions, ReadFrom};
use mdv_base::PoolId;
use mdv_parts::{Part, has_letter, number_between, split_interlace, split_pool};

fn split_flag(letter: u8, given: bool, parts: &[Part]) -> (bool, &[Part])
    ensures flag { result.0 ≡ (flag_option letter given parts.now).0 }
    ensures rest { result.1.now ≡ (flag_option letter given parts.now).1 }
{
    if given {
        return (true, parts);
    }
    match parts {
        [first, rest @ ..] if has_letter(letter, *first) => (true, rest),
        _ => (false, parts),
    }
}

fn split_read(read: Option<ReadFrom>, parts: &[Part]) -> (Option<ReadFrom>, &[Part])
    ensures read { result.0 ≡ (read_option read parts.now).0 }
    ensures rest { result.1.now ≡ (read_option read parts.now).1 }
{
    if read.is_some() {
        return (read, parts);
    }
    match parts {
        [first, rest @ ..] if has_letter(b'g', *first) => (Some(ReadFrom::Geometric), rest),
        [first, rest @ ..] if has_letter(b'r', *first) => (Some(ReadFrom::First), rest),
        _ => (None, parts),
    }
}

// `-g` or `-r`, and `-S`, in either order.
pub(crate) fn split_mirror_options(parts: &[Part]) -> (MirrorOptions, &[Part])
    ensures options { result.0 ≡ (mirror_options parts.now).0 }
    ensures rest { result.1.now ≡ (mirror_options parts.now).1 }
{
    let (early, rest) = split_read(None, parts);
    let (serial, rest) = split_flag(b'S', false, rest);
    let (read, rest) = split_read(early, rest);
    (MirrorOptions { read, serial }, rest)
}

// The pass of a mirror, 1 to 9.
pub(crate) fn pass_of(parts: &[Part]) -> Option<u8>
    ensures { result ≡ spec_pass_of parts.now }
{
    match parts {
        [] => Some(1),
        [pass] => {
            let pass = number_between(1, 9, *pass)?;
            Some(pass as u8)
        }
        _ => None,
    }
}

fn split_late_interlace(given: Option<u64>, parts: &[Part]) -> Option<(Option<u64>, &[Part])>
    ensures { MatchOption result (late_interlace given parts.now ≡ None)
        (λ r. late_interlace given parts.now ≡ Some (r.0, r.1.now)) }
{
    match given {
        Some(blocks) => Some((Some(blocks), parts)),
        None => split_interlace(parts),
    }
}

fn split_late_pool(given: Option<PoolId>, parts: &[Part]) -> Option<(Option<PoolId>, &[Part])>
    ensures { MatchOption result (late_pool given parts.now ≡ None)
        (λ r. late_pool given parts.now ≡ Some (r.0, r.1.now)) }
{
    match given {
        Some(pool) => Some((Some(pool), parts)),
        None => split_pool(parts),
    }
}

fn raid_round(options: RaidOptions, parts: &[Part]) -> Option<(RaidOptions, &[Part])>
    ensures { MatchOption result (spec_raid_round options parts.now ≡ None)
        (λ r. spec_raid_round options parts.now ≡ Some (r.0, r.1.now)) }
{
    let (interlace, rest) = split_late_interlace(options.interlace, parts)?;
    let (spares, rest) = split_late_pool(options.spares, rest)?;
    let (keep, rest) = split_flag(b'k', options.keep, rest);
    let options = RaidOptions {
        interlace,
        spares,
        keep,
    };
    Some((options, rest))
}

// `-i SIZE`, `-h POOL` and `-k` in any order: a round finds those that stand in this order.
pub(crate) fn split_raid_options(parts: &[Part]) -> Option<(RaidOptions, &[Part])>
    ensures { MatchOption result (raid_options parts.now ≡ None)
        (λ r. raid_options parts.now ≡ Some (r.0, r.1.now)) }
{
    let none = RaidOptions {
        interlace: None,
        spares: None,
        keep: false,
    };
    let (options, rest) = raid_round(none, parts)?;
    let (options, rest) = raid_round(options, rest)?;
    raid_round(options, rest)
}
