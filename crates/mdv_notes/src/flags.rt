//! Which submirrors of a mirror are offline.
ghost use Rattle.std.specs.Prelude.{◌≡◌, slice_get};
ghost use Rattle.mdv_notes.specs.Flags.{flags_noted, flag_noted as spec_flag_noted};

use mdv_base::VolId;

fn flag_noted(sub: VolId, offline: bool, volume: Option<VolId>, flag: bool) -> bool
    ensures { result ≡ spec_flag_noted sub offline volume flag }
{
    match volume {
        Some(volume) if volume.0 == sub.0 => offline,
        _ => flag,
    }
}

fn sub_at(subs: &[VolId], place: usize) -> Option<VolId>
    ensures { result ≡ slice_get subs.now place }
{
    if place < subs.len() {
        Some(subs[place])
    } else {
        None
    }
}

/// Notes of the submirror, among these of its mirror, whether it is offline. The flags of the others stay.
pub fn note_flag(flags: &mut [bool], subs: &[VolId], sub: VolId, offline: bool)
    ensures { flags.new ≡ flags_noted sub offline subs.now flags.old }
{
    for (place, flag) in flags.iter_mut().enumerate() {
        *flag = flag_noted(sub, offline, sub_at(subs, place), *flag);
    }
}
