//! A volume's kind, with what is noted of it.
ghost use Rattle.std.specs.Prelude.{◌≤◌, length};
ghost use Rattle.mdv_codec.specs.Recorded.{submirror_text, options_text, mirror_text, raid_text, soft_text, kind_text};
ghost use Rattle.mdv_fields.specs.Reading.{short_text};
ghost use Rattle.mdv_fields.specs.Laying.{IsLaid};
ghost use Rattle.mdv_whole.specs.Sides.{beside, submirror_of, options_of, mirror_of, raid_of, soft_of, kind_of};

use crate::beside::{Beside, lay_pairs};
use crate::noted::{dirty_of, offline_of, part_states, raid_state_of};
use crate::rows::{lay_parts, lay_stripe};
use mdv_base::VolId;
use mdv_codec::{RecordedOptions, RecordedSubmirror};
use mdv_fields::{Spelled, lay, lay_short};
use mdv_plan::{KindStatus, Mirror, Raid, Soft, VolumeKind};

impl Beside<bool> for VolId {
    ghost text = { λ v offline. submirror_text (submirror_of v offline) };

    fn lay_with(&self, noted: &bool, out: &mut [u8], used: usize) -> usize {
        let volume = *self;
        let offline = *noted;
        RecordedSubmirror { volume, offline }.lay(out, used)
    }
}

pub fn lay_kind(out: &mut [u8], used: usize, kind: &VolumeKind, noted: &KindStatus) -> usize
    ensures { IsLaid used out.old out.new (kind_text (kind_of kind.now noted.now)) result }
{
    match kind {
        VolumeKind::Stripe(stripe) => {
            let used = lay(out, used, &[0]);
            lay_stripe(out, used, stripe, noted)
        }
        VolumeKind::Mirror(mirror) => {
            let used = lay(out, used, &[1]);
            lay_mirror(out, used, mirror, noted)
        }
        VolumeKind::Raid(raid) => {
            let used = lay(out, used, &[2]);
            lay_raid(out, used, raid, noted)
        }
        VolumeKind::Soft(soft) => {
            let used = lay(out, used, &[3]);
            lay_soft(out, used, soft)
        }
    }
}

fn lay_mirror(out: &mut [u8], used: usize, mirror: &Mirror, noted: &KindStatus) -> usize
    ensures { IsLaid used out.old out.new (mirror_text (mirror_of mirror.now noted.now)) result }
{
    let used = lay_options(out, used, mirror);
    let used = lay_submirrors(out, used, mirror.submirrors.as_slice(), offline_of(noted));
    let used = mirror.blocks.lay(out, used);
    lay(out, used, dirty_of(noted))
}

fn lay_options(out: &mut [u8], used: usize, mirror: &Mirror) -> usize
    ensures { IsLaid used out.old out.new (options_text (options_of mirror.now)) result }
{
    let options = RecordedOptions {
        read: mirror.read,
        write: mirror.write,
        pass: mirror.pass,
    };
    options.lay(out, used)
}

fn lay_submirrors(out: &mut [u8], used: usize, submirrors: &[VolId], offline: &[bool]) -> usize
    requires { length submirrors.now ≤ 4 }
    ensures { IsLaid used out.old out.new
        (short_text submirror_text (beside submirror_of submirrors.now offline.now)) result }
{
    let count = submirrors.len().min(offline.len());
    let used = (count as u8).lay(out, used);
    lay_pairs(out, used, submirrors, offline)
}

fn lay_raid(out: &mut [u8], used: usize, raid: &Raid, noted: &KindStatus) -> usize
    ensures { IsLaid used out.old out.new (raid_text (raid_of raid.now noted.now)) result }
{
    let columns = raid.columns.as_slice();
    let states = part_states(noted);
    let count = columns.len().min(states.len());
    let used = raid.spares.lay(out, used);
    let used = raid.interlace.lay(out, used);
    let used = (count as u16).lay(out, used);
    let used = raid.units.lay(out, used);
    let used = raid_state_of(noted).lay(out, used);
    lay_parts(out, used, columns, states)
}

fn lay_soft(out: &mut [u8], used: usize, soft: &Soft) -> usize
    ensures { IsLaid used out.old out.new (soft_text (soft_of soft.now)) result }
{
    let used = soft.base.lay(out, used);
    let used = soft.start.lay(out, used);
    lay_short(out, used, soft.extents.as_slice())
}
