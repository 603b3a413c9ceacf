ghost use Rattle.std.specs.Prelude.{◌≡◌, ◌≤◌, ◌↔◌, IsTrue};
ghost use Rattle.mdv_fields.specs.Reading.{Reads};
ghost use Rattle.mdv_codec.specs.Recorded.{MirrorFits, mirror_text, ColumnsFit, columns_text, ColumnsBodyFits, columns_body};
ghost use Rattle.mdv_codec.specs.Recorded.{RaidFits, raid_text, SoftFits, soft_text, MayStart, KindFits, kind_text, VolumeFits, volume_text};

use crate::recorded::{
    RecordedColumns, RecordedKind, RecordedMirror, RecordedOptions, RecordedRaid, RecordedSoft,
    RecordedStripe, RecordedSubmirror, RecordedVolume,
};
use mdv_base::{PoolId, VolId};
use mdv_extent::{MAX_EXTENTS, Run};
use mdv_fields::{Part, Reader, RecordError, read_list, read_short};
use mdv_plan::{Base, Listed, MAX_COLUMNS, MAX_SUBMIRRORS, RaidState, Regions};
use std::alloc::Global;

/// The fewest columns of a RAID-5 volume.
pub const MIN_COLUMNS: usize = 3;

impl Part for RecordedMirror {
    ghost fits = { MirrorFits };

    ghost text = { mirror_text };

    #[tactic(auto, unfolding(crate::specs::Recorded::mirror_text))]
    fn read(alloc: Global, rest: &mut Reader) -> Result<RecordedMirror, RecordError> {
        let options = RecordedOptions::read(alloc, rest)?;
        let submirrors: Listed<RecordedSubmirror, MAX_SUBMIRRORS> = read_short(alloc, rest)?;
        if submirrors.as_slice().is_empty() {
            return Err(RecordError::NotARecord);
        }
        let blocks = u64::read(alloc, rest)?;
        let dirty = Regions::read(alloc, rest)?;
        Ok(RecordedMirror {
            options,
            submirrors,
            blocks,
            dirty,
        })
    }
}

impl Part for RecordedColumns {
    ghost fits = { ColumnsFit };

    ghost text = { columns_text };

    fn read(alloc: Global, rest: &mut Reader) -> Result<RecordedColumns, RecordError> {
        let count = usize::from(u16::read(alloc, rest)?);
        if count < MIN_COLUMNS {
            return Err(RecordError::NotARecord);
        }
        if count > MAX_COLUMNS {
            return Err(RecordError::NotARecord);
        }
        read_columns(alloc, rest, count)
    }
}

// So many columns, behind their number.
fn read_columns(
    alloc: Global,
    rest: &mut Reader,
    count: usize,
) -> Result<RecordedColumns, RecordError>
    requires { count ≤ 32 }
    ensures { Reads (ColumnsBodyFits count) columns_body rest.old result rest.new }
{
    let units = u64::read(alloc, rest)?;
    let state = RaidState::read(alloc, rest)?;
    let parts = read_list(alloc, rest, count)?;
    Ok(RecordedColumns {
        units,
        state,
        parts,
    })
}

impl Part for RecordedRaid {
    ghost fits = { RaidFits };

    ghost text = { raid_text };

    #[tactic(auto, unfolding(crate::specs::Recorded::raid_text))]
    fn read(alloc: Global, rest: &mut Reader) -> Result<RecordedRaid, RecordError> {
        let spares = <Option<PoolId>>::read(alloc, rest)?;
        let interlace = u32::read(alloc, rest)?;
        let columns = RecordedColumns::read(alloc, rest)?;
        Ok(RecordedRaid {
            spares,
            interlace,
            columns,
        })
    }
}

impl Part for RecordedSoft {
    ghost fits = { SoftFits };

    ghost text = { soft_text };

    #[tactic(auto, unfolding(crate::specs::Recorded::soft_text))]
    fn read(alloc: Global, rest: &mut Reader) -> Result<RecordedSoft, RecordError> {
        let base = Base::read(alloc, rest)?;
        let start = u64::read(alloc, rest)?;
        let extents: Listed<Run, MAX_EXTENTS> = read_short(alloc, rest)?;
        if extents.as_slice().is_empty() || !may_start(base, start) {
            return Err(RecordError::NotARecord);
        }
        Ok(RecordedSoft {
            base,
            start,
            extents,
        })
    }
}

// On a volume the extents are counted from its first block.
fn may_start(base: Base, start: u64) -> bool
    ensures { IsTrue result ↔ MayStart base start }
{
    match base {
        Base::Slice(_) => true,
        Base::Volume(_) => start == 0,
    }
}

impl Part for RecordedKind {
    ghost fits = { KindFits };

    ghost text = { kind_text };

    #[tactic(auto, unfolding(crate::specs::Recorded::kind_text))]
    fn read(alloc: Global, rest: &mut Reader) -> Result<RecordedKind, RecordError> {
        match u8::read(alloc, rest)? {
            0 => Ok(RecordedKind::Stripe(RecordedStripe::read(alloc, rest)?)),
            1 => Ok(RecordedKind::Mirror(RecordedMirror::read(alloc, rest)?)),
            2 => Ok(RecordedKind::Raid(RecordedRaid::read(alloc, rest)?)),
            3 => Ok(RecordedKind::Soft(RecordedSoft::read(alloc, rest)?)),
            _ => Err(RecordError::NotARecord),
        }
    }
}

impl Part for RecordedVolume {
    ghost fits = { VolumeFits };

    ghost text = { volume_text };

    #[tactic(auto, unfolding(crate::specs::Recorded::volume_text))]
    fn read(alloc: Global, rest: &mut Reader) -> Result<RecordedVolume, RecordError> {
        let number = VolId::read(alloc, rest)?;
        let kind = RecordedKind::read(alloc, rest)?;
        Ok(RecordedVolume { number, kind })
    }
}
