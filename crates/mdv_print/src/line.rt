//! The lines of volumes and pools.
ghost use Rattle.std.specs.Prelude.{◌≡◌, ◌++◌, map, OnOk};
ghost use Rattle.std.specs.List.{flat_map};
ghost use Rattle.mdv_print.specs.Parts.{base_part as spec_base_part, component_part, extent_parts, interlace_parts, kind_parts, read_parts, row_parts, spare_part, spares_parts, submirror_part, write_parts};
ghost use Rattle.mdv_print.specs.Text.{pool_line, volume_line};
ghost use Rattle.mdv_print.specs.Words.{next_words};
ghost use Rattle.mdv_print.specs.Below.{VolumeKind};

use crate::word::{add_next, add_word};
use mdv_base::{Name, PoolId, VolId};
use mdv_extent::Run;
use mdv_parts::Part;
use mdv_plan::{
    Base, Component, Mirror, Pool, Raid, ReadOption, Row, Soft, Spare, Stripe, Volume, VolumeKind,
    WriteOption,
};
use std::alloc::AllocError;

// Appends the line of a volume.
pub(crate) fn add_volume(
    text: &mut Vec<u8>,
    set: &Option<Name>,
    volume: &Volume,
) -> Result<(), AllocError>
    ensures { OnOk result (text.new.items ≡ text.old.items ++ volume_line set.now volume.now) }
{
    add_word(text, set, Part::Volume(volume.number))?;
    add_kind(text, set, &volume.kind)?;
    text.push(b'\n')?;
    Ok(())
}

// Appends the line of a pool.
pub(crate) fn add_pool(
    text: &mut Vec<u8>,
    set: &Option<Name>,
    pool: &Pool,
) -> Result<(), AllocError>
    ensures { OnOk result (text.new.items ≡ text.old.items ++ pool_line set.now pool.now) }
{
    add_word(text, set, Part::Pool(pool.number))?;
    add_spares(text, set, pool.spares.as_slice())?;
    text.push(b'\n')?;
    Ok(())
}

fn add_kind(text: &mut Vec<u8>, set: &Option<Name>, kind: &VolumeKind) -> Result<(), AllocError>
    ensures { OnOk result (text.new.items ≡ text.old.items ++ next_words set.now (kind_parts kind.now)) }
{
    match kind {
        VolumeKind::Stripe(stripe) => add_stripe(text, set, stripe),
        VolumeKind::Mirror(mirror) => add_mirror(text, set, mirror),
        VolumeKind::Raid(raid) => add_raid(text, set, raid),
        VolumeKind::Soft(soft) => add_soft(text, set, soft),
    }
}

fn add_stripe(text: &mut Vec<u8>, set: &Option<Name>, stripe: &Stripe) -> Result<(), AllocError>
    ensures { OnOk result (text.new.items ≡ text.old.items ++ next_words set.now (kind_parts (VolumeKind.Stripe stripe.now))) }
{
    let rows = stripe.rows.as_slice();
    add_next(text, set, Part::Number(rows.len() as u64))?;
    add_rows(text, set, rows)?;
    add_spare_pool(text, set, stripe.spares)
}

fn add_rows(text: &mut Vec<u8>, set: &Option<Name>, rows: &[Row]) -> Result<(), AllocError>
    ensures { OnOk result (text.new.items ≡ text.old.items ++ next_words set.now (flat_map row_parts rows.now)) }
{
    for row in rows {
        add_row(text, set, row)?;
    }
    Ok(())
}

fn add_row(text: &mut Vec<u8>, set: &Option<Name>, row: &Row) -> Result<(), AllocError>
    ensures { OnOk result (text.new.items ≡ text.old.items ++ next_words set.now (row_parts row.now)) }
{
    let components = row.components.as_slice();
    add_next(text, set, Part::Number(components.len() as u64))?;
    add_components(text, set, components)?;
    if components.len() > 1 {
        add_interlace(text, set, row.interlace)?;
    }
    Ok(())
}

fn add_components(
    text: &mut Vec<u8>,
    set: &Option<Name>,
    components: &[Component],
) -> Result<(), AllocError>
    ensures { OnOk result (text.new.items ≡ text.old.items ++ next_words set.now (map component_part components.now)) }
{
    for component in components {
        add_next(text, set, base_part(component.on))?;
    }
    Ok(())
}

fn base_part(base: Base) -> Part
    ensures { result ≡ spec_base_part base }
{
    match base {
        Base::Slice(slice) => Part::Slice(slice),
        Base::Volume(volume) => Part::Volume(volume),
    }
}

fn add_interlace(text: &mut Vec<u8>, set: &Option<Name>, interlace: u32) -> Result<(), AllocError>
    ensures { OnOk result (text.new.items ≡ text.old.items ++ next_words set.now (interlace_parts interlace)) }
{
    add_next(text, set, Part::Letter(b'i'))?;
    add_next(text, set, Part::Size(u64::from(interlace)))
}

fn add_spare_pool(
    text: &mut Vec<u8>,
    set: &Option<Name>,
    spares: Option<PoolId>,
) -> Result<(), AllocError>
    ensures { OnOk result (text.new.items ≡ text.old.items ++ next_words set.now (spares_parts spares)) }
{
    if let Some(pool) = spares {
        add_next(text, set, Part::Letter(b'h'))?;
        add_next(text, set, Part::Pool(pool))?;
    }
    Ok(())
}

fn add_mirror(text: &mut Vec<u8>, set: &Option<Name>, mirror: &Mirror) -> Result<(), AllocError>
    ensures { OnOk result (text.new.items ≡ text.old.items ++ next_words set.now (kind_parts (VolumeKind.Mirror mirror.now))) }
{
    add_next(text, set, Part::Letter(b'm'))?;
    add_submirrors(text, set, mirror.submirrors.as_slice())?;
    add_read(text, set, mirror.read)?;
    add_write(text, set, mirror.write)?;
    add_next(text, set, Part::Number(u64::from(mirror.pass)))
}

fn add_submirrors(
    text: &mut Vec<u8>,
    set: &Option<Name>,
    submirrors: &[VolId],
) -> Result<(), AllocError>
    ensures { OnOk result (text.new.items ≡ text.old.items ++ next_words set.now (map submirror_part submirrors.now)) }
{
    for submirror in submirrors {
        add_next(text, set, Part::Volume(*submirror))?;
    }
    Ok(())
}

fn add_read(text: &mut Vec<u8>, set: &Option<Name>, read: ReadOption) -> Result<(), AllocError>
    ensures { OnOk result (text.new.items ≡ text.old.items ++ next_words set.now (read_parts read)) }
{
    match read {
        ReadOption::InTurn => Ok(()),
        ReadOption::Geometric => add_next(text, set, Part::Letter(b'g')),
        ReadOption::First => add_next(text, set, Part::Letter(b'r')),
    }
}

fn add_write(text: &mut Vec<u8>, set: &Option<Name>, write: WriteOption) -> Result<(), AllocError>
    ensures { OnOk result (text.new.items ≡ text.old.items ++ next_words set.now (write_parts write)) }
{
    match write {
        WriteOption::Parallel => Ok(()),
        WriteOption::Serial => add_next(text, set, Part::Letter(b'S')),
    }
}

fn add_raid(text: &mut Vec<u8>, set: &Option<Name>, raid: &Raid) -> Result<(), AllocError>
    ensures { OnOk result (text.new.items ≡ text.old.items ++ next_words set.now (kind_parts (VolumeKind.Raid raid.now))) }
{
    add_next(text, set, Part::Letter(b'r'))?;
    add_components(text, set, raid.columns.as_slice())?;
    add_next(text, set, Part::Letter(b'k'))?;
    add_interlace(text, set, raid.interlace)?;
    add_spare_pool(text, set, raid.spares)
}

fn add_soft(text: &mut Vec<u8>, set: &Option<Name>, soft: &Soft) -> Result<(), AllocError>
    ensures { OnOk result (text.new.items ≡ text.old.items ++ next_words set.now (kind_parts (VolumeKind.Soft soft.now))) }
{
    add_next(text, set, Part::Letter(b'p'))?;
    add_next(text, set, base_part(soft.base))?;
    add_extents(text, set, soft.extents.as_slice())
}

fn add_extents(text: &mut Vec<u8>, set: &Option<Name>, extents: &[Run]) -> Result<(), AllocError>
    ensures { OnOk result (text.new.items ≡ text.old.items ++ next_words set.now (flat_map extent_parts extents.now)) }
{
    for run in extents {
        add_extent(text, set, *run)?;
    }
    Ok(())
}

fn add_extent(text: &mut Vec<u8>, set: &Option<Name>, run: Run) -> Result<(), AllocError>
    ensures { OnOk result (text.new.items ≡ text.old.items ++ next_words set.now (extent_parts run)) }
{
    add_next(text, set, Part::Letter(b'o'))?;
    add_next(text, set, Part::Number(run.at))?;
    add_next(text, set, Part::Letter(b'b'))?;
    add_next(text, set, Part::Number(run.blocks))
}

fn add_spares(text: &mut Vec<u8>, set: &Option<Name>, spares: &[Spare]) -> Result<(), AllocError>
    ensures { OnOk result (text.new.items ≡ text.old.items ++ next_words set.now (map spare_part spares.now)) }
{
    for spare in spares {
        add_next(text, set, Part::Slice(spare.slice))?;
    }
    Ok(())
}
