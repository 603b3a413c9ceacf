//! The sides of each part of a record.
ghost use Rattle.std.specs.Prelude.{◌≡◌, ◌≤◌, ◌++◌, length, map, take, IfOk, OnOk};
ghost use Rattle.mdv_codec.specs.declared.recorded.RecordedKind.TheVariants.{Stripe as StripeRecorded, Mirror as MirrorRecorded, Raid as RaidRecorded};
ghost use Rattle.mdv_whole.specs.Parted.{component_in, status_in, volume_in, offline_in, spare_in, row_in, stripe_states as spec_stripe_states};
ghost use Rattle.mdv_whole.specs.Parted.{ArePartsOf, plan_volume, noted_volume, plan_pool};

use crate::halves::{Half, halves};
use mdv_base::VolId;
use mdv_codec::{
    RecordedKind, RecordedMirror, RecordedPart, RecordedPool, RecordedRaid, RecordedRow,
    RecordedSoft, RecordedSpare, RecordedStripe, RecordedSubmirror, RecordedVolume,
};
use mdv_plan::{
    Base, Component, KindStatus, Listed, MAX_COMPONENTS, Mirror, MirrorStatus, PartStatus, Pool,
    Raid, RaidStatus, Row, Soft, Spare, Stripe, Volume, VolumeKind, VolumeStatus,
};
use std::alloc::{AllocError, Global};
use std::mem;

impl Half<Component> for RecordedPart {
    ghost half = { component_in };

    fn half(&self, _alloc: Global) -> Result<Component, AllocError> {
        Ok(self.component)
    }
}

impl Half<PartStatus> for RecordedPart {
    ghost half = { status_in };

    fn half(&self, _alloc: Global) -> Result<PartStatus, AllocError> {
        Ok(self.status)
    }
}

impl Half<VolId> for RecordedSubmirror {
    ghost half = { volume_in };

    fn half(&self, _alloc: Global) -> Result<VolId, AllocError> {
        Ok(self.volume)
    }
}

impl Half<bool> for RecordedSubmirror {
    ghost half = { offline_in };

    fn half(&self, _alloc: Global) -> Result<bool, AllocError> {
        Ok(self.offline)
    }
}

impl Half<Spare> for RecordedSpare {
    ghost half = { spare_in };

    fn half(&self, _alloc: Global) -> Result<Spare, AllocError> {
        Ok(self.spare)
    }
}

impl Half<Row> for RecordedRow {
    ghost half = { row_in };

    fn half(&self, alloc: Global) -> Result<Row, AllocError> {
        Ok(Row {
            interlace: self.interlace,
            components: halves(alloc, &self.parts)?,
        })
    }
}

impl Half<Pool> for RecordedPool {
    ghost half = { plan_pool };

    fn half(&self, alloc: Global) -> Result<Pool, AllocError> {
        Ok(Pool {
            number: self.number,
            spares: halves(alloc, &self.spares)?,
        })
    }
}

fn part_stripe(
    alloc: Global,
    stripe: RecordedStripe,
) -> Result<(VolumeKind, KindStatus), AllocError>
    ensures { IfOk result (λ sides. ArePartsOf (StripeRecorded stripe) sides) }
{
    let rows = halves(alloc, &stripe.rows)?;
    let spares = stripe.spares;
    let states = stripe_states(alloc, stripe.rows.as_slice())?;
    let planned = Stripe { rows, spares };
    Ok((VolumeKind::Stripe(planned), KindStatus::Stripe(states)))
}

fn part_mirror(
    alloc: Global,
    mirror: RecordedMirror,
) -> Result<(VolumeKind, KindStatus), AllocError>
    ensures { IfOk result (λ sides. ArePartsOf (MirrorRecorded mirror) sides) }
{
    let RecordedMirror {
        options,
        submirrors,
        blocks,
        dirty,
    } = mirror;
    let planned = Mirror {
        submirrors: halves(alloc, &submirrors)?,
        read: options.read,
        write: options.write,
        pass: options.pass,
        blocks,
    };
    let offline = halves(alloc, &submirrors)?;
    let noted = MirrorStatus { offline, dirty };
    Ok((VolumeKind::Mirror(planned), KindStatus::Mirror(noted)))
}

fn part_raid(alloc: Global, raid: RecordedRaid) -> Result<(VolumeKind, KindStatus), AllocError>
    ensures { IfOk result (λ sides. ArePartsOf (RaidRecorded raid) sides) }
{
    let columns = &raid.columns;
    let planned = Raid {
        columns: halves(alloc, &columns.parts)?,
        interlace: raid.interlace,
        units: columns.units,
        spares: raid.spares,
    };
    let noted = RaidStatus {
        state: columns.state,
        columns: halves(alloc, &columns.parts)?,
    };
    Ok((VolumeKind::Raid(planned), KindStatus::Raid(noted)))
}

fn part_kind(alloc: Global, kind: RecordedKind) -> Result<(VolumeKind, KindStatus), AllocError>
    ensures { IfOk result (λ sides. ArePartsOf kind sides) }
{
    match kind {
        RecordedKind::Stripe(stripe) => part_stripe(alloc, stripe),
        RecordedKind::Mirror(mirror) => part_mirror(alloc, mirror),
        RecordedKind::Raid(raid) => part_raid(alloc, raid),
        RecordedKind::Soft(soft) => {
            let RecordedSoft {
                base,
                start,
                extents,
            } = soft;
            let planned = Soft {
                base,
                start,
                extents,
            };
            Ok((VolumeKind::Soft(planned), KindStatus::Soft))
        }
    }
}

// The kind of a volume, of which the record keeps nothing.
fn take_kind(alloc: Global, volume: &mut RecordedVolume) -> RecordedKind
    ensures kind { result ≡ volume.old.kind }
    ensures number { volume.new.number ≡ volume.old.number }
{
    let nothing = RecordedKind::Soft(RecordedSoft {
        base: Base::Volume(VolId(0)),
        start: 0,
        extents: Listed::new(alloc),
    });
    mem::replace(&mut volume.kind, nothing)
}

/// Volumes as the plan has them, and what is noted of each.
#[derive(Drop)]
pub struct Parted {
    pub planned: Vec<Volume>,
    pub noted: Vec<VolumeStatus>,
}

/// The volumes' two sides, to which all goes over that only one of them has.
pub fn part_volumes(alloc: Global, volumes: &mut [RecordedVolume]) -> Result<Parted, AllocError>
    ensures planned { IfOk result (λ sides. sides.planned.items ≡ map plan_volume volumes.old) }
    ensures noted { IfOk result (λ sides. sides.noted.items ≡ map noted_volume volumes.old) }
{
    let mut planned = Vec::with_capacity(alloc, volumes.len())?;
    let mut noted = Vec::with_capacity(alloc, volumes.len())?;
    for i in 0..volumes.len() {
        let number = volumes[i].number;
        let (kind, state) = part_kind(alloc, take_kind(alloc, &mut volumes[i]))?;
        planned.push(Volume { number, kind })?;
        let kind = state;
        noted.push(VolumeStatus { number, kind })?;
    }
    Ok(Parted { planned, noted })
}

// The states of all rows' components, as many as a list has room for.
fn stripe_states(
    alloc: Global,
    rows: &[RecordedRow],
) -> Result<Listed<PartStatus, MAX_COMPONENTS>, AllocError>
    ensures { IfOk result (λ made. made ≡ spec_stripe_states rows.now) }
{
    let mut states = Vec::new(alloc);
    for row in rows {
        add_states(&mut states, row.parts.as_slice())?;
    }
    Listed::from_slice(alloc, first_of(states.as_slice(), MAX_COMPONENTS))
}

// The first so many, or all.
fn first_of(states: &[PartStatus], most: usize) -> &[PartStatus]
    ensures value { result.now ≡ take most states.now }
    ensures few { length result.now ≤ most }
{
    &states[..most.min(states.len())]
}

fn add_states(states: &mut Vec<PartStatus>, parts: &[RecordedPart]) -> Result<(), AllocError>
    ensures { OnOk result (states.new.items ≡ states.old.items ++ map status_in parts.now) }
{
    for part in parts {
        states.push(part.status)?;
    }
    Ok(())
}
