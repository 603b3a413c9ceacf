//! Any note, made in a whole table.
ghost use Rattle.std.specs.Prelude.{◌≡◌, ◌==◌, [], find, map, slice_get};
ghost use Rattle.mdv_notes.specs.Flags.{kind_subs as spec_kind_subs, subs_of as spec_subs_of};
ghost use Rattle.mdv_notes.specs.Noted.{noted_of, restated, switched, with_flag, with_part, with_parts, with_raid_done, with_regions};
ghost use Rattle.mdv_notes.specs.Parts.{part_noted, part_resumed};
ghost use Rattle.mdv_notes.specs.Regions.{has_dirty as spec_has_dirty};
ghost use Rattle.mdv_notes.specs.Told.{kind_dirty as spec_kind_dirty, kind_parts as spec_kind_parts, spare_of, told_of};
ghost use Rattle.mdv_notes.specs.declared.note.Note.TheVariants.{Part, SubOnline};

use crate::flags::note_flag;
use crate::note::{Note, PartAt, PartNote, RegionRange};
use crate::parts::{note_part, resume_parts};
use crate::regions::note_regions;
use crate::spares::{note_available, note_broken, note_spares};
use mdv_base::VolId;
use mdv_plan::{
    KindStatus, MAX_VOLUMES, MirrorStatus, PartStatus, Plan, RaidState, RaidStatus, Sorted,
    SpareUse, Table, VolumeKind, VolumeStatus, has_dirty,
};

type Volumes = Sorted<VolumeStatus, MAX_VOLUMES>;

fn with_part_noted(kind: KindStatus, place: u8, note: PartNote) -> KindStatus
    ensures { result ≡ with_part place (part_noted note) kind }
{
    match kind {
        KindStatus::Stripe(parts) => {
            let mut parts = parts;
            note_part(parts.as_mut_slice(), place, note);
            KindStatus::Stripe(parts)
        }
        KindStatus::Raid(raid) => {
            let mut columns = raid.columns;
            note_part(columns.as_mut_slice(), place, note);
            KindStatus::Raid(RaidStatus {
                state: raid.state,
                columns,
            })
        }
        KindStatus::Mirror(mirror) => KindStatus::Mirror(mirror),
        KindStatus::Soft => KindStatus::Soft,
    }
}

fn with_parts_resumed(kind: KindStatus, dirty: bool) -> KindStatus
    ensures { result ≡ with_parts (part_resumed dirty) kind }
{
    match kind {
        KindStatus::Stripe(parts) => {
            let mut parts = parts;
            resume_parts(parts.as_mut_slice(), dirty);
            KindStatus::Stripe(parts)
        }
        _ => kind,
    }
}

fn with_regions_noted(kind: KindStatus, range: RegionRange, dirty: bool) -> KindStatus
    ensures { result ≡ with_regions range dirty kind }
{
    match kind {
        KindStatus::Mirror(mirror) => {
            let mut regions = mirror.dirty;
            note_regions(regions.as_mut_slice(), range, dirty);
            KindStatus::Mirror(MirrorStatus {
                offline: mirror.offline,
                dirty: regions,
            })
        }
        _ => kind,
    }
}

fn with_flag_noted(kind: KindStatus, subs: &[VolId], sub: VolId, offline: bool) -> KindStatus
    ensures { result ≡ with_flag subs.now sub offline kind }
{
    match kind {
        KindStatus::Mirror(mirror) => {
            let mut flags = mirror.offline;
            note_flag(flags.as_mut_slice(), subs, sub, offline);
            KindStatus::Mirror(MirrorStatus {
                offline: flags,
                dirty: mirror.dirty,
            })
        }
        _ => kind,
    }
}

fn with_raid_made(kind: KindStatus) -> KindStatus
    ensures { result ≡ with_raid_done kind }
{
    match kind {
        KindStatus::Raid(raid) => KindStatus::Raid(RaidStatus {
            state: RaidState::Okay,
            columns: raid.columns,
        }),
        _ => kind,
    }
}

fn restate_part(volumes: &mut Volumes, volume: VolId, place: u8, note: PartNote)
    ensures { volumes.new ≡ map (restated volume (with_part place (part_noted note))) volumes.old }
{
    let _ascending = volumes.as_slice();
    let hollow = VolumeStatus {
        number: volume,
        kind: KindStatus::Soft,
    };
    if let Some(old) = volumes.exchange(hollow) {
        volumes.replace(VolumeStatus {
            number: old.number,
            kind: with_part_noted(old.kind, place, note),
        });
    }
}

fn restate_parts(volumes: &mut Volumes, volume: VolId, dirty: bool)
    ensures { volumes.new ≡ map (restated volume (with_parts (part_resumed dirty))) volumes.old }
{
    let _ascending = volumes.as_slice();
    let hollow = VolumeStatus {
        number: volume,
        kind: KindStatus::Soft,
    };
    if let Some(old) = volumes.exchange(hollow) {
        volumes.replace(VolumeStatus {
            number: old.number,
            kind: with_parts_resumed(old.kind, dirty),
        });
    }
}

fn restate_regions(volumes: &mut Volumes, volume: VolId, range: RegionRange, dirty: bool)
    ensures { volumes.new ≡ map (restated volume (with_regions range dirty)) volumes.old }
{
    let _ascending = volumes.as_slice();
    let hollow = VolumeStatus {
        number: volume,
        kind: KindStatus::Soft,
    };
    if let Some(old) = volumes.exchange(hollow) {
        volumes.replace(VolumeStatus {
            number: old.number,
            kind: with_regions_noted(old.kind, range, dirty),
        });
    }
}

fn restate_flag(volumes: &mut Volumes, volume: VolId, subs: &[VolId], sub: VolId, offline: bool)
    ensures { volumes.new ≡ map (restated volume (with_flag subs.now sub offline)) volumes.old }
{
    let _ascending = volumes.as_slice();
    let hollow = VolumeStatus {
        number: volume,
        kind: KindStatus::Soft,
    };
    if let Some(old) = volumes.exchange(hollow) {
        volumes.replace(VolumeStatus {
            number: old.number,
            kind: with_flag_noted(old.kind, subs, sub, offline),
        });
    }
}

fn restate_raid(volumes: &mut Volumes, volume: VolId)
    ensures { volumes.new ≡ map (restated volume (with_raid_done)) volumes.old }
{
    let _ascending = volumes.as_slice();
    let hollow = VolumeStatus {
        number: volume,
        kind: KindStatus::Soft,
    };
    if let Some(old) = volumes.exchange(hollow) {
        volumes.replace(VolumeStatus {
            number: old.number,
            kind: with_raid_made(old.kind),
        });
    }
}

fn kind_parts(kind: &KindStatus) -> &[PartStatus]
    ensures { result.now ≡ spec_kind_parts kind.now }
{
    match kind {
        KindStatus::Stripe(parts) => parts.as_slice(),
        KindStatus::Raid(raid) => raid.columns.as_slice(),
        _ => &[],
    }
}

fn parts_of(volumes: &Volumes, volume: VolId) -> &[PartStatus]
    ensures { result.now ≡ told_of [] spec_kind_parts (find (λ w. w.number.0 == volume.0) volumes.now) }
{
    match volumes.find(u32::from(volume.0)) {
        Some(status) => kind_parts(&status.kind),
        None => &[],
    }
}

fn spare_at(parts: &[PartStatus], place: u8) -> Option<SpareUse>
    ensures { result ≡ spare_of (slice_get parts.now place) }
{
    let place = usize::from(place);
    if place < parts.len() {
        parts[place].spare
    } else {
        None
    }
}

fn kind_dirty(kind: &KindStatus) -> &[u8]
    ensures { result.now ≡ spec_kind_dirty kind.now }
{
    match kind {
        KindStatus::Mirror(mirror) => mirror.dirty.as_slice(),
        _ => &[],
    }
}

fn is_dirty(volumes: &Volumes, mirror: VolId) -> bool
    ensures { result ≡ spec_has_dirty (told_of [] spec_kind_dirty (find (λ w. w.number.0 == mirror.0) volumes.now)) }
{
    match volumes.find(u32::from(mirror.0)) {
        Some(status) => has_dirty(kind_dirty(&status.kind)),
        None => false,
    }
}

fn kind_subs(kind: &VolumeKind) -> &[VolId]
    ensures { result.now ≡ spec_kind_subs kind.now }
{
    match kind {
        VolumeKind::Mirror(mirror) => mirror.submirrors.as_slice(),
        _ => &[],
    }
}

fn subs_of(plan: &Plan, mirror: VolId) -> &[VolId]
    ensures { result.now ≡ spec_subs_of plan.now mirror }
{
    match plan.volumes.find(u32::from(mirror.0)) {
        Some(volume) => kind_subs(&volume.kind),
        None => &[],
    }
}

fn note_component(table: &mut Table, at: PartAt, note: PartNote)
    ensures { table.new ≡ noted_of table.old (Part at note) }
{
    let under = spare_at(parts_of(&table.status.volumes, at.volume), at.place);
    restate_part(&mut table.status.volumes, at.volume, at.place, note);
    note_spares(&mut table.status.spares, note, under);
}

fn switch(table: &mut Table, mirror: VolId, sub: VolId, offline: bool)
    ensures { table.new ≡ record table.old { status = switched table.old mirror sub offline } }
{
    let subs = subs_of(&table.plan, mirror);
    restate_flag(&mut table.status.volumes, mirror, subs, sub, offline);
}

fn bring_back(table: &mut Table, mirror: VolId, sub: VolId)
    ensures { table.new ≡ noted_of table.old (SubOnline mirror sub) }
{
    let dirty = is_dirty(&table.status.volumes, mirror);
    switch(table, mirror, sub, false);
    restate_parts(&mut table.status.volumes, sub, dirty);
}

/// Makes the note. It takes no memory.
pub fn noted(table: &mut Table, note: &Note)
    ensures { table.new ≡ noted_of table.old note.now }
{
    match *note {
        Note::Part(at, note) => note_component(table, at, note),
        Note::SpareBroken(spare) => note_broken(table, spare),
        Note::SpareAvailable(spare) => note_available(table, spare),
        Note::RegionsDirty(mirror, range) => {
            restate_regions(&mut table.status.volumes, mirror, range, true);
        }
        Note::RegionsClean(mirror, range) => {
            restate_regions(&mut table.status.volumes, mirror, range, false);
        }
        Note::SubOffline(mirror, sub) => switch(table, mirror, sub, true),
        Note::SubOnline(mirror, sub) => bring_back(table, mirror, sub),
        Note::RaidOkay(volume) => restate_raid(&mut table.status.volumes, volume),
    }
}
