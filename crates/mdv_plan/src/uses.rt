//! Which blocks of slices are in use by what.
ghost use Rattle.std.specs.Prelude.{◌≡◌, ◌++◌, ◌∷◌, [], IfOk, OnOk, map};
ghost use Rattle.std.specs.List.{flat_map};
ghost use Rattle.mdv_plan.specs.Uses.{uses_of, list_uses, place_use, volume_uses, pool_uses, row_uses, component_uses, extent_uses, uses_on, spare_use, first_blocks as spec_first_blocks};
ghost use Rattle.mdv_plan.specs.Uses.{runs_on as spec_runs_on, volume_runs, same_base as spec_same_base, same_slice as spec_same_slice};

use crate::lists::{Lists, all_of};
use crate::plan::Plan;
use crate::pool::{Pool, Spare};
use crate::volume::{Base, Component, Row, Soft, Volume, VolumeKind};
use mdv_base::{Place, Places, PoolId, SliceName, VolId};
use mdv_extent::Run;
use std::alloc::{AllocError, Global};
use std::marker::Model;

/// What uses blocks of a slice.
#[derive(Clone, Copy, Debug, PartialEq, Eq)]
pub enum User {
    Replica,
    /// A component of this stripe or RAID-5 volume.
    Component(VolId),
    /// An extent of this soft partition.
    Extent(VolId),
    /// A spare of this pool, whether a component lies on it or not.
    Spare(PoolId),
}

/// Blocks of a slice that are in use: those of the run, counted from block `start` of the slice on. The
/// header of an extent, the block before it, isn't in its run.
#[derive(Clone, Copy, Debug, PartialEq, Eq)]
pub struct SliceUse {
    pub slice: SliceName,
    pub start: u64,
    pub run: Run,
    pub by: User,
}

/// Uses of slices in order.
#[derive(Drop)]
pub struct Uses {
    items: Vec<SliceUse>,
}

impl Model for Uses {
    ghost use Rattle.std.specs.Prelude.{List};
    ghost use Rattle.mdv_plan.specs.declared.uses.SliceUse.{SliceUse};

    ghost Value = { List SliceUse };

    ghost view = { λ u. u.items.items };
}

impl Plan {
    /// All uses of slices: by replicas, components, soft partitions on slices, and spares.
    pub fn uses(&self, alloc: Global) -> Result<Uses, AllocError>
        ensures { IfOk result (λ uses. uses ≡ uses_of self.now) }
    {
        let mut uses = Uses::new(alloc);
        uses.add_lists(&self.lists)?;
        uses.add_volumes(self.volumes.as_slice())?;
        uses.add_pools(self.pools.as_slice())?;
        Ok(uses)
    }

    /// The extents of all soft partitions on a base, in the order of the volumes.
    pub fn runs_on(&self, alloc: Global, base: Base) -> Result<Vec<Run>, AllocError>
        ensures { IfOk result (λ runs. runs.items ≡ spec_runs_on base self.now) }
    {
        let mut runs = Vec::new(alloc);
        for volume in self.volumes.as_slice() {
            runs.extend_from_slice(volume_runs(volume, base))?;
        }
        Ok(runs)
    }
}

impl Uses {
    pub fn new(alloc: Global) -> Uses
        ensures { result ≡ [] }
    {
        Uses {
            items: Vec::new(alloc),
        }
    }

    pub fn as_slice(&self) -> &[SliceUse]
        ensures { result.now ≡ self.now }
    {
        self.items.as_slice()
    }

    fn add(&mut self, one: SliceUse) -> Result<(), AllocError>
        ensures { OnOk result (self.new ≡ self.old ++ one ∷ []) }
    {
        self.items.push(one)?;
        Ok(())
    }

    // The run, where the base is a slice.
    fn add_on(&mut self, base: Base, start: u64, run: Run, by: User) -> Result<(), AllocError>
        ensures { OnOk result (self.new ≡ self.old ++ uses_on base start run by) }
    {
        if let Base::Slice(slice) = base {
            self.add(SliceUse {
                slice,
                start,
                run,
                by,
            })?;
        }
        Ok(())
    }

    fn add_lists(&mut self, lists: &Lists) -> Result<(), AllocError>
        ensures { OnOk result (self.new ≡ self.old ++ list_uses lists.now) }
    {
        match lists {
            Lists::One(places) => self.add_places(places)?,
            Lists::Two(from, to) => {
                self.add_places(from)?;
                self.add_places(to)?;
            }
        }
        Ok(())
    }

    fn add_places(&mut self, places: &Places) -> Result<(), AllocError>
        ensures { OnOk result (self.new ≡ self.old ++ map place_use places.now) }
    {
        for place in all_of(places) {
            self.add(place_use(place))?;
        }
        Ok(())
    }

    fn add_volumes(&mut self, volumes: &[Volume]) -> Result<(), AllocError>
        ensures { OnOk result (self.new ≡ self.old ++ flat_map volume_uses volumes.now) }
    {
        for volume in volumes {
            self.add_volume(volume)?;
        }
        Ok(())
    }

    /// The uses of one volume.
    pub fn add_volume(&mut self, volume: &Volume) -> Result<(), AllocError>
        ensures { OnOk result (self.new ≡ self.old ++ volume_uses volume.now) }
    {
        let number = volume.number;
        match &volume.kind {
            VolumeKind::Stripe(stripe) => self.add_rows(number, stripe.rows.as_slice())?,
            VolumeKind::Mirror(_) => {}
            VolumeKind::Raid(raid) => self.add_components(number, raid.columns.as_slice())?,
            VolumeKind::Soft(soft) => self.add_extents(number, soft)?,
        }
        Ok(())
    }

    fn add_rows(&mut self, volume: VolId, rows: &[Row]) -> Result<(), AllocError>
        ensures { OnOk result (self.new ≡ self.old ++ flat_map (row_uses volume) rows.now) }
    {
        for row in rows {
            self.add_components(volume, row.components.as_slice())?;
        }
        Ok(())
    }

    fn add_components(&mut self, volume: VolId, components: &[Component]) -> Result<(), AllocError>
        ensures { OnOk result (self.new ≡
            self.old ++ flat_map (component_uses volume) components.now) }
    {
        for component in components {
            let run = first_blocks(component.blocks);
            let by = User::Component(volume);
            self.add_on(component.on, component.start, run, by)?;
        }
        Ok(())
    }

    fn add_extents(&mut self, volume: VolId, soft: &Soft) -> Result<(), AllocError>
        ensures { OnOk result (self.new ≡
            self.old ++ flat_map (extent_uses volume soft.now.base soft.now.start) soft.now.extents) }
    {
        for run in soft.extents.as_slice() {
            self.add_on(soft.base, soft.start, *run, User::Extent(volume))?;
        }
        Ok(())
    }

    fn add_pools(&mut self, pools: &[Pool]) -> Result<(), AllocError>
        ensures { OnOk result (self.new ≡ self.old ++ flat_map pool_uses pools.now) }
    {
        for pool in pools {
            self.add_spares(pool.number, pool.spares.as_slice())?;
        }
        Ok(())
    }

    fn add_spares(&mut self, pool: PoolId, spares: &[Spare]) -> Result<(), AllocError>
        ensures { OnOk result (self.new ≡ self.old ++ map (spare_use pool) spares.now) }
    {
        for spare in spares {
            self.add(spare_use(pool, spare))?;
        }
        Ok(())
    }
}

fn first_blocks(blocks: u64) -> Run
    ensures { result ≡ spec_first_blocks blocks }
{
    Run { at: 0, blocks }
}

fn place_use(place: &Place) -> SliceUse
    ensures { result ≡ place_use place.now }
{
    SliceUse {
        slice: place.slice,
        start: u64::from(place.start),
        run: first_blocks(u64::from(place.blocks)),
        by: User::Replica,
    }
}

fn spare_use(pool: PoolId, spare: &Spare) -> SliceUse
    ensures { result ≡ spare_use pool spare.now }
{
    SliceUse {
        slice: spare.slice,
        start: spare.start,
        run: first_blocks(spare.blocks),
        by: User::Spare(pool),
    }
}

// The extents that a volume has on a base.
fn volume_runs(volume: &Volume, base: Base) -> &[Run]
    ensures { result.now ≡ volume_runs base volume.now }
{
    match &volume.kind {
        VolumeKind::Soft(soft) if same_base(soft.base, base) => soft.extents.as_slice(),
        _ => &[],
    }
}

/// Whether both are the same slice, or the same volume.
pub fn same_base(a: Base, b: Base) -> bool
    ensures { result ≡ spec_same_base a b }
{
    match (a, b) {
        (Base::Slice(a), Base::Slice(b)) => same_slice(a, b),
        (Base::Volume(a), Base::Volume(b)) => a.0 == b.0,
        _ => false,
    }
}

pub fn same_slice(a: SliceName, b: SliceName) -> bool
    ensures { result ≡ spec_same_slice a b }
{
    (a.drive.controller == b.drive.controller && a.drive.target == b.drive.target)
        && (a.drive.disk == b.drive.disk && a.slice == b.slice)
}
