//! Which volumes name a volume or a pool.
ghost use Rattle.std.specs.Prelude.{◌≡◌};
ghost use Rattle.std.specs.List.{list_any};
ghost use Rattle.mdv_plan.specs.Parents.{is_volume as spec_is_volume, is_in_row as spec_is_in_row, is_component, is_submirror};
ghost use Rattle.mdv_plan.specs.Parents.{names_volume as spec_names_volume, takes_volume as spec_takes_volume, names_pool as spec_names_pool, is_pool as spec_is_pool};
ghost use Rattle.mdv_plan.specs.Parents.{has_parent as spec_has_parent, is_taken as spec_is_taken, is_pool_named as spec_is_pool_named};

use crate::plan::Plan;
use crate::volume::{Base, Component, Row, VolumeKind};
use mdv_base::{PoolId, VolId};

impl Plan {
    /// Whether a volume uses this one. Then it can't be cleared, nor written to by itself.
    pub fn has_parent(&self, volume: VolId) -> bool
        ensures { result ≡ spec_has_parent self.now volume }
    {
        let volumes = self.volumes.as_slice();
        volumes.iter().any(|w| names_volume(&w.kind, volume))
    }

    /// Whether a volume uses this one that isn't a soft partition. Else soft partitions may lie on it.
    pub fn is_taken(&self, volume: VolId) -> bool
        ensures { result ≡ spec_is_taken self.now volume }
    {
        let volumes = self.volumes.as_slice();
        volumes.iter().any(|w| takes_volume(&w.kind, volume))
    }

    /// Whether a volume takes its spares from this pool.
    pub fn is_pool_named(&self, pool: PoolId) -> bool
        ensures { result ≡ spec_is_pool_named self.now pool }
    {
        let volumes = self.volumes.as_slice();
        volumes.iter().any(|w| names_pool(&w.kind, pool))
    }
}

/// Whether a volume of this kind has the volume as a submirror, component, column or base.
pub fn names_volume(kind: &VolumeKind, volume: VolId) -> bool
    ensures { result ≡ spec_names_volume volume kind.now }
{
    match kind {
        VolumeKind::Stripe(stripe) => is_in_rows(stripe.rows.as_slice(), volume),
        VolumeKind::Mirror(mirror) => is_among(mirror.submirrors.as_slice(), volume),
        VolumeKind::Raid(raid) => is_in(raid.columns.as_slice(), volume),
        VolumeKind::Soft(soft) => is_volume(soft.base, volume),
    }
}

fn takes_volume(kind: &VolumeKind, volume: VolId) -> bool
    ensures { result ≡ spec_takes_volume volume kind.now }
{
    match kind {
        VolumeKind::Soft(_) => false,
        _ => names_volume(kind, volume),
    }
}

/// Whether a volume of this kind takes its spares from the pool.
pub fn names_pool(kind: &VolumeKind, pool: PoolId) -> bool
    ensures { result ≡ spec_names_pool pool kind.now }
{
    match kind {
        VolumeKind::Stripe(stripe) => is_pool(stripe.spares, pool),
        VolumeKind::Raid(raid) => is_pool(raid.spares, pool),
        _ => false,
    }
}

fn is_pool(named: Option<PoolId>, pool: PoolId) -> bool
    ensures { result ≡ spec_is_pool pool named }
{
    match named {
        Some(named) => named.0 == pool.0,
        None => false,
    }
}

fn is_in_rows(rows: &[Row], volume: VolId) -> bool
    ensures { result ≡ list_any (spec_is_in_row volume) rows.now }
{
    rows.iter()
        .any(|row| is_in(row.components.as_slice(), volume))
}

fn is_in(components: &[Component], volume: VolId) -> bool
    ensures { result ≡ list_any (is_component volume) components.now }
{
    components.iter().any(|c| is_volume(c.on, volume))
}

fn is_among(submirrors: &[VolId], volume: VolId) -> bool
    ensures { result ≡ list_any (is_submirror volume) submirrors.now }
{
    submirrors.iter().any(|w| w.0 == volume.0)
}

fn is_volume(base: Base, volume: VolId) -> bool
    ensures { result ≡ spec_is_volume volume base }
{
    match base {
        Base::Slice(_) => false,
        Base::Volume(named) => named.0 == volume.0,
    }
}
