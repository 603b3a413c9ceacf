//! The table that a change makes of another one.
ghost use Rattle.std.specs.Prelude.{◌≡◌, ◌∷◌, [], false, Some, IfErr, IfOk, IsOk, OnOk};
ghost use Rattle.mdv_base.specs.Order.{first_refusal};
ghost use Rattle.mdv_base.specs.declared.refusal.Refusal.TheVariants.{WrongKind};
ghost use Rattle.std.specs.List.{list_any};
ghost use Rattle.mdv_keeping.specs.Below.{HasFault, IsMade, IsOfGeometry, IsSound};
ghost use Rattle.mdv_keeping.specs.Built.{IsBuilt, has_db as spec_has_db, is_db as spec_is_db, names_db as spec_names_db};
ghost use Rattle.mdv_keeping.specs.Keeping.{IsStepOf};
ghost use Rattle.mdv_keeping.specs.Refused.{IsFaultOf, cause_with, refusal_in};

use mdv_base::{DriveNo, Refusal};
use mdv_change::{ApplyFault, Change, apply};
use mdv_components::RowAsked;
use mdv_name::Geometry;
use mdv_plan::{Base, Copied, Table, slice_at};
use std::alloc::Global;

/// The table after the change, beside the one that stays, or why there is none. The drives are those of the
/// database. A component on a slice that is set aside for replicas is refused as of the wrong kind. The work is that of
/// a copy of the table, and of `mdv_change::apply`.
pub fn next_table(
    alloc: Global,
    geometry: &Geometry,
    drives: &[DriveNo],
    table: &Table,
    change: &Change,
) -> Result<Table, ApplyFault>
    requires sound { IsSound geometry.now }
    requires of_geometry { IsOfGeometry geometry.now table.now }
    requires built { IsBuilt change.now }
    ensures made { IfOk result (λ next. IsMade geometry.now drives.now change.now table.now next) }
    ensures step { IfOk result (λ next. IsStepOf geometry.now change.now table.now next) }
    ensures cause { IfErr result (λ fault. HasFault (refusal_in geometry.now drives.now table.now change.now) fault) }
{
    let mut next = table.copied(alloc)?;
    let applied = apply(alloc, geometry, drives, &mut next, change);
    judged(applied, names_db(geometry, change))?;
    Ok(next)
}

// What the rules say of a change, and that it names a slice for replicas.
fn judged(applied: Result<(), ApplyFault>, is_db: bool) -> Result<(), ApplyFault>
    ensures ok { OnOk result (IsOk applied × (is_db ≡ false)) }
    ensures err { IfErr result (IsFaultOf applied is_db) }
{
    match applied {
        Ok(()) if is_db => Err(ApplyFault::Refused(Refusal::WrongKind)),
        Ok(()) => Ok(()),
        Err(ApplyFault::Refused(refusal)) => Err(ApplyFault::Refused(first_of(refusal, is_db))),
        Err(ApplyFault::Memory) => Err(ApplyFault::Memory),
    }
}

fn first_of(refusal: Refusal, is_db: bool) -> Refusal
    ensures { cause_with (Some refusal) is_db ≡ Some result }
{
    if is_db { or_kind(refusal) } else { refusal }
}

// The first one of this cause and that of a slice of the wrong kind.
fn or_kind(refusal: Refusal) -> Refusal
    ensures { first_refusal (refusal ∷ WrongKind ∷ []) ≡ Some result }
{
    match refusal {
        Refusal::BadLine
        | Refusal::NoDatabase
        | Refusal::NoSuchVolume
        | Refusal::NameTaken
        | Refusal::NoSuchSlice
        | Refusal::NotOwner
        | Refusal::OwnedByOther(_)
        | Refusal::NoSuchSet
        | Refusal::NoSuchHost
        | Refusal::NoSuchPool
        | Refusal::SetNoQuorum { .. }
        | Refusal::LineTooLong => refusal,
        _ => Refusal::WrongKind,
    }
}

// Whether one of the slices that a change names is set aside for replicas, of the changes that the program makes.
fn names_db(geometry: &Geometry, change: &Change) -> bool
    requires { IsSound geometry.now }
    ensures { result ≡ spec_names_db geometry.now change.now }
{
    match change {
        Change::MakeStripe { rows, .. } => have_db(geometry, rows.as_slice()),
        Change::AddRow { row, .. } => has_db(geometry, row),
        _ => false,
    }
}

fn have_db(geometry: &Geometry, rows: &[RowAsked]) -> bool
    requires { IsSound geometry.now }
    ensures { result ≡ list_any (spec_has_db geometry.now) rows.now }
{
    rows.iter().any(|row| has_db(geometry, row))
}

fn has_db(geometry: &Geometry, row: &RowAsked) -> bool
    requires { IsSound geometry.now }
    ensures { result ≡ spec_has_db geometry.now row.now }
{
    row.components
        .as_slice()
        .iter()
        .any(|base| is_db(geometry, *base))
}

fn is_db(geometry: &Geometry, base: Base) -> bool
    requires { IsSound geometry.now }
    ensures { result ≡ spec_is_db geometry.now base }
{
    match base {
        Base::Slice(slice) => match slice_at(geometry, slice) {
            Some(at) => at.db,
            None => false,
        },
        Base::Volume(_) => false,
    }
}
