ghost use Rattle.std.specs.Prelude.{◌≡◌, ◌↔◌, ℕ, All, IsTrue, IfOk, length};
ghost use Rattle.mdv_fitting.specs.Below.{IsSound, list_uses, uses_of};
ghost use Rattle.mdv_fitting.specs.Beside.{HasOnce};
ghost use Rattle.mdv_fitting.specs.Fit.{Fits};
ghost use Rattle.mdv_fitting.specs.Parts.{parts_of};

use crate::beside::stand_together;
use crate::climb::lie_on_bases;
use crate::parts::all_lie;
use crate::places::are_placed;
use crate::slices::slices_of;
use mdv_name::Geometry;
use mdv_plan::{Lists, Plan, Pool, SliceUse};
use mdv_shape::{set_of, spare_keys};
use std::alloc::{AllocError, Global};

// The uses behind those by replicas.
fn parts_in<'a>(lists: &Lists, uses: &'a [SliceUse]) -> &'a [SliceUse]
    ensures { (p : Plan) → lists.now ≡ p.lists → uses.now ≡ uses_of p → result.now ≡ parts_of p }
{
    let places = match lists {
        Lists::One(places) => places.as_slice().len(),
        Lists::Two(from, to) => from.as_slice().len().saturating_add(to.as_slice().len()),
    };
    uses.get(places..).unwrap_or(&[])
}

fn has_once(alloc: Global, pool: &Pool) -> Result<bool, AllocError>
    ensures { IfOk result (λ yes. IsTrue yes ↔ HasOnce pool.now) }
{
    let keys = spare_keys(alloc, pool.spares.as_slice())?;
    let set = set_of(alloc, keys.as_slice())?;
    Ok(set.is_some())
}

fn have_once(alloc: Global, pools: &[Pool]) -> Result<bool, AllocError>
    ensures { IfOk result (λ yes. IsTrue yes ↔ All HasOnce pools.now) }
{
    for pool in pools {
        if !has_once(alloc, pool)? {
            return Ok(false);
        }
    }
    Ok(true)
}

/// Whether all that the plan lays on slices has its blocks there, each use of a slice where it may stand beside the others.
/// The work is linear in the uses, with look-ups of slices, and sorting of the extents on each base.
pub fn fits(alloc: Global, geometry: &Geometry, plan: &Plan) -> Result<bool, AllocError>
    requires { IsSound geometry.now }
    ensures { IfOk result (λ yes. IsTrue yes ↔ Fits geometry.now plan.now) }
{
    let uses = plan.uses(alloc)?;
    let parts = parts_in(&plan.lists, uses.as_slice());
    if !are_placed(geometry, &plan.lists) {
        return Ok(false);
    }
    let slices = slices_of(alloc, geometry)?;
    if !all_lie(geometry, &slices, &plan.lists, parts) {
        return Ok(false);
    }
    if !stand_together(alloc, geometry, &slices, parts)? {
        return Ok(false);
    }
    if !have_once(alloc, plan.pools.as_slice())? {
        return Ok(false);
    }
    lie_on_bases(alloc, geometry, &slices, plan)
}
