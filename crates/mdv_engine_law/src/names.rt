ghost use Rattle.std.specs.Prelude.{◌≡◌};
ghost use Rattle.std.specs.List.{list_any};
ghost use Rattle.mdv_base.specs.Order.{first_refusal};
ghost use Rattle.mdv_engine_law.specs.Refusals.{held_of_names, names_no_volume as spec_names_no_volume, names_pool as spec_names_pool};

use mdv_base::{Named, Refusal};
use mdv_components::volume_of;
use mdv_plan::Plan;

/// The first cause for which what has these names can't be printed: a volume that isn't there (E4), or a hot spare
/// pool (E26), of which there are none.
pub fn names_refusal(plan: &Plan, names: &[Named]) -> Option<Refusal>
    ensures { result ≡ first_refusal (held_of_names plan.now names.now) }
{
    if lacks_one(plan, names) {
        return Some(Refusal::NoSuchVolume);
    }
    if have_pool(names) {
        return Some(Refusal::NoSuchPool);
    }
    None
}

fn lacks_one(plan: &Plan, names: &[Named]) -> bool
    ensures { result ≡ list_any (spec_names_no_volume plan.now) names.now }
{
    names.iter().any(|name| names_no_volume(plan, *name))
}

fn have_pool(names: &[Named]) -> bool
    ensures { result ≡ list_any spec_names_pool names.now }
{
    names.iter().any(|name| names_pool(*name))
}

fn names_no_volume(plan: &Plan, name: Named) -> bool
    ensures { result ≡ spec_names_no_volume plan.now name }
{
    match name {
        Named::Volume(number) => volume_of(plan, number).is_none(),
        Named::Pool(_) => false,
    }
}

fn names_pool(name: Named) -> bool
    ensures { result ≡ spec_names_pool name }
{
    match name {
        Named::Volume(_) => false,
        Named::Pool(_) => true,
    }
}
