ghost use Rattle.std.specs.Prelude.{◌≡◌, ◌<◌, length};
ghost use Rattle.std.specs.List.{All};
ghost use Rattle.mdv_stripe.specs.Stripes.{least as spec_least, maps_of};

use mdv_dev::Placed;

/// How many blocks the shortest of them has.
pub(crate) fn least_blocks<D: Placed>(components: &[D]) -> u64
    requires well { All D.IsWell components.now }
    requires some { 0 < length components.now }
    ensures { result ≡ spec_least (maps_of D.map components.now) }
{
    let mut least = components[0].blocks();
    for component in components {
        least = least.min(component.blocks());
    }
    least
}
