ghost use Rattle.std.specs.Prelude.{◌≡◌, ◌+◌, ◌≤◌, ◌++◌, length, map, All};
ghost use Rattle.mdv_config.specs.Slices.{IsSound};
ghost use Rattle.mdv_config.specs.Table.{IsPartOn};
ghost use Rattle.mdv_layout.specs.Leaves.{IsLeaf, leaf_map, leaf_of as spec_leaf_of};
ghost use Rattle.mdv_layout.specs.OneCopy.{leaf_bounded, leaf_one};

use arrayvec::ArrayVec;
use mdv_base::DriveNo;
use mdv_dev::{DriveRun, Piece, Placed};
use mdv_name::Geometry;
use mdv_plan::{Base, Component, MAX_COMPONENTS, slice_at};

/// A component of a volume as a device: so many blocks of a drive.
#[derive(Clone, Copy, Debug)]
pub(crate) struct Leaf {
    pub(crate) run: DriveRun,
}

impl Default for Leaf {
    fn default() -> Self {
        Leaf {
            run: DriveRun {
                drive: DriveNo(0),
                first: 0,
                count: 0,
            },
        }
    }
}

impl Placed for Leaf {
    ghost map = { λ leaf. leaf_map leaf };

    ghost IsWell = { λ leaf. IsLeaf leaf };

    ghost bounded = { λ leaf well. leaf_bounded leaf well };

    ghost one = { λ leaf well. leaf_one leaf well };

    fn blocks(&self) -> u64 {
        self.run.blocks()
    }

    fn piece(&self, at: u64, count: u64) -> Piece {
        self.run.piece(at, count)
    }
}

// The component as a leaf. It lies on a slice, and has so many blocks of it.
fn leaf_of(geometry: &Geometry, depth: u64, component: &Component) -> Leaf
    requires sound { IsSound geometry.now }
    requires part { IsPartOn geometry.now depth component.now component.now.on }
    ensures { result ≡ spec_leaf_of geometry.now component.now }
{
    match component.on {
        Base::Slice(slice) => match slice_at(geometry, slice) {
            Some(at) => Leaf {
                run: DriveRun {
                    drive: at.drive,
                    first: at.start + component.start,
                    count: component.blocks,
                },
            },
            None => unreachable!(),
        },
        Base::Volume(_) => unreachable!(),
    }
}

/// Puts the components of a row behind the leaves.
pub(crate) fn add_leaves(
    leaves: &mut ArrayVec<Leaf, MAX_COMPONENTS>,
    geometry: &Geometry,
    depth: u64,
    components: &[Component],
)
    requires sound { IsSound geometry.now }
    requires parts { All (λ c. IsPartOn geometry.now depth c c.on) components.now }
    requires room { length leaves.old.items + length components.now ≤ 100 }
    ensures { leaves.new.items ≡ leaves.old.items ++ map (spec_leaf_of geometry.now) components.now }
{
    for component in components {
        leaves.push(leaf_of(geometry, depth, component));
    }
}
