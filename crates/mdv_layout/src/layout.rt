ghost use Rattle.std.specs.Prelude.{◌≡◌, ◌+◌, ◌<◌, ◌≤◌, [], ◌∷◌, ◌++◌, length};
ghost use Rattle.mdv_config.specs.Slices.{IsSound};
ghost use Rattle.mdv_config.specs.Table.{IsRowOf, first_blocks, width};
ghost use Rattle.mdv_dev.specs.Pieces.{IsPiece};
ghost use Rattle.mdv_dev.specs.Together.{LieTogether};
ghost use Rattle.mdv_layout_law.specs.Layout.{row_map};
ghost use Rattle.mdv_layout.specs.Layouts.{IsLayout, IsRow, IsRowAt, layout_map, leaves_of, row_maps};
ghost use Rattle.mdv_layout.specs.OneCopy.{layout_bounded, layout_one};
ghost use Rattle.mdv_plan.specs.declared.plan.Plan.{Plan};

use crate::leaf::{Leaf, add_leaves};
use crate::row::LaidRow;
use arrayvec::ArrayVec;
use mdv_dev::{Piece, Placed, is_behind};
use mdv_name::Geometry;
use mdv_plan::{Component, MAX_COMPONENTS, Row};
use mdv_stripe::Stripe;

/// A volume of rows as a device of `mdv_dev`: each row is a stripe over its components, and the rows follow one another. It takes no
/// memory but its own, and lends nothing.
#[derive(Drop)]
pub struct Layout {
    leaves: ArrayVec<Leaf, MAX_COMPONENTS>,
    rows: ArrayVec<LaidRow, MAX_COMPONENTS>,
    blocks: u64,
}

impl Layout {
    /// A volume without a row yet.
    pub(crate) fn new() -> Layout
        ensures well { IsLayout result }
        ensures leaves { result.leaves.items ≡ [] }
        ensures rows { result.rows.items ≡ [] }
    {
        Layout {
            leaves: ArrayVec::new(),
            rows: ArrayVec::new(),
            blocks: 0,
        }
    }

    /// Lays the row behind the others.
    pub(crate) fn add(&mut self, geometry: &Geometry, row: &Row)
        requires well { IsLayout self.old }
        requires sound { IsSound geometry.now }
        requires row { IsRowOf geometry.now row.now }
        requires room { length self.old.leaves.items + width row.now ≤ 100 }
        ensures well { IsLayout self.new }
        ensures laid { (p : Plan) → row_maps self.new ≡ row_maps self.old ++ row_map geometry.now p row.now ∷ [] }
        ensures leaves { length self.new.leaves.items ≡ length self.old.leaves.items + width row.now }
    {
        let components = row.components.as_slice();
        let first = self.leaves.len();
        let width = components.len();
        let depth = depth_of(components);
        let interlace = u64::from(row.interlace);
        add_leaves(&mut self.leaves, geometry, depth, components);
        self.rows.push(LaidRow {
            start: self.blocks,
            first,
            width,
            interlace,
            units: depth / interlace,
        });
        self.blocks += width as u64 * depth;
    }

    // The row in which the block lies, found in logarithmic time.
    fn row_at(&self, at: u64) -> LaidRow
        requires well { IsLayout self.now }
        requires within { at < (layout_map self.now).blocks }
        ensures { IsRowAt self.now at result }
    {
        let rows = self.rows.as_slice();
        let behind = rows.partition_point(|row| row.start <= at);
        rows[behind - 1]
    }

    // The row as a stripe.
    fn stripe_of(&self, row: LaidRow) -> Stripe<'_, Leaf>
        requires { IsRow self.now.leaves.items row }
        ensures components { result.components.now ≡ leaves_of self.now.leaves.items row }
        ensures interlace { result.interlace ≡ row.interlace }
        ensures units { result.units ≡ row.units }
    {
        Stripe {
            components: &self.leaves.as_slice()[row.first..row.first + row.width],
            interlace: row.interlace,
            units: row.units,
        }
    }

    // The first of these blocks, as many as lie together in one row.
    fn row_piece(&self, at: u64, count: u64) -> Piece
        requires well { IsLayout self.now }
        requires some { 0 < count }
        requires within { at + count ≤ (layout_map self.now).blocks }
        ensures { LieTogether (layout_map self.now) at count result }
    {
        let row = self.row_at(at);
        let stripe = self.stripe_of(row);
        let from = at - row.start;
        stripe.piece(from, count.min(stripe.blocks() - from))
    }
}

// How many blocks each component of a row has.
fn depth_of(components: &[Component]) -> u64
    ensures { result ≡ first_blocks components.now }
{
    match components.first() {
        Some(component) => component.blocks,
        None => 0,
    }
}

impl Placed for Layout {
    ghost map = { λ layout. layout_map layout };

    ghost IsWell = { λ layout. IsLayout layout };

    ghost bounded = { λ layout well. layout_bounded layout well };

    ghost one = { λ layout well. layout_one layout well };

    fn blocks(&self) -> u64 {
        self.blocks
    }

    // Row after row, as long as one lies right behind the other on a drive.
    fn piece(&self, at: u64, count: u64) -> Piece {
        let mut piece = self.row_piece(at, count);
        while piece.count < count {
            let next = self.row_piece(at + piece.count, count - piece.count);
            if !is_behind(piece, next) {
                return piece;
            }
            piece.count += next.count;
        }
        piece
    }
}
