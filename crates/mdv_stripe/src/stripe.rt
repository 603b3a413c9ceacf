ghost use Rattle.std.specs.Prelude.{◌≡◌, ◌+◌, ◌<◌, ◌≤◌, ◌^◌, ◌&&◌, ◌==◌, length, IfOk, IfErr, SomeIff};
ghost use Rattle.std.specs.List.{All};
ghost use Rattle.mdv_dev.specs.Pieces.{IsPiece};
ghost use Rattle.mdv_map.specs.Maps.{column_at};
ghost use Rattle.mdv_stripe.specs.OneCopy.{stripe_one};
ghost use Rattle.mdv_dev.specs.Together.{LieTogether, LiesAs};
ghost use Rattle.mdv_stripe.specs.Stripes.{IsLeg, IsNoStripe, IsStripe, IsWidth, maps_of, striped, units_of};

use crate::least::least_blocks;
use crate::{Leg, NoStripe};
use mdv_dev::{Piece, Placed, is_behind};

const MOST_COMPONENTS: usize = 100;

const LEAST_INTERLACE: u64 = 16;

const MOST_INTERLACE: u64 = 204800;

/// One stripe of a volume, as `metainit d10 1 3 c0t1d0s0 c0t2d0s0 c0t3d0s0 -i 32b` makes it: blocks are dealt to the components in units of so
/// many blocks, the interlace, in turn, and each gets as many units as the shortest one has whole. A lone component is all of the stripe,
/// whatever the interlace. Stripes that follow one another are a `Chain` of them.
#[derive_where(Clone, Copy)]
#[derive_where(Debug; D)]
pub struct Stripe<'a, D> {
    /// 1 to 100 of them.
    pub components: &'a [D],
    /// In blocks, 16 to 204800.
    pub interlace: u64,
    /// How many units each component has. It says nothing of a lone one.
    pub units: u64,
}

impl<'a, D: Placed> Stripe<'a, D> {
    /// The stripe of these components, or the first cause for which there is none. It makes no call.
    pub fn new(components: &'a [D], interlace: u64) -> Result<Stripe<'a, D>, NoStripe>
        requires { All D.IsWell components.now }
        ensures made { IfOk result (λ s. (s.components.now ≡ components.now) × (s.interlace ≡ interlace) × ⟦<Stripe<'a, D> as Placed>⟧.IsWell s) }
        ensures refused { IfErr result (λ why. IsNoStripe interlace (maps_of D.map components.now) why) }
    {
        if components.is_empty() {
            return Err(NoStripe::TooFew);
        }
        if components.len() > MOST_COMPONENTS {
            return Err(NoStripe::TooMany);
        }
        if interlace < LEAST_INTERLACE || interlace > MOST_INTERLACE {
            return Err(NoStripe::BadInterlace);
        }
        let units = least_blocks(components) / interlace;
        let stripe = Stripe {
            components,
            interlace,
            units,
        };
        match stripe.counted() {
            None => Err(NoStripe::TooLong),
            Some(0) => Err(NoStripe::TooSmall),
            Some(_) => Ok(stripe),
        }
    }

    // How many blocks it has, where 64 bits can tell.
    fn counted(&self) -> Option<u64>
        requires each { All D.IsWell self.now.components.now }
        requires width { IsWidth (length self.now.components.now) }
        requires dealt { self.now.units ≡ units_of self.now.interlace (maps_of D.map self.now.components.now) }
        ensures { SomeIff result ((⟦<Stripe<'a, D> as Placed>⟧.map self.now).blocks < 2 ^ 64) (⟦<Stripe<'a, D> as Placed>⟧.map self.now).blocks }
    {
        let width = self.components.len() as u64;
        if width == 1 {
            return Some(self.components[0].blocks());
        }
        width.checked_mul(self.units.checked_mul(self.interlace)?)
    }

    /// The component that the block lies in, and which block of that it is.
    pub fn leg_of(&self, at: u64) -> Leg
        requires well { ⟦<Stripe<'a, D> as Placed>⟧.IsWell self.now }
        requires within { at < (⟦<Stripe<'a, D> as Placed>⟧.map self.now).blocks }
        ensures rule { IsLeg self.now.interlace (length self.now.components.now) at result }
        ensures listed { result.component < length self.now.components.now }
        ensures lies { LiesAs (⟦<Stripe<'a, D> as Placed>⟧.map self.now) at (column_at (maps_of D.map self.now.components.now) result.component) result.block }
    {
        let width = self.components.len() as u64;
        let unit = at / self.interlace;
        Leg {
            component: (unit % width) as usize,
            block: unit / width * self.interlace + at % self.interlace,
        }
    }

    // The first of these blocks, as many as lie together in one unit.
    fn unit_piece(&self, at: u64, count: u64) -> Piece
        requires well { ⟦<Stripe<'a, D> as Placed>⟧.IsWell self.now }
        requires wide { 1 < length self.now.components.now }
        requires some { 0 < count }
        requires within { at + count ≤ (⟦<Stripe<'a, D> as Placed>⟧.map self.now).blocks }
        ensures { LieTogether (⟦<Stripe<'a, D> as Placed>⟧.map self.now) at count result }
    {
        let leg = self.leg_of(at);
        let left = self.interlace - at % self.interlace;
        self.components[leg.component].piece(leg.block, count.min(left))
    }

    // Unit after unit, as long as one lies right behind the other on a drive.
    fn joined_units(&self, at: u64, count: u64) -> Piece
        requires well { ⟦<Stripe<'a, D> as Placed>⟧.IsWell self.now }
        requires wide { 1 < length self.now.components.now }
        requires some { 0 < count }
        requires within { at + count ≤ (⟦<Stripe<'a, D> as Placed>⟧.map self.now).blocks }
        ensures { IsPiece (⟦<Stripe<'a, D> as Placed>⟧.map self.now) at count result }
    {
        let mut piece = self.unit_piece(at, count);
        while piece.count < count {
            let next = self.unit_piece(at + piece.count, count - piece.count);
            if !is_behind(piece, next) {
                return piece;
            }
            piece.count += next.count;
        }
        piece
    }
}

impl<'a, D: Placed> Placed for Stripe<'a, D> {
    ghost map = { λ stripe. striped stripe.interlace (maps_of D.map stripe.components.now) };

    ghost IsWell = { λ stripe. All D.IsWell stripe.components.now × IsStripe stripe.interlace stripe.units (maps_of D.map stripe.components.now) };

    ghost bounded = { λ stripe well. well.1.bounded };

    ghost one = { λ stripe well. stripe_one D.map D.IsWell D.one stripe.interlace stripe.units stripe.components.now well.0 well.1 };

    fn blocks(&self) -> u64 {
        let width = self.components.len() as u64;
        if width == 1 {
            return self.components[0].blocks();
        }
        width * (self.units * self.interlace)
    }

    fn piece(&self, at: u64, count: u64) -> Piece {
        if self.components.len() == 1 {
            return self.components[0].piece(at, count);
        }
        self.joined_units(at, count)
    }
}
