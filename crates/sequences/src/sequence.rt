//! A plan whose places are told by level and index.
ghost use Rattle.std.specs.Prelude.{◌≡◌, ℕ};
ghost use Rattle.nets.specs.Places.{Place, IsNet};
ghost use Rattle.nets.specs.Points.{points_of};
ghost use Rattle.nets.specs.Refusals.{MakesLevel};

use crate::index::Index;
use nets::{Level, LevelFault, Net, Place, PlaceFault};
use std::marker::PhantomData;

/// A formula for the points of each level, in a fixed order.
pub trait PointFormula {
    ghost point: { ℕ → ℕ → Place };

    /// The point at an index.
    fn point(index: Index) -> Place
        ensures { result ≡ point index.level.m index.i };

    /// All points of a level are a net. It does nothing when it is run.
    fn show_net(level: Level)
        ensures { IsNet level.m (points_of point level.m) };
}

/// The plan of a level whose places are the points of the formula P.
#[derive(Clone, Copy, Debug, PartialEq, Eq)]
pub struct Sequence<P> {
    level: Level,
    points: PhantomData<P>,
}

impl<P> Sequence<P> {
    /// The plan of a level.
    ///
    /// # Errors
    /// 4 for a level over 12.
    pub fn new(level: u32) -> Result<Self, LevelFault>
        ensures { MakesLevel (λ p. p.level.m) level result }
    {
        let level = Level::try_from(level)?;
        Ok(level.into())
    }
}

impl<P> From<Level> for Sequence<P> {
    ghost from_gives = { λ level r. r.level ≡ level };

    fn from(level: Level) -> Self {
        Sequence {
            level,
            points: PhantomData,
        }
    }
}

impl<P: PointFormula> Net for Sequence<P> {
    ghost level = { λ p. p.level.m };

    ghost places = { λ p. points_of P.point p.level.m };

    fn show_net(&self) {
        P::show_net(self.level)
    }

    fn level(&self) -> Level {
        self.level
    }

    #[tactic(auto, using(nets::proofs::Points::point_at))]
    fn place(&self, i: u32) -> Result<Place, PlaceFault> {
        let index = Index::new(self.level, i)?;
        Ok(P::point(index))
    }
}
