//! The points of Hammersley (1960) in two dimensions.
ghost use Rattle.sequences.specs.Sequences.{hammersley};

use crate::index::Index;
use crate::sequence::{PointFormula, Sequence};
use nets::{Level, Place};

/// The formula of Hammersley's points, as a type: x is i/2^m, and y the m binary digits of i in reverse order.
#[derive(Clone, Copy, Debug, PartialEq, Eq)]
pub struct HammersleyPoints;

/// The plan of Hammersley's points.
pub type Hammersley = Sequence<HammersleyPoints>;

impl PointFormula for HammersleyPoints {
    ghost point = { hammersley };

    fn show_net(_level: Level) {}

    fn point(index: Index) -> Place {
        (index.in_order(), index.reversed())
    }
}
