//! The layer that exchanges x and y.
ghost use Rattle.std.specs.Prelude.{◌≡◌};
ghost use Rattle.layers.specs.Layers.{swap_of};

use crate::layer::Layer;
use crate::layered::Layered;
use nets::Place;

/// The layer that makes each (x, y) to (y, x).
#[derive(Clone, Copy, Debug, PartialEq, Eq)]
pub struct SwapLayer;

/// A plan with the swap on it.
pub type Swap<P> = Layered<P, SwapLayer>;

impl<P> Layered<P, SwapLayer> {
    /// The plan with the swap on it.
    pub fn new(plan: P) -> Self
        ensures { result.plan ≡ plan }
    {
        Layered::on(plan, SwapLayer)
    }
}

impl Layer for SwapLayer {
    ghost moved = { λ _. swap_of };

    fn show_keeps(&self) {}

    fn moved(&self, place: Place) -> Place {
        let (x, y) = place;
        (y, x)
    }
}
