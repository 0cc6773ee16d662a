//! The layer that shifts each place digitally.
ghost use Rattle.std.specs.Prelude.{◌≡◌, ◌^◌, ◌<◌};
ghost use Rattle.layers.specs.Layers.{shift_of};

use crate::layer::Layer;
use crate::layered::Layered;
use nets::Place;

/// The layer that makes each x to x XOR s, and each y to y XOR t.
#[derive(Clone, Copy, Debug, PartialEq, Eq)]
pub struct ShiftLayer {
    s: u16,
    t: u16,
    ghost s_fits: { s < 2 ^ 16 },
    ghost t_fits: { t < 2 ^ 16 },
}

/// A plan with a shift on it.
pub type Shift<P> = Layered<P, ShiftLayer>;

impl<P> Layered<P, ShiftLayer> {
    /// The plan with a shift by (s, t) on it.
    pub fn new(plan: P, s: u16, t: u16) -> Self
        ensures { (result.plan ≡ plan) × (result.layer.s ≡ s) × (result.layer.t ≡ t) }
    {
        Layered::on(plan, ShiftLayer { s, t })
    }
}

impl Layer for ShiftLayer {
    ghost moved = { λ l. shift_of l.s l.t };

    fn show_keeps(&self) {}

    fn moved(&self, place: Place) -> Place {
        let (x, y) = place;
        (x ^ self.s, y ^ self.t)
    }
}
