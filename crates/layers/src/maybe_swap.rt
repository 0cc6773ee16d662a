//! A plan with the swap on it, or without.
ghost use Rattle.std.specs.Prelude.{◌≡◌, if◌then◌else◌};

use crate::layered::Layered;
use crate::swap::SwapLayer;

/// A plan whose places are swapped or not, as was chosen when it was made.
pub type MaybeSwap<P> = Layered<P, Option<SwapLayer>>;

impl<P> Layered<P, Option<SwapLayer>> {
    /// The plan, with the swap on it if `swap` is true.
    pub fn new(plan: P, swap: bool) -> Self
        ensures { (result.plan ≡ plan) × (result.layer ≡ (if swap then Some (record {}) else None)) }
    {
        Layered::on(plan, swap.then_some(SwapLayer))
    }
}
