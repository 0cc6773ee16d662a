//! The numbers of a plan's layers, and the plan with all of them on it.
ghost use Rattle.std.specs.Prelude.{◌≡◌, if◌then◌else◌};

use crate::maybe_swap::MaybeSwap;
use crate::scramble::Scramble;
use crate::shift::Shift;

/// A shift, a scramble, and whether to swap. Numbers of 0 keep each place.
#[derive(Clone, Copy, Debug, Default, PartialEq, Eq)]
pub struct LayerNumbers {
    /// What x is shifted by, digitally.
    pub s: u16,
    /// What y is shifted by.
    pub t: u16,
    /// The word that scrambles x.
    pub x_word: u64,
    /// The word that scrambles y.
    pub y_word: u64,
    /// Whether x and y are exchanged.
    pub swap: bool,
}

/// A plan with all three layers on it.
pub type LayeredPlan<P> = MaybeSwap<Scramble<Shift<P>>>;

impl LayerNumbers {
    /// The plan with the shift on it, then the scramble, and then the swap or none.
    pub fn on<P>(self, plan: P) -> LayeredPlan<P>
        ensures plan { result.plan.plan.plan ≡ plan }
        ensures shift { (result.plan.plan.layer.s ≡ self.s) × (result.plan.plan.layer.t ≡ self.t) }
        ensures scramble { (result.plan.layer.x_word ≡ self.x_word)
            × (result.plan.layer.y_word ≡ self.y_word) }
        ensures swap { result.layer ≡ (if self.swap then Some (record {}) else None) }
    {
        let shift = Shift::new(plan, self.s, self.t);
        let scramble = Scramble::new(shift, self.x_word, self.y_word);
        MaybeSwap::new(scramble, self.swap)
    }
}
