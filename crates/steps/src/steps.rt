//! Step maps: steps along x times steps along y.
ghost use Rattle.std.specs.Prelude.{◌≡◌, []};
ghost use Rattle.coats.specs.Terms.{IsMap, weight_of};
ghost use Rattle.steps.specs.Rows.{steps_terms};

use crate::axes::{Axes, Axis};
use crate::step::Step;
use arrayvec::ArrayVec;
use coats::{CoatMap, MapFault, check_weight};
use nets::Place;

/// How many steps a map has along each axis at most.
pub const MOST_STEPS: usize = 16;

/// A map of up to [`MOST_STEPS`] steps along x and as many along y: the coat at a place is what the steps
/// along x add up to there, times what those along y do. They lie in the value itself, so that replacing
/// them needs no memory.
#[derive(Debug, Drop)]
pub struct Steps {
    x: ArrayVec<Step, MOST_STEPS>,
    y: ArrayVec<Step, MOST_STEPS>,
    weight: u32,
    ghost map: { IsMap (steps_terms x.items y.items) },
    ghost weighs: { weight ≡ weight_of (steps_terms x.items y.items) },
}

impl Steps {
    ghost use Rattle.steps.specs.Replaced.{ReplacesSteps};

    /// A map of no steps, whose coat is 0 everywhere.
    pub fn new() -> Self
        ensures { (result.x.items ≡ []) × (result.y.items ≡ []) }
    {
        Steps {
            x: ArrayVec::new(),
            y: ArrayVec::new(),
            weight: 0,
        }
    }

    /// Replaces the steps by these, in this order. The map stays as it was where they are refused.
    ///
    /// # Errors
    /// The first of these: 7 for more than [`MOST_STEPS`] along an axis, 8 for the first step that is out of
    /// its bounds, where those along y are numbered after those along x, 9 for a weight over
    /// [`coats::HEAVIEST`].
    #[tactic(auto, using(crate::proofs::Pairings::steps_sides))]
    pub fn replace(&mut self, x: &[Step], y: &[Step]) -> Result<(), MapFault>
        ensures { ReplacesSteps x.now y.now self.old self.new result }
    {
        let x = ArrayVec::try_from(x).map_err(|_| MapFault::Count)?;
        let y = ArrayVec::try_from(y).map_err(|_| MapFault::Count)?;
        let axes = Axes {
            x: Axis { steps: &x },
            y: Axis { steps: &y },
        };
        axes.check_bounds()?;
        let weight = check_weight(axes.weigh())?;
        *self = Steps { x, y, weight };
        Ok(())
    }
}

impl CoatMap for Steps {
    ghost terms = { λ m. steps_terms m.x.items m.y.items };

    fn show_map(&self) {}

    fn weight(&self) -> u32 {
        self.weight
    }

    #[tactic(auto, using(coats::proofs::Sums::coat_light))]
    fn coat(&self, place: Place) -> i32 {
        let axes = Axes {
            x: Axis { steps: &self.x },
            y: Axis { steps: &self.y },
        };
        axes.coat(place)
    }
}
