//! Steps along x and steps along y, of which a map is made.
ghost use Rattle.std.specs.Prelude.{◌≡◌, ◌≤◌, ◌++◌, length, All, sum_by, MatchOption, MatchResult, unsigned_abs};
ghost use Rattle.coats.specs.declared.checks.TheConstants.{HEAVIEST};
ghost use Rattle.coats.specs.Terms.{sum_of, coat_of, weight_of};
ghost use Rattle.coats.specs.Refusals.{IsFirstOut, IsOutOfBounds, map_told};
ghost use Rattle.steps.specs.declared.steps.TheConstants.{MOST_STEPS};
ghost use Rattle.steps.specs.Rows.{HasStepBounds, rise_of, steps_terms};

use crate::step::Step;
use coats::{Bounded, MapFault};
use nets::Place;

// The steps along one axis.
#[derive(Clone, Copy, Debug)]
pub(crate) struct Axis<'a> {
    pub(crate) steps: &'a [Step],
    ghost few: { length steps.now ≤ MOST_STEPS },
}

impl<'a> Axis<'a> {
    // What the steps add up to at a coordinate.
    pub(crate) fn height(self, at: u16) -> i32
        ensures { result ≡ sum_of (rise_of at) self.entry.steps.now }
    {
        let mut sum = 0;
        for step in self.steps {
            sum += step.rise(at);
        }
        sum
    }

    // What the steps' values add up to, each without its sign.
    pub(crate) fn magnitude(self) -> u32
        ensures { result ≡ sum_by (λ s. unsigned_abs s.value) self.entry.steps.now }
    {
        self.steps.iter().map(|step| step.size()).sum()
    }
}

// The steps along each axis.
#[derive(Clone, Copy, Debug)]
pub(crate) struct Axes<'a> {
    pub(crate) x: Axis<'a>,
    pub(crate) y: Axis<'a>,
}

impl<'a> Axes<'a> {
    // 8 for the first step out of its bounds.
    pub(crate) fn check_bounds(self) -> Result<(), MapFault>
        ensures { MatchResult result
            (λ _. All HasStepBounds (self.entry.x.steps.now ++ self.entry.y.steps.now))
            (λ e.
            IsOutOfBounds HasStepBounds (self.entry.x.steps.now ++ self.entry.y.steps.now) (map_told e)) }
    {
        match self.first_out() {
            None => Ok(()),
            Some(row) => Err(MapFault::Row(row as u8)),
        }
    }

    // The number of the first step out of its bounds; those along y are numbered after those along x.
    fn first_out(self) -> Option<usize>
        ensures { MatchOption result
            (All HasStepBounds (self.entry.x.steps.now ++ self.entry.y.steps.now))
            (IsFirstOut HasStepBounds (self.entry.x.steps.now ++ self.entry.y.steps.now)) }
    {
        self.x
            .steps
            .iter()
            .chain(self.y.steps)
            .position(|step| !step.in_bounds())
    }

    // What the steps weigh: |g * h| added over the pairings.
    #[tactic(auto, using(crate::proofs::Pairings::steps_weight))]
    pub(crate) fn weigh(self) -> u64
        ensures { result ≡ weight_of (steps_terms self.entry.x.steps.now self.entry.y.steps.now) }
    {
        u64::from(self.x.magnitude()) * u64::from(self.y.magnitude())
    }

    // The height along x times the height along y, which is the coat.
    #[tactic(auto, using(crate::proofs::Pairings::heights, crate::proofs::Pairings::heights_fit))]
    pub(crate) fn coat(self, place: Place) -> i32
        requires { weight_of (steps_terms self.x.steps.now self.y.steps.now) ≤ HEAVIEST }
        ensures { result
            ≡ coat_of (steps_terms self.entry.x.steps.now self.entry.y.steps.now) place }
    {
        let (x, y) = place;
        self.x.height(x) * self.y.height(y)
    }
}
