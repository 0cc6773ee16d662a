//! What every map promises.
ghost use Rattle.std.specs.Prelude.{◌≡◌, ◌≤◌, List, unsigned_abs};
ghost use Rattle.coats.specs.declared.term.Term.{Term};
ghost use Rattle.coats.specs.Terms.{IsMap, coat_of, weight_of};

use crate::checks::HEAVIEST;
use nets::Place;

/// A map: a list of terms (w, U, V) whose weight W, the sum of |w|, is at most [`HEAVIEST`].
pub trait CoatMap {
    ghost terms: { Self → List Term };

    /// The terms are a map. It does nothing when it is run.
    fn show_map(&self)
        ensures { IsMap (terms self.now) };

    /// W.
    fn weight(&self) -> u32
        ensures value { result ≡ weight_of (terms self.now) }
        ensures bound { result ≤ HEAVIEST };

    /// The coat at a place: the sum of w over the terms with x < U and y < V. It may be below zero.
    fn coat(&self, place: Place) -> i32
        ensures value { result ≡ coat_of (terms self.now) place }
        ensures bound { unsigned_abs result ≤ HEAVIEST };
}
