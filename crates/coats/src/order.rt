//! The order of a map's terms does not matter.
ghost use Rattle.std.specs.List.Sorted.{IsPermutation};
ghost use Rattle.coats.specs.Order.{IsSame};

use crate::coat_map::CoatMap;

/// Two maps whose terms are the same up to order have the same coat everywhere, the same weight and the
/// same integral. It does nothing when it is run.
pub fn show_same<A: CoatMap, B: CoatMap>(a: &A, b: &B)
    ensures { IsPermutation (A.terms a.now) (B.terms b.now) → IsSame (A.terms a.now) (B.terms b.now) }
{}
