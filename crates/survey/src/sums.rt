//! The coat of a map over places of a plan.
ghost use Rattle.std.specs.Prelude.{◌≡◌, ◌+◌, ◌+ℤ◌, ◌*◌, ◌^◌, ◌<◌, ◌≤◌, slice_index_or, unsigned_abs};
ghost use Rattle.coats.specs.Terms.{coat_of};
ghost use Rattle.survey.specs.Setups.{setup_of, coat_sum, coats_of};

use crate::costs::places_left;
use coats::{CoatMap, HEAVIEST};
use nets::Net;

/// The coat of a map added over `count` places of a plan, from the place of index `first` on, in the unit of
/// the coat. There is nothing to add past the plan's last place. The sum over the first `first` places and
/// this one make that over the first `first + count`.
#[tactic(auto, using(crate::proofs::Coats::more, crate::proofs::Coats::joined))]
pub fn sum_coats<P: Net, M: CoatMap>(plan: &P, map: &M, first: u32, count: u32) -> i64
    ensures value { result ≡ coats_of (setup_of P.Net M.CoatMap plan.now map.now) first count }
    ensures joined { coat_sum (setup_of P.Net M.CoatMap plan.now map.now) (first + count)
        ≡ coat_sum (setup_of P.Net M.CoatMap plan.now map.now) first +ℤ result }
    ensures bound { unsigned_abs result ≤ HEAVIEST * count }
{
    plan.show_net();
    let mut sum = 0;
    for i in 0..count.min(places_left(plan, first)) {
        sum += i64::from(coat_at(plan, map, first + i));
    }
    sum
}

// The coat at the place of an index, if there is one.
fn coat_at<P: Net, M: CoatMap>(plan: &P, map: &M, i: u32) -> i32
    ensures value { i < 2 ^ P.level plan.now →
        result ≡ coat_of (M.terms map.now) (slice_index_or (P.places plan.now) i (0, 0)) }
    ensures bound { unsigned_abs result ≤ HEAVIEST }
{
    plan.place(i).map_or(0, |place| map.coat(place))
}
