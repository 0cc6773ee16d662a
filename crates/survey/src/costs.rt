//! The arithmetic of the radius.
ghost use Rattle.std.specs.Prelude.{◌≡◌, ◌*◌, ◌≤◌};
ghost use Rattle.survey.specs.Setups.{plan_of, setup_of, left_of, cost_of, radius_of};

use coats::{CoatMap, HEAVIEST};
use nets::{MOST_PLACES, Net};

/// What the depths cost at most, those of a plan of level 12 and a map of the weight [`HEAVIEST`]: 212,992.
/// A survey is opened with this limit.
pub const FIRST_LIMIT: u64 = 13 * HEAVIEST as u64;

/// What a radius is at most, that of such a plan and map with no place taken: 67,321,856.
pub const WIDEST_RADIUS: u64 = FIRST_LIMIT + MOST_PLACES as u64 * HEAVIEST as u64;

/// What the depths of a plan cost a sum of a map: (m + 1)·W, with the plan's level m and the map's
/// weight W. It is at most [`FIRST_LIMIT`].
pub fn depth_cost<P: Net, M: CoatMap>(plan: &P, map: &M) -> u64
    ensures value { result ≡ cost_of (setup_of P.Net M.CoatMap plan.now map.now) }
    ensures bound { result ≤ FIRST_LIMIT }
{
    cost(plan.level().get() + 1, map.weight())
}

/// How many of a plan's 2^m places are not among the first `taken`: 2^m − `taken`, or 0 if `taken` is over
/// 2^m. It is at most [`MOST_PLACES`].
pub fn places_left<P: Net>(plan: &P, taken: u32) -> u32
    ensures value { result ≡ left_of (plan_of P.Net plan.now) taken }
    ensures bound { result ≤ MOST_PLACES }
{
    plan.level().places().saturating_sub(taken)
}

/// How far the sum over the first `taken` places can be from the truth, in the unit of the coat: what the
/// depths cost, and the map's weight for each place that is not taken. It is at most [`WIDEST_RADIUS`].
pub fn radius<P: Net, M: CoatMap>(plan: &P, map: &M, taken: u32) -> u64
    ensures value { result ≡ radius_of (setup_of P.Net M.CoatMap plan.now map.now) taken }
    ensures bound { result ≤ WIDEST_RADIUS }
{
    depth_cost(plan, map) + cost(places_left(plan, taken), map.weight())
}

// So many times a map's weight.
fn cost(times: u32, weight: u32) -> u64
    requires { weight ≤ HEAVIEST }
    ensures value { result ≡ times * weight }
    ensures bound { result ≤ times * HEAVIEST }
{
    u64::from(times) * u64::from(weight)
}
