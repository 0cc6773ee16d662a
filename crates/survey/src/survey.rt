//! Surveys.
ghost use Rattle.std.specs.Prelude.{◌≡◌, ◌*◌, ◌^◌, ◌≤◌, take, unsigned_abs};
ghost use Rattle.nets.specs.Places.{IsNet};
ghost use Rattle.coats.specs.declared.checks.TheConstants.{HEAVIEST};
ghost use Rattle.coats.specs.Terms.{IsMap};
ghost use Rattle.radius.specs.Radius.{added};

use crate::costs::{FIRST_LIMIT, depth_cost, places_left, radius};
use crate::faults::{LimitFault, TakeFault};
use crate::half_change::HalfChange;
use crate::report::Report;
use crate::sums::sum_coats;
use coats::CoatMap;
use nets::Net;

/// A plan of level m and a map, with how many places n are taken, the sum of their coats, and the limit on
/// what the depths may cost. Its type says that the plan is a net and the map's terms are a map, that n is
/// at most 2^m, and that the sum is the map's coat added over the plan's first n places.
#[derive(Debug, Drop)]
pub struct Survey<P: Net, M: CoatMap> {
    pub(crate) plan: P,
    pub(crate) map: M,
    pub(crate) count: u32,
    pub(crate) sum: i64,
    pub(crate) limit: u64,
    /// The plan is a net.
    pub ghost is_net: { IsNet (P.level plan) (P.places plan) },
    /// The map's terms are a map.
    pub ghost is_map: { IsMap (M.terms map) },
    /// No more places are taken than there are.
    pub ghost few: { count ≤ 2 ^ P.level plan },
    /// Either way the sum is at most [`HEAVIEST`](coats::HEAVIEST) times the count.
    pub ghost small: { unsigned_abs sum ≤ HEAVIEST * count },
    /// The sum is the map's coat added over the plan's first places.
    pub ghost sums: { sum ≡ added (M.terms map) (take count (P.places plan)) },
}

impl<P: Net, M: CoatMap> Survey<P, M> {
    ghost use Rattle.survey.specs.Setups.{cost_of, left_of};
    ghost use Rattle.survey.specs.Surveys.{setup, count_of, Opens, Takes, TakeSteps, Keeps, LimitSteps};
    ghost use Rattle.survey.specs.Surveys.{ReportSteps, ReportIsNear};
    ghost use Rattle.survey.specs.Reports.{IsBounded};
    ghost use Rattle.survey.specs.Changes.{Begins, BeginSteps};

    /// A survey of a plan and a map, with no place taken and the limit [`FIRST_LIMIT`].
    pub fn open(plan: P, map: M) -> Self
        ensures { Opens plan map result }
    {
        plan.show_net();
        map.show_map();
        Survey {
            plan,
            map,
            count: 0,
            sum: 0,
            limit: FIRST_LIMIT,
        }
    }

    /// Adds the coat at the plan's next k places, and answers how many are taken then.
    ///
    /// # Errors
    /// 21 for a k of 0, and 22 for a k over the number of places left. The survey is as it was then.
    pub fn take(&mut self, k: u32) -> Result<u32, TakeFault>
        ensures rule { Takes k self.old self.new result }
        ensures step { TakeSteps k self.old self.new result }
    {
        if k == 0 {
            return Err(TakeFault::Nothing);
        }
        let left = self.left();
        if k > left {
            return Err(TakeFault::TooMany(left));
        }
        let more = sum_coats(&self.plan, &self.map, self.count, k);
        self.count += k;
        self.sum += more;
        Ok(self.count)
    }

    /// What the survey has come to. The sum is within the radius of the truth, 2^m times the mean coat of the
    /// panel.
    pub fn report(&self) -> Report
        ensures step { ReportSteps self.now result }
        ensures near { ReportIsNear self.now result }
        ensures bounds { IsBounded result }
    {
        Report {
            level: self.plan.level().get(),
            count: self.count,
            sum: self.sum,
            radius: radius(&self.plan, &self.map, self.count),
        }
    }

    /// Sets the limit on what the depths may cost.
    ///
    /// # Errors
    /// 23 where those of the survey's own recipe cost more. The survey is as it was then.
    pub fn set_limit(&mut self, limit: u64) -> Result<(), LimitFault>
        ensures rule { Keeps self.old self.new result }
        ensures step { LimitSteps limit self.old self.new result }
    {
        let cost = self.depth_cost();
        if cost > limit {
            return Err(LimitFault(cost));
        }
        self.limit = limit;
        Ok(())
    }

    /// Begins a change of recipe with its new plan.
    pub fn begin(self, plan: P) -> HalfChange<P, M>
        ensures rule { Begins plan self result }
        ensures step { BeginSteps plan self result }
    {
        plan.show_net();
        HalfChange { old: self, plan }
    }

    // How many places are not taken yet.
    fn left(&self) -> u32
        ensures { result ≡ left_of (setup self.now).plan (count_of self.now) }
    {
        places_left(&self.plan, self.count)
    }

    // What the depths cost.
    fn depth_cost(&self) -> u64
        ensures { result ≡ cost_of (setup self.now) }
    {
        depth_cost(&self.plan, &self.map)
    }
}
