//! A change of recipe that has both its pages.
ghost use Rattle.std.specs.Prelude.{◌≡◌};

use crate::costs::depth_cost;
use crate::faults::CommitFault;
use crate::survey::Survey;
use coats::CoatMap;
use nets::Net;

/// A survey, and a new plan and a new map for it. The survey is kept whole.
#[derive(Debug, Drop)]
pub struct FullChange<P: Net, M: CoatMap> {
    pub(crate) old: Survey<P, M>,
    pub(crate) plan: P,
    pub(crate) map: M,
}

/// What a commit gives.
#[derive(Debug, Drop)]
pub struct Committed<P: Net, M: CoatMap> {
    /// A survey of the new recipe, or, if the commit is refused, the old survey, entire.
    pub survey: Survey<P, M>,
    /// Whether the commit is accepted, or why not.
    pub outcome: Result<(), CommitFault>,
}

impl<P: Net + Drop, M: CoatMap + Drop> FullChange<P, M> {
    ghost use Rattle.survey.specs.Changes.{full_state, Commits, CommitSteps, AbandonSteps};

    /// Puts the new recipe in the old one's place: a survey of it with no place taken and the same limit.
    ///
    /// # Errors
    /// 24 where the depths of the new recipe cost more than the limit; the old survey, entire, stands beside
    /// it.
    pub fn commit(self) -> Committed<P, M>
        ensures rule { Commits self result }
        ensures step { CommitSteps self result }
    {
        let cost = depth_cost(&self.plan, &self.map);
        let FullChange { old, plan, map } = self;
        if cost > old.limit {
            return Committed {
                survey: old,
                outcome: Err(CommitFault(cost)),
            };
        }
        plan.show_net();
        map.show_map();
        let survey = Survey {
            plan,
            map,
            count: 0,
            sum: 0,
            limit: old.limit,
        };
        Committed {
            survey,
            outcome: Ok(()),
        }
    }

    /// Gives the change up: the old survey, entire.
    pub fn abandon(self) -> Survey<P, M>
        ensures rule { result ≡ self.old }
        ensures step { AbandonSteps (full_state self) result }
    {
        self.old
    }
}
