//! A change of recipe that has its new plan.
ghost use Rattle.std.specs.Prelude.{◌≡◌};

use crate::full_change::FullChange;
use crate::survey::Survey;
use coats::CoatMap;
use nets::Net;

/// A survey and a new plan for it. The survey is kept whole.
#[derive(Debug, Drop)]
pub struct HalfChange<P: Net, M: CoatMap> {
    pub(crate) old: Survey<P, M>,
    pub(crate) plan: P,
}

impl<P: Net + Drop, M: CoatMap + Drop> HalfChange<P, M> {
    ghost use Rattle.survey.specs.Changes.{half_state, Pages, PageSteps, AbandonSteps};

    /// Adds the new map.
    pub fn map_page(self, map: M) -> FullChange<P, M>
        ensures rule { Pages map self result }
        ensures step { PageSteps map self result }
    {
        map.show_map();
        let HalfChange { old, plan } = self;
        FullChange { old, plan, map }
    }

    /// Gives the change up: the old survey, entire.
    pub fn abandon(self) -> Survey<P, M>
        ensures rule { result ≡ self.old }
        ensures step { AbandonSteps (half_state self) result }
    {
        self.old
    }
}
