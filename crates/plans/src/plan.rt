//! All kinds of plan as one type, which is a plan too.
ghost use Rattle.std.specs.Prelude.{◌≡◌};
ghost use Rattle.plans.specs.Plans.{kind_of, level_of, places_of, counts_of};

use audit::PointList;
use nets::{Level, Net, Place, PlaceFault, Rounds};
use sequences::{Hammersley, Sobol};

/// A plan of any kind, with no layers.
#[derive(Debug, Drop)]
pub enum Plan {
    /// Hammersley's points of a level.
    Hammersley(Hammersley),
    /// Sobol's points of a level.
    Sobol(Sobol),
    /// A customer's own list.
    Points(PointList),
}

/// The kind of a plan.
#[derive(Clone, Copy, Debug, PartialEq, Eq)]
pub enum PlanKind {
    /// Hammersley's points.
    Hammersley,
    /// Sobol's points.
    Sobol,
    /// A customer's own list.
    Points,
}

impl Plan {
    /// Its kind.
    pub fn kind(&self) -> PlanKind
        ensures { result ≡ kind_of self.now }
    {
        match self {
            Plan::Hammersley(_) => PlanKind::Hammersley,
            Plan::Sobol(_) => PlanKind::Sobol,
            Plan::Points(_) => PlanKind::Points,
        }
    }
}

impl Net for Plan {
    ghost level = { level_of };

    ghost places = { places_of };

    fn show_net(&self) {
        match self {
            Plan::Hammersley(plan) => plan.show_net(),
            Plan::Sobol(plan) => plan.show_net(),
            Plan::Points(plan) => plan.show_net(),
        }
    }

    fn level(&self) -> Level {
        match self {
            Plan::Hammersley(plan) => plan.level(),
            Plan::Sobol(plan) => plan.level(),
            Plan::Points(plan) => plan.level(),
        }
    }

    fn place(&self, i: u32) -> Result<Place, PlaceFault> {
        match self {
            Plan::Hammersley(plan) => plan.place(i),
            Plan::Sobol(plan) => plan.place(i),
            Plan::Points(plan) => plan.place(i),
        }
    }
}

impl Rounds for Plan {
    ghost counts = { counts_of };

    fn counts_rounds(&self) -> bool {
        match self {
            Plan::Hammersley(_) | Plan::Points(_) => false,
            Plan::Sobol(plan) => plan.counts_rounds(),
        }
    }

    fn place_and_rounds(&self, i: u32) -> Result<(Place, Option<u32>), PlaceFault> {
        match self {
            Plan::Hammersley(plan) => Ok((plan.place(i)?, None)),
            Plan::Sobol(plan) => plan.place_and_rounds(i),
            Plan::Points(plan) => Ok((plan.place(i)?, None)),
        }
    }
}
