//! The measuring of a whole panel.
ghost use Rattle.survey.specs.Setups.{setup_of};
ghost use Rattle.reports.specs.Measures.{Measures};

use crate::measured::Measured;
use audit::audit_plan;
use coats::CoatMap;
use nets::Net;
use survey::Survey;

/// Opens a survey, takes every place, and reports; and audits the plan's places.
pub fn measure<P: Net + Drop, M: CoatMap + Drop>(plan: P, map: M) -> Measured
    ensures { Measures (setup_of P.Net M.CoatMap plan map) result }
{
    let points = plan.level().places();
    let audit = audit_plan(&plan).unwrap();
    let mut survey = Survey::open(plan, map);
    survey.take(points).unwrap();
    Measured {
        points,
        report: survey.report(),
        audit,
    }
}
