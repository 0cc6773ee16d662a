//! What every survey and every life keeps. The functions do nothing when they are run; their contracts are
//! the laws.
ghost use Rattle.survey.specs.Promise.{Kept, Lives};
ghost use Rattle.survey.specs.Surveys.{IsNear, SurveysAgree};

use crate::survey::Survey;
use coats::CoatMap;
use nets::Net;

/// Every life keeps the promise: each report is within its radius of the truth, what was refused or given up
/// leaves no trace, and two surveys agree. An opening begins a life, and every call that is made as its
/// contract says carries on each life.
#[tactic(auto, using(crate::proofs::Promises::promise, crate::proofs::Promises::lives))]
pub fn show_promise()
    ensures promise { Kept }
    ensures lives { Lives }
{}

/// The sum of any survey is within its radius of the truth, which is 2^m times the mean coat of the panel.
#[tactic(auto, using(crate::proofs::Nears::survey_near))]
pub fn show_near<P: Net, M: CoatMap>(survey: &Survey<P, M>)
    ensures { IsNear survey.now }
{}

/// Any two surveys, of whatever types, whose maps have the same terms up to order agree within their radii:
/// |S·2^m' − S'·2^m| is at most R·2^m' + R'·2^m, the second one's level, sum and radius primed.
#[tactic(auto, using(crate::proofs::Nears::surveys_agree))]
pub fn show_agreement<P: Net, M: CoatMap, Q: Net, K: CoatMap>(
    first: &Survey<P, M>,
    second: &Survey<Q, K>,
)
    ensures { SurveysAgree first.now second.now }
{}
