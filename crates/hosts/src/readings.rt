//! Surveys of any types, read with no life in sight.
ghost use Rattle.std.specs.Prelude.{◌≡◌};
ghost use Rattle.survey.specs.Surveys.{ReportSteps, ReportIsNear};
ghost use Rattle.hosts.specs.Readings.{ReportsAgree};

use coats::CoatMap;
use nets::Net;
use survey::{Report, Survey, show_agreement};

/// A survey that is lent, to be read.
pub struct Reader<'a, P: Net, M: CoatMap> {
    survey: &'a Survey<P, M>,
}

impl<'a, P: Net, M: CoatMap> Reader<'a, P, M> {
    /// Lends a survey.
    pub fn new(survey: &'a Survey<P, M>) -> Reader<'a, P, M>
        ensures { result.survey.now ≡ survey.now }
    {
        Reader { survey }
    }

    /// The survey's report, whose sum is within its radius of the truth, 2^m times the mean coat of the
    /// panel.
    pub fn report(&self) -> Report
        ensures step { ReportSteps self.now.survey.now result }
        ensures near { ReportIsNear self.now.survey.now result }
    {
        self.survey.report()
    }
}

/// The reports of two surveys. They agree within their radii where the maps have the same terms up to
/// order: |S·2^m' − S'·2^m| is at most R·2^m' + R'·2^m, the second one's numbers primed.
pub fn compare<P: Net, M: CoatMap, Q: Net, K: CoatMap>(
    first: &Survey<P, M>,
    second: &Survey<Q, K>,
) -> (Report, Report)
    ensures first { ReportSteps first.now result.0 }
    ensures second { ReportSteps second.now result.1 }
    ensures agree { ReportsAgree first.now second.now result.0 result.1 }
{
    show_agreement(first, second);
    (first.report(), second.report())
}
