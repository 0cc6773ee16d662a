//! A survey whose calls come as values, one by one, at run time.
ghost use Rattle.std.specs.Prelude.{◌≡◌, Some};

use crate::call::{Answer, Call};
use crate::full_change::{Committed, FullChange};
use crate::half_change::HalfChange;
use crate::survey::Survey;
use coats::CoatMap;
use nets::Net;

/// A survey, or the change that is made of it.
#[derive(Debug, Drop)]
pub enum Gauge<P: Net, M: CoatMap> {
    /// A survey; no change is under way.
    Survey(Survey<P, M>),
    /// A change that has its new plan.
    Half(HalfChange<P, M>),
    /// A change that has its new plan and its new map.
    Full(FullChange<P, M>),
}

/// What a call gives.
#[derive(Debug, Drop)]
pub struct After<P: Net, M: CoatMap> {
    /// The gauge after the call.
    pub gauge: Gauge<P, M>,
    /// The answer, if the call was allowed.
    pub answer: Option<Answer>,
}

impl<P: Net + Drop, M: CoatMap + Drop> Gauge<P, M> {
    ghost use Rattle.survey.specs.Gauges.{Asks, AskSteps, AskLives};

    /// Makes a call, if the state allows it. Any other changes nothing, and has no answer.
    pub fn ask(self, call: Call<P, M>) -> After<P, M>
        ensures rule { Asks self call result }
        ensures step { AskSteps self call result }
        ensures life { AskLives self call result }
    {
        self.step(call)
    }

    // The call of the state that allows it.
    fn step(self, call: Call<P, M>) -> After<P, M>
        ensures rule { Asks self call result }
        ensures step { AskSteps self call result }
    {
        match (self, call) {
            (Gauge::Survey(mut survey), Call::Take(k)) => {
                let answer = survey.take(k);
                After::answered(Gauge::Survey(survey), Answer::Taken(answer))
            }
            (Gauge::Survey(survey), Call::Report) => {
                let report = survey.report();
                After::answered(Gauge::Survey(survey), Answer::Reported(report))
            }
            (Gauge::Survey(mut survey), Call::Limit(limit)) => {
                let answer = survey.set_limit(limit);
                After::answered(Gauge::Survey(survey), Answer::Limited(answer))
            }
            (Gauge::Survey(survey), Call::Begin(plan)) => {
                After::answered(Gauge::Half(survey.begin(plan)), Answer::Begun)
            }
            (Gauge::Half(half), Call::MapPage(map)) => {
                After::answered(Gauge::Full(half.map_page(map)), Answer::Paged)
            }
            (Gauge::Half(half), Call::Abandon) => {
                After::answered(Gauge::Survey(half.abandon()), Answer::Abandoned)
            }
            (Gauge::Full(full), Call::Commit) => {
                let Committed { survey, outcome } = full.commit();
                After::answered(Gauge::Survey(survey), Answer::Committed(outcome))
            }
            (Gauge::Full(full), Call::Abandon) => {
                After::answered(Gauge::Survey(full.abandon()), Answer::Abandoned)
            }
            (gauge, _) => After {
                gauge,
                answer: None,
            },
        }
    }
}

impl<P: Net, M: CoatMap> After<P, M> {
    fn answered(gauge: Gauge<P, M>, answer: Answer) -> Self
        ensures { result ≡ record { gauge = gauge; answer = Some answer } }
    {
        After {
            gauge,
            answer: Some(answer),
        }
    }
}
