//! A gauge along its life.
ghost use Rattle.hosts.specs.Keepers.{HasLife};

use coats::CoatMap;
use nets::Net;
use survey::{After, Answer, Call, Gauge, Survey, show_promise};

/// A gauge. Its type says that some life has come to it, and keeps the promise of every life.
#[derive(Drop)]
pub struct Keeper<P: Net, M: CoatMap> {
    gauge: Gauge<P, M>,
    ghost life: { HasLife gauge },
}

impl<P: Net + Drop, M: CoatMap + Drop> Keeper<P, M> {
    ghost use Rattle.survey.specs.Gauges.{Asks, AskSteps, AskLives};
    ghost use Rattle.hosts.specs.Keepers.{IsOpen};

    /// Opens a survey of a plan and a map, as [`Survey::open`] does: a life begins.
    #[tactic(auto, using(crate::proofs::LivesOn::life_begins))]
    pub fn open(plan: P, map: M) -> Keeper<P, M>
        ensures { IsOpen plan map result.gauge }
    {
        show_promise();
        Keeper {
            gauge: Gauge::Survey(Survey::open(plan, map)),
        }
    }

    /// Makes a call, as [`Gauge::ask`] does: the gauge, with a life one call longer, and the answer; or, if
    /// the call was not allowed, the gauge as it was, and no answer.
    #[tactic(auto, using(crate::proofs::LivesOn::lives_on))]
    pub fn ask(self, call: Call<P, M>) -> (Keeper<P, M>, Option<Answer>)
        ensures rule { Asks self.gauge call
            (record { gauge = result.0.gauge; answer = result.1 }) }
        ensures step { AskSteps self.gauge call
            (record { gauge = result.0.gauge; answer = result.1 }) }
        ensures life { AskLives self.gauge call
            (record { gauge = result.0.gauge; answer = result.1 }) }
    {
        let After { gauge, answer } = self.gauge.ask(call);
        (Keeper { gauge }, answer)
    }
}
