//! A gauge's log, run again.
ghost use Rattle.survey.specs.Logs.{RunsLog, Replays};

use crate::call::{Answer, Call};
use crate::gauge::Gauge;
use crate::survey::Survey;
use coats::CoatMap;
use nets::Net;
use std::alloc::{AllocError, Global};

/// What a log comes to.
#[derive(Debug, Drop)]
pub struct Run<P: Net, M: CoatMap> {
    /// The gauge at the end.
    pub gauge: Gauge<P, M>,
    /// What each call answered, in order, or nothing if it was not allowed.
    pub answers: Vec<Option<Answer>>,
}

/// Opens a survey and makes the calls of a log one after another. Memory for the answers is got before the
/// first call.
///
/// # Errors
/// Want of memory, of a log that is not empty; no call is made then.
pub fn run_log<P: Net + Drop, M: CoatMap + Drop>(
    heap: Global,
    plan: P,
    map: M,
    calls: Vec<Call<P, M>>,
) -> Result<Run<P, M>, AllocError>
    ensures { RunsLog plan map calls.items result }
{
    let mut answers = Vec::with_capacity(heap, calls.len())?;
    let mut gauge = Gauge::Survey(Survey::open(plan, map));
    for call in calls {
        let after = gauge.ask(call);
        gauge = after.gauge;
        answers.push_reserved(after.answer);
    }
    Ok(Run { gauge, answers })
}

/// The answers of a log, as [`run_log`] has them.
///
/// # Errors
/// Want of memory, of a log that is not empty; no call is made then.
pub fn replay<P: Net + Drop, M: CoatMap + Drop>(
    heap: Global,
    plan: P,
    map: M,
    calls: Vec<Call<P, M>>,
) -> Result<Vec<Option<Answer>>, AllocError>
    ensures { Replays P.Net M.CoatMap plan map calls.items result }
{
    let run = run_log(heap, plan, map, calls)?;
    Ok(run.answers)
}
