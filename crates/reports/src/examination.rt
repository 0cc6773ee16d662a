//! The examination of a job, and its text.
ghost use Rattle.reports.specs.Jobs.{Examines, meaning};
ghost use Rattle.reports.specs.Measures.{Measures};
ghost use Rattle.reports.specs.Reports.{Writes};

use crate::measured::Measured;
use crate::outcome::Outcome;
use crate::panels::measure;
use crate::text_fault::TextFault;
use crate::writing::put;
use jobs::Recipe;
use std::alloc::{AllocError, Global};

/// The fewest bytes of a place for a text.
pub const ROOM: usize = 96;

/// Reads a job and measures the whole panel, or says how the job is refused.
///
/// # Errors
/// Want of memory, of a job that passes all checks and has a point list.
#[tactic(auto, using(crate::proofs::Told::refused_or_wanting))]
pub fn examine(heap: Global, job: &[u8]) -> Result<Outcome, AllocError>
    ensures { Examines job.now result }
{
    match Recipe::parse(heap, job) {
        Ok(recipe) => Ok(Outcome::Measured(measure_recipe(recipe))),
        Err(fault) => match fault.refusal() {
            Some(refusal) => Ok(Outcome::Refused(refusal)),
            None => Err(AllocError),
        },
    }
}

fn measure_recipe(recipe: Recipe) -> Measured
    ensures { Measures (meaning recipe) result }
{
    let Recipe { plan, layers, map } = recipe;
    measure(layers.on(plan), map)
}

/// Writes the text of a job at the start of a place, and answers how many bytes it has. The rest of the place is
/// kept; a place that is refused is left as it was.
///
/// # Errors
/// 31 for a place of fewer than [`ROOM`] bytes, for any job; want of memory as of [`examine`].
pub fn write_report(heap: Global, job: &[u8], place: &mut [u8]) -> Result<usize, TextFault>
    ensures { Writes job.now place.old place.new result }
{
    if place.len() < ROOM {
        return Err(TextFault::Short(place.len()));
    }
    let outcome = examine(heap, job)?;
    Ok(put(outcome.text().as_str(), place))
}
