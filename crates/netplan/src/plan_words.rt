//! Words to a plan.
ghost use Rattle.netplan.specs.Lists.{ReadsList};

use crate::fault::PlanFault;
use layers::{LayerNumbers, LayeredPlan};
use nets::MOST_PLACES;
use pages::{PageFault, PagePlan, points_of, read_file, read_layers, split_layers};
use plans::Plan;
use std::alloc::Global;
use std::rt::Files;

/// A plan with its own layers, and those that the words put on it.
pub type WordPlan = LayeredPlan<PagePlan>;

/// The bytes of the longest list of places, of level 12.
pub const LONGEST_LIST: usize = 4 * MOST_PLACES as usize;

// The plan that words say: one with no layers or a job's with its own, and then the words of layers on it.
pub(crate) fn read_plan<R: Files + AllocGlobal>(
    rt: &R,
    words: &[&str],
) -> Result<WordPlan, PlanFault> {
    let (below, layers) = split_layers(words);
    let layers = read_layers(layers)?;
    let plan = read_below(rt, below)?;
    Ok(layers.on(plan))
}

// The plan below the layers that the words put on it.
fn read_below<R: Files + AllocGlobal>(rt: &R, words: &[&str]) -> Result<PagePlan, PlanFault> {
    match words {
        ["hammersley" | "sobol" | "job", _] => Ok(pages::read_plan(rt, words)?.plan),
        ["points", path] => {
            let bytes = read_file(rt, path, LONGEST_LIST).map_err(PageFault::from)?;
            let plan = list_of(rt.alloc(), &bytes)?;
            Ok(LayerNumbers::default().on(plan))
        }
        _ => Err(PlanFault::Page(PageFault::Words)),
    }
}

// The plan of the places that bytes lay down, which are not more than the longest list has.
fn list_of(heap: Global, bytes: &[u8]) -> Result<Plan, PlanFault>
    ensures { ReadsList bytes.now result }
{
    if bytes.len() > LONGEST_LIST {
        return Err(PlanFault::TooLong);
    }
    Ok(points_of(heap, bytes)?)
}
