//! Words to a plan.
ghost use Rattle.std.specs.Prelude.{◌≡◌, ◌++◌};
ghost use Rattle.plans.specs.Plans.{kind_of};
ghost use Rattle.pages.specs.Layers.{HasLayers};

use crate::fault::PageFault;
use crate::files::{points_of, read_job};
use crate::numbers::read_number;
use layers::{LayerNumbers, LayeredPlan};
use plans::{Plan, PlanKind};
use sequences::{Hammersley, Sobol};
use std::alloc::Global;
use std::rt::Files;

/// A plan of any kind with all three layers on it.
pub type PagePlan = LayeredPlan<Plan>;

/// A plan that was read.
#[derive(Debug, Drop)]
pub struct PlanPage {
    /// Its kind below its layers.
    pub kind: PlanKind,
    /// The plan with its layers.
    pub plan: PagePlan,
    ghost below: { kind_of plan.plan.plan.plan ≡ kind },
}

/// The plan that words say: `job PATH`, the plan of a job file; or `hammersley M`, `sobol M` or
/// `points X Y X Y ..`, and then the words of its layers.
///
/// # Errors
/// Words that are no plan's; a file that cannot be read; 1 to 9 and 13 of a job, 4 of a level, 12 and 13 of
/// places; want of memory.
pub fn read_plan<R: Files + AllocGlobal>(rt: &R, words: &[&str]) -> Result<PlanPage, PageFault> {
    match words {
        ["job", path] => {
            let recipe = read_job(rt, path)?;
            Ok(PlanPage::new(recipe.plan, recipe.layers))
        }
        _ => {
            let (plan, layers) = split_layers(words);
            let layers = read_layers(layers)?;
            let plan = read_below(rt.alloc(), plan)?;
            Ok(PlanPage::new(plan, layers))
        }
    }
}

impl PlanPage {
    /// A plan with layers of these numbers on it.
    pub fn new(plan: Plan, layers: LayerNumbers) -> PlanPage
        ensures { HasLayers layers plan result.plan }
    {
        let kind = plan.kind();
        PlanPage {
            kind,
            plan: layers.on(plan),
        }
    }
}

/// The words before the first layer's name, and those from there.
pub fn split_layers<'a, 'b>(words: &'b [&'a str]) -> (&'b [&'a str], &'b [&'a str])
    ensures whole { result.0.now ++ result.1.now ≡ words.now }
{
    let count = words.iter().take_while(|word| !is_layer(word)).count();
    words.split_at(count.min(words.len()))
}

fn is_layer(word: &str) -> bool {
    matches!(word, "shift" | "scramble" | "swap")
}

// The plan below the layers.
fn read_below(heap: Global, words: &[&str]) -> Result<Plan, PageFault> {
    match words {
        ["hammersley", level] => Ok(Plan::Hammersley(Hammersley::new(read_number(level)?)?)),
        ["sobol", level] => Ok(Plan::Sobol(Sobol::new(read_number(level)?)?)),
        ["points", words @ ..] => {
            let bytes = read_places(heap, words)?;
            points_of(heap, &bytes)
        }
        _ => Err(PageFault::Words),
    }
}

// Coordinates, x then y, each as two bytes.
fn read_places(heap: Global, words: &[&str]) -> Result<Vec<u8>, PageFault> {
    if words.len() % 2 != 0 {
        return Err(PageFault::Words);
    }
    let mut bytes = Vec::new(heap);
    for word in words {
        let coordinate = read_number::<u16>(word)?;
        bytes.extend_from_slice(&coordinate.to_le_bytes())?;
    }
    Ok(bytes)
}

/// The numbers of the layers that words say: `shift S T`, `scramble V W` and `swap`, in this order and each
/// if it is wanted, and no word after them.
///
/// # Errors
/// Words that are none of these.
pub fn read_layers(words: &[&str]) -> Result<LayerNumbers, PageFault> {
    let (s, t, words) = read_shift(words)?;
    let (x_word, y_word, words) = read_scramble(words)?;
    let swap = read_swap(words)?;
    Ok(LayerNumbers {
        s,
        t,
        x_word,
        y_word,
        swap,
    })
}

fn read_shift<'a, 'b>(words: &'b [&'a str]) -> Result<(u16, u16, &'b [&'a str]), PageFault> {
    match words {
        ["shift", s, t, rest @ ..] => Ok((read_number(s)?, read_number(t)?, rest)),
        _ => Ok((0, 0, words)),
    }
}

fn read_scramble<'a, 'b>(words: &'b [&'a str]) -> Result<(u64, u64, &'b [&'a str]), PageFault> {
    match words {
        ["scramble", x_word, y_word, rest @ ..] => Ok((
            read_number(x_word)?,
            read_number(y_word)?,
            rest,
        )),
        _ => Ok((0, 0, words)),
    }
}

fn read_swap(words: &[&str]) -> Result<bool, PageFault> {
    match words {
        [] => Ok(false),
        ["swap"] => Ok(true),
        _ => Err(PageFault::Words),
    }
}
