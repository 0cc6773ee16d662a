//! A recipe, as a job file carries it.
ghost use Rattle.std.specs.Prelude.{IfErr};

use crate::job_fault::JobFault;
use crate::job_file::JobFile;
use boxes::Boxes;
use layers::LayerNumbers;
use maps::Map;
use plans::Plan;
use sequences::Hammersley;
use std::alloc::Global;

/// A plan, the numbers of the layers on it, and a map.
#[derive(Debug, Drop)]
pub struct Recipe {
    /// The plan, with no layers.
    pub plan: Plan,
    /// The numbers of its layers.
    pub layers: LayerNumbers,
    /// The map.
    pub map: Map,
}

impl Recipe {
    ghost use Rattle.jobs.specs.Jobs.{Accepts, IsBlank, Parses, Reads, TellsRows};

    /// One place, no layer that moves it, and no coat.
    pub fn new() -> Self
        ensures { IsBlank result }
    {
        Recipe {
            plan: Plan::Hammersley(Hammersley::new(0).unwrap()),
            layers: LayerNumbers::default(),
            map: Map::Boxes(Boxes::new()),
        }
    }

    /// The recipe that a job lays down.
    ///
    /// # Errors
    /// 1 to 9 and 13, by the first check that the job does not pass; want of memory for a point list, of a job
    /// that passes all checks.
    #[tactic(auto, using(crate::proofs::Passed::accepts))]
    pub fn parse(heap: Global, job: &[u8]) -> Result<Recipe, JobFault>
        ensures parses { Parses job.now result }
        ensures rows { IfErr result (TellsRows job.now) }
        ensures accepts { Accepts job.now result }
    {
        Recipe::of(heap, job)
    }

    // Section after section.
    #[tactic(auto, using(crate::proofs::Passed::passed))]
    fn of(heap: Global, job: &[u8]) -> Result<Recipe, JobFault>
        ensures parses { Parses job.now result }
        ensures rows { IfErr result (TellsRows job.now) }
    {
        let file = JobFile::open(job)?;
        let plan = file.plan()?;
        let layers = file.layers()?;
        let map = file.map()?;
        let plan = plan.plan(heap)?;
        Ok(Recipe { plan, layers, map })
    }

    /// Replaces the recipe by the one that a job lays down; a job that is refused leaves it as it was.
    ///
    /// # Errors
    /// As of [`Recipe::parse`].
    pub fn read(&mut self, heap: Global, job: &[u8]) -> Result<(), JobFault>
        ensures reads { Reads job.now self.old self.new result }
        ensures rows { IfErr result (TellsRows job.now) }
        ensures accepts { Accepts job.now result }
    {
        *self = Recipe::parse(heap, job)?;
        Ok(())
    }
}
