//! How a job is refused: what is wrong with a section's contents, wrapped whole in what is wrong with the
//! section, and that in what is wrong with the job.
ghost use Rattle.std.specs.Prelude.{◌≡◌, Some, MatchOption};
ghost use Rattle.refusals.specs.Told.{no_memory};
ghost use Rattle.jobs.specs.declared.job_fault.JobFault.TheVariants.{Directory, Plan, Layers, Map, Memory};
ghost use Rattle.jobs.specs.Refusals.{job_told, refusal_told, told_text};

use crate::directory_fault::DirectoryFault;
use crate::layer_section_fault::LayerSectionFault;
use crate::map_section_fault::MapSectionFault;
use crate::plan_section_fault::PlanSectionFault;
use crate::refusal::Refusal;
use std::alloc::AllocError;
use std::error::Error;
use std::fmt;

/// Why a job is not read.
#[derive(Clone, Copy, Debug, PartialEq, Eq)]
pub enum JobFault {
    /// 1 or 2, of the directory.
    Directory(DirectoryFault),
    /// 3, 4, 5 or 13, of the plan section.
    Plan(PlanSectionFault),
    /// 6, of the layer section.
    Layers(LayerSectionFault),
    /// 7, 8 or 9, of the map section.
    Map(MapSectionFault),
    /// Want of memory for a point list, of a job that passes all checks.
    Memory,
}

impl JobFault {
    /// What is told of the job, unless it is want of memory.
    pub fn refusal(self) -> Option<Refusal>
        ensures { MatchOption result (job_told self ≡ no_memory) (λ r. job_told self ≡ refusal_told r) }
    {
        match self {
            JobFault::Directory(fault) => Some(fault.refusal()),
            JobFault::Plan(fault) => Some(fault.refusal()),
            JobFault::Layers(fault) => Some(fault.refusal()),
            JobFault::Map(fault) => Some(fault.refusal()),
            JobFault::Memory => None,
        }
    }
}

impl fmt::Display for JobFault {
    ghost output = { λ e. Some (told_text (job_told e)) };

    fn fmt<W: fmt::Write>(&self, f: &mut fmt::Formatter<W>) -> fmt::Result {
        match self.refusal() {
            Some(refusal) => write!(f, "{refusal}"),
            None => write!(f, "out of memory"),
        }
    }
}

impl Error for JobFault {}

impl From<DirectoryFault> for JobFault {
    ghost from_gives = { λ e r. r ≡ Directory e };

    fn from(e: DirectoryFault) -> JobFault {
        JobFault::Directory(e)
    }
}

impl From<PlanSectionFault> for JobFault {
    ghost from_gives = { λ e r. r ≡ Plan e };

    fn from(e: PlanSectionFault) -> JobFault {
        JobFault::Plan(e)
    }
}

impl From<LayerSectionFault> for JobFault {
    ghost from_gives = { λ e r. r ≡ Layers e };

    fn from(e: LayerSectionFault) -> JobFault {
        JobFault::Layers(e)
    }
}

impl From<MapSectionFault> for JobFault {
    ghost from_gives = { λ e r. r ≡ Map e };

    fn from(e: MapSectionFault) -> JobFault {
        JobFault::Map(e)
    }
}

impl From<AllocError> for JobFault {
    ghost from_gives = { λ _ r. r ≡ Memory };

    fn from(_e: AllocError) -> JobFault {
        JobFault::Memory
    }
}
