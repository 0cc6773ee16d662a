//! What is wrong with the plan section of a job.
ghost use Rattle.std.specs.Prelude.{◌≡◌, Some};
ghost use Rattle.jobs.specs.declared.plan_section_fault.PlanSectionFault.TheVariants.{Points};
ghost use Rattle.jobs.specs.Refusals.{plan_told, refusal_told, told_text};

use crate::refusal::Refusal;
use audit::NotNet;
use std::error::Error;
use std::fmt;

/// What the audit finds of the places of a plan section that starts at a byte of the file.
#[derive(Clone, Copy, Debug, PartialEq, Eq)]
pub struct PointsAt {
    /// The first byte of the section.
    pub start: u16,
    /// 13: the first empty interval.
    pub fault: NotNet,
}

/// What is wrong with the plan section, section 1. Each fault has the byte at which the section starts.
#[derive(Clone, Copy, Debug, PartialEq, Eq)]
pub enum PlanSectionFault {
    /// 3: it is empty, or its kind is over 2.
    Kind(u16),
    /// 4: it has fewer than 2 bytes, or its level is over 12.
    Level(u16),
    /// 5: it is not as long as its kind and level say.
    Length(u16),
    /// 13: its places are no net.
    Points(PointsAt),
}

impl PlanSectionFault {
    /// What is told of the job.
    pub fn refusal(self) -> Refusal
        ensures { plan_told self ≡ refusal_told result }
    {
        match self {
            PlanSectionFault::Kind(start) => Refusal::at(3, 1, u32::from(start)),
            PlanSectionFault::Level(start) => Refusal::at(4, 1, u32::from(start) + 1),
            PlanSectionFault::Length(start) => Refusal::at(5, 1, u32::from(start) + 2),
            PlanSectionFault::Points(points) => points.refusal(),
        }
    }
}

impl PointsAt {
    /// What is told of the job.
    pub fn refusal(self) -> Refusal
        ensures { plan_told (Points self) ≡ refusal_told result }
    {
        Refusal {
            number: 13,
            section: 1,
            place: u32::from(self.start) + 2,
            empty: Some(self.fault),
        }
    }
}

impl fmt::Display for PlanSectionFault {
    ghost output = { λ e. Some (told_text (plan_told e)) };

    fn fmt<W: fmt::Write>(&self, f: &mut fmt::Formatter<W>) -> fmt::Result {
        write!(f, "{}", self.refusal())
    }
}

impl fmt::Display for PointsAt {
    ghost output = { λ e. Some (told_text (plan_told (Points e))) };

    fn fmt<W: fmt::Write>(&self, f: &mut fmt::Formatter<W>) -> fmt::Result {
        write!(f, "{}", self.refusal())
    }
}

impl Error for PlanSectionFault {}

impl Error for PointsAt {}

impl From<PointsAt> for PlanSectionFault {
    ghost from_gives = { λ e r. r ≡ Points e };

    fn from(e: PointsAt) -> PlanSectionFault {
        PlanSectionFault::Points(e)
    }
}
