//! Why words are no plan.
ghost use Rattle.std.specs.Prelude.{◌≡◌, Some};
ghost use Rattle.netplan.specs.Faults.{plan_fault_text, status_of};
ghost use Rattle.netplan.specs.declared.fault.PlanFault.TheVariants.{Page};

use pages::PageFault;
use std::error::Error;
use std::fmt;

/// Why words are no plan.
#[derive(Clone, Copy, Debug, PartialEq, Eq)]
pub enum PlanFault {
    /// Why they are no page.
    Page(PageFault),
    /// 12: a file of places has more bytes than the longest list has. Nobody has counted them.
    TooLong,
    /// Rounds are wanted of a plan that counts none.
    NoRounds,
}

impl PlanFault {
    // The status that the program ends with: 2 where its words are wrong, and 1 else.
    pub(crate) fn status(self) -> u8
        ensures { result ≡ status_of self }
    {
        match self {
            PlanFault::Page(PageFault::Words) => 2,
            PlanFault::Page(_) | PlanFault::TooLong | PlanFault::NoRounds => 1,
        }
    }
}

impl fmt::Display for PlanFault {
    ghost output = { λ e. Some (plan_fault_text e) };

    fn fmt<W: fmt::Write>(&self, f: &mut fmt::Formatter<W>) -> fmt::Result {
        match self {
            PlanFault::Page(fault) => write!(f, "{fault}"),
            PlanFault::TooLong => write!(f, "refused 12 more than 16384 bytes"),
            PlanFault::NoRounds => write!(f, "the plan counts no rounds"),
        }
    }
}

impl Error for PlanFault {}

impl From<PageFault> for PlanFault {
    ghost from_gives = { λ e r. r ≡ Page e };

    fn from(e: PageFault) -> PlanFault {
        PlanFault::Page(e)
    }
}
