//! What is wrong with the layer section of a job.
ghost use Rattle.std.specs.Prelude.{◌≡◌, Some};
ghost use Rattle.jobs.specs.Refusals.{layers_told, refusal_told, told_text};

use crate::refusal::Refusal;
use std::error::Error;
use std::fmt;

/// 6: the layer section, section 2, that starts at this byte has not 21 bytes, or a swap byte over 1.
#[derive(Clone, Copy, Debug, PartialEq, Eq)]
pub struct LayerSectionFault(pub u16);

impl LayerSectionFault {
    /// What is told of the job.
    pub fn refusal(self) -> Refusal
        ensures { layers_told self ≡ refusal_told result }
    {
        Refusal::at(6, 2, u32::from(self.0))
    }
}

impl fmt::Display for LayerSectionFault {
    ghost output = { λ e. Some (told_text (layers_told e)) };

    fn fmt<W: fmt::Write>(&self, f: &mut fmt::Formatter<W>) -> fmt::Result {
        write!(f, "{}", self.refusal())
    }
}

impl Error for LayerSectionFault {}
