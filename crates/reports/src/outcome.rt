//! What is said of a job.
ghost use Rattle.std.specs.Prelude.{◌≡◌, ◌≤◌, length};
ghost use Rattle.reports.specs.Outcomes.{outcome_text};

use crate::measured::Measured;
use jobs::Refusal;
use texts::Text;

/// What is said of a job; a refusal is said too.
#[derive(Clone, Copy, Debug, PartialEq, Eq)]
pub enum Outcome {
    /// What is measured of the whole panel.
    Measured(Measured),
    /// How the job is refused.
    Refused(Refusal),
}

impl Outcome {
    /// Its text, at most 96 bytes, which needs no memory.
    #[tactic(auto, using(crate::proofs::Lengths::text_short))]
    pub fn text(self) -> Text
        ensures value { result.bytes ≡ outcome_text self }
        ensures short { length result.bytes ≤ 96 }
    {
        match self {
            Outcome::Measured(measured) => measured.text(),
            Outcome::Refused(refusal) => {
                let mut text = refusal.text();
                text.push_str("\n");
                text
            }
        }
    }
}
