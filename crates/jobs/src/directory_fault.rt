//! What is wrong with the directory of a job.
ghost use Rattle.std.specs.Prelude.{◌≡◌, Some};
ghost use Rattle.jobs.specs.Refusals.{directory_told, refusal_told, told_text};

use crate::refusal::Refusal;
use std::error::Error;
use std::fmt;

/// What is wrong with the directory, which is section 0.
#[derive(Clone, Copy, Debug, PartialEq, Eq)]
pub enum DirectoryFault {
    /// 1: the file has fewer than 12 bytes, or more than 65,535.
    Size,
    /// 2: the section of this pair, 0 to 2, begins too early or ends past the file.
    Pair(u16),
}

impl DirectoryFault {
    /// What is told of the job.
    pub fn refusal(self) -> Refusal
        ensures { directory_told self ≡ refusal_told result }
    {
        match self {
            DirectoryFault::Size => Refusal::at(1, 0, 0),
            DirectoryFault::Pair(number) => Refusal::at(2, 0, 4 * u32::from(number)),
        }
    }
}

impl fmt::Display for DirectoryFault {
    ghost output = { λ e. Some (told_text (directory_told e)) };

    fn fmt<W: fmt::Write>(&self, f: &mut fmt::Formatter<W>) -> fmt::Result {
        write!(f, "{}", self.refusal())
    }
}

impl Error for DirectoryFault {}
