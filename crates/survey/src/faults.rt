//! How a survey's calls refuse.
ghost use Rattle.std.specs.Prelude.{Some};
ghost use Rattle.survey.specs.Refusals.{take_text, limit_text, commit_text};

use std::error::Error;
use std::fmt;

/// Why a take is refused.
#[derive(Clone, Copy, Debug, PartialEq, Eq)]
pub enum TakeFault {
    /// 21: no places are to be taken.
    Nothing,
    /// 22: more places are to be taken than are left; how many are left.
    TooMany(u32),
}

/// 23: what the depths of the survey's own recipe cost, which is above the limit that was to be set.
#[derive(Clone, Copy, Debug, PartialEq, Eq)]
pub struct LimitFault(pub u64);

/// 24: what the depths of the new recipe cost, which is above the limit.
#[derive(Clone, Copy, Debug, PartialEq, Eq)]
pub struct CommitFault(pub u64);

impl fmt::Display for TakeFault {
    ghost output = { λ e. Some (take_text e) };

    fn fmt<W: fmt::Write>(&self, f: &mut fmt::Formatter<W>) -> fmt::Result {
        match self {
            TakeFault::Nothing => write!(f, "refused 21 place 0"),
            TakeFault::TooMany(left) => write!(f, "refused 22 place {left}"),
        }
    }
}

impl fmt::Display for LimitFault {
    ghost output = { λ e. Some (limit_text e) };

    fn fmt<W: fmt::Write>(&self, f: &mut fmt::Formatter<W>) -> fmt::Result {
        write!(f, "refused 23 place {}", self.0)
    }
}

impl fmt::Display for CommitFault {
    ghost output = { λ e. Some (commit_text e) };

    fn fmt<W: fmt::Write>(&self, f: &mut fmt::Formatter<W>) -> fmt::Result {
        write!(f, "refused 24 place {}", self.0)
    }
}

impl Error for TakeFault {}

impl Error for LimitFault {}

impl Error for CommitFault {}
