//! How the writing of a text refuses.
ghost use Rattle.std.specs.Prelude.{◌≡◌, Some};
ghost use Rattle.reports.specs.declared.text_fault.TextFault.TheVariants.{Memory};
ghost use Rattle.reports.specs.Refusals.{fault_text};

use std::alloc::AllocError;
use std::error::Error;
use std::fmt;

/// How the writing of a text refuses.
#[derive(Clone, Copy, Debug, PartialEq, Eq)]
pub enum TextFault {
    /// 31: how many bytes the place for the text has, fewer than 96.
    Short(usize),
    /// Want of memory, of a job that passes all checks and has a point list.
    Memory,
}

impl fmt::Display for TextFault {
    ghost output = { λ e. Some (fault_text e) };

    fn fmt<W: fmt::Write>(&self, f: &mut fmt::Formatter<W>) -> fmt::Result {
        match self {
            TextFault::Short(size) => write!(f, "refused 31 place {size}"),
            TextFault::Memory => write!(f, "out of memory"),
        }
    }
}

impl Error for TextFault {}

impl From<AllocError> for TextFault {
    ghost from_gives = { λ _ r. r ≡ Memory };

    fn from(_e: AllocError) -> TextFault {
        TextFault::Memory
    }
}
