//! Why a line makes no call.
ghost use Rattle.std.specs.Prelude.{◌≡◌, Some};
ghost use Rattle.gauge.specs.declared.unreadable.Unreadable.TheVariants.{Page};
ghost use Rattle.gauge.specs.Texts.{fault_text};

use crate::lines::{LONGEST_LINE, MOST_BYTES};
use pages::PageFault;
use std::error::Error;
use std::fmt;

/// Why a line makes no call.
#[derive(Clone, Copy, Debug, PartialEq, Eq)]
pub enum Unreadable {
    /// It has more than 4,194,304 bytes, which ends the run.
    Endless,
    /// It has more than 65,535 bytes.
    TooLong,
    /// Its first word is no command.
    Unknown,
    /// The opening is not complete.
    NotOpen,
    /// The opening has its plan already.
    Open,
    /// A plan is not of the kind that was opened.
    PlanKind,
    /// A map is not of the kind that was opened.
    MapKind,
    /// The words after its command cannot be read.
    Page(PageFault),
}

impl fmt::Display for Unreadable {
    ghost output = { λ e. Some (fault_text e) };

    fn fmt<W: fmt::Write>(&self, f: &mut fmt::Formatter<W>) -> fmt::Result {
        match self {
            Unreadable::Endless => write!(f, "more than {MOST_BYTES} bytes"),
            Unreadable::TooLong => write!(f, "more than {LONGEST_LINE} bytes"),
            Unreadable::Unknown => write!(f, "unknown command"),
            Unreadable::NotOpen => write!(f, "no recipe is open"),
            Unreadable::Open => write!(f, "a recipe is open"),
            Unreadable::PlanKind => write!(f, "another kind of plan"),
            Unreadable::MapKind => write!(f, "another kind of map"),
            Unreadable::Page(fault) => write!(f, "{fault}"),
        }
    }
}

impl Error for Unreadable {}

impl From<PageFault> for Unreadable {
    ghost from_gives = { λ e r. r ≡ Page e };

    fn from(e: PageFault) -> Unreadable {
        Unreadable::Page(e)
    }
}
