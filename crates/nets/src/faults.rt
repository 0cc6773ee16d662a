//! How a plan and its making refuse.
ghost use Rattle.std.specs.Prelude.{Some};
ghost use Rattle.nets.specs.Refusals.{place_text, level_text};

use std::error::Error;
use std::fmt;

/// How a place call refuses.
#[derive(Clone, Copy, Debug, PartialEq, Eq)]
pub enum PlaceFault {
    /// 11: no place has this index, which is 2^m or more.
    NoPlace(u32),
}

/// How the making of a level, or of a plan of a level, refuses.
#[derive(Clone, Copy, Debug, PartialEq, Eq)]
pub enum LevelFault {
    /// 4: the level, which is over 12.
    TooHigh(u32),
}

impl fmt::Display for PlaceFault {
    ghost output = { λ e. Some (place_text e) };

    fn fmt<W: fmt::Write>(&self, f: &mut fmt::Formatter<W>) -> fmt::Result {
        match self {
            PlaceFault::NoPlace(index) => write!(f, "refused 11 place {index}"),
        }
    }
}

impl fmt::Display for LevelFault {
    ghost output = { λ e. Some (level_text e) };

    fn fmt<W: fmt::Write>(&self, f: &mut fmt::Formatter<W>) -> fmt::Result {
        match self {
            LevelFault::TooHigh(level) => write!(f, "refused 4 level {level}"),
        }
    }
}

impl Error for PlaceFault {}

impl Error for LevelFault {}
