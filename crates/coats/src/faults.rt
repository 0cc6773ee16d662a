//! How rows are refused.
ghost use Rattle.std.specs.Prelude.{Some};
ghost use Rattle.coats.specs.Refusals.{map_text};

use std::error::Error;
use std::fmt;

/// Why rows are no map.
#[derive(Clone, Copy, Debug, PartialEq, Eq)]
pub enum MapFault {
    /// 7: there are more rows than the kind allows.
    Count,
    /// 8: the row of this number, from 0, is out of its bounds. Rows for y are numbered after those for x.
    Row(u8),
    /// 9: they weigh more than a map may.
    Weight,
}

impl fmt::Display for MapFault {
    ghost output = { λ e. Some (map_text e) };

    fn fmt<W: fmt::Write>(&self, f: &mut fmt::Formatter<W>) -> fmt::Result {
        match self {
            MapFault::Count => write!(f, "refused 7"),
            MapFault::Row(row) => write!(f, "refused 8 row {row}"),
            MapFault::Weight => write!(f, "refused 9"),
        }
    }
}

impl Error for MapFault {}
