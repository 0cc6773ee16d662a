//! What is wrong with the map section of a job.
ghost use Rattle.std.specs.Prelude.{◌≡◌, Some};
ghost use Rattle.jobs.specs.declared.map_section_fault.MapSectionFault.TheVariants.{Rows};
ghost use Rattle.jobs.specs.Refusals.{map_section_told, refusal_told, told_text};

use crate::map_rows::row_start;
use crate::refusal::Refusal;
use coats::MapFault;
use maps::MapKind;
use std::error::Error;
use std::fmt;

/// What is wrong with the rows of a map section that starts at a byte of the file.
#[derive(Clone, Copy, Debug, PartialEq, Eq)]
pub struct RowsAt {
    /// The first byte of the section.
    pub start: u16,
    /// The kind of the map.
    pub kind: MapKind,
    /// 8 with the number of the row, or 9.
    pub fault: MapFault,
}

/// What is wrong with the map section, section 3.
#[derive(Clone, Copy, Debug, PartialEq, Eq)]
pub enum MapSectionFault {
    /// 7: the section that starts at this byte is of no kind, has too many rows, or is not as long as they are.
    Layout(u16),
    /// 8 or 9.
    Rows(RowsAt),
}

impl MapSectionFault {
    /// What is told of the job.
    pub fn refusal(self) -> Refusal
        ensures { map_section_told self ≡ refusal_told result }
    {
        match self {
            MapSectionFault::Layout(start) => Refusal::at(7, 3, u32::from(start)),
            MapSectionFault::Rows(rows) => rows.refusal(),
        }
    }
}

impl RowsAt {
    /// What is told of the job.
    pub fn refusal(self) -> Refusal
        ensures { map_section_told (Rows self) ≡ refusal_told result }
    {
        let start = u32::from(self.start);
        match self.fault {
            MapFault::Count => Refusal::at(7, 3, start),
            MapFault::Row(row) => {
                Refusal::at(8, 3, start + u32::from(row_start(self.kind, row)))
            }
            MapFault::Weight => Refusal::at(9, 3, start),
        }
    }
}

impl fmt::Display for MapSectionFault {
    ghost output = { λ e. Some (told_text (map_section_told e)) };

    fn fmt<W: fmt::Write>(&self, f: &mut fmt::Formatter<W>) -> fmt::Result {
        write!(f, "{}", self.refusal())
    }
}

impl fmt::Display for RowsAt {
    ghost output = { λ e. Some (told_text (map_section_told (Rows e))) };

    fn fmt<W: fmt::Write>(&self, f: &mut fmt::Formatter<W>) -> fmt::Result {
        write!(f, "{}", self.refusal())
    }
}

impl Error for MapSectionFault {}

impl Error for RowsAt {}

impl From<RowsAt> for MapSectionFault {
    ghost from_gives = { λ e r. r ≡ Rows e };

    fn from(e: RowsAt) -> MapSectionFault {
        MapSectionFault::Rows(e)
    }
}
