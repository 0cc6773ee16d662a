//! What is told of a job that is refused.
ghost use Rattle.std.specs.Prelude.{◌≡◌, ◌≤◌, length, Some};
ghost use Rattle.jobs.specs.Refusals.{refusal_told, told_text};

use audit::NotNet;
use std::fmt;
use texts::{Text, push_number};

/// What is told of a job that is refused.
#[derive(Clone, Copy, Debug, PartialEq, Eq)]
pub struct Refusal {
    /// The number, from 1 to 13.
    pub number: u32,
    /// The section: 1 the plan, 2 the layers, 3 the map, and 0 the directory.
    pub section: u32,
    /// The byte of the file.
    pub place: u32,
    /// For 13, the first empty interval.
    pub empty: Option<NotNet>,
}

impl Refusal {
    // One that names no interval.
    pub(crate) fn at(number: u32, section: u32, place: u32) -> Refusal
        ensures { (result.number ≡ number) × (result.section ≡ section) × (result.place ≡ place)
            × (result.empty ≡ None) }
    {
        Refusal {
            number,
            section,
            place,
            empty: None,
        }
    }

    /// Its text, at most 91 bytes, which needs no memory.
    pub fn text(self) -> Text
        ensures value { result.bytes ≡ told_text (refusal_told self) }
        ensures short { length result.bytes ≤ 91 }
    {
        let mut text = Text::new();
        push_number(&mut text, "refused ", self.number);
        push_number(&mut text, " section ", self.section);
        push_number(&mut text, " place ", self.place);
        if let Some(NotNet { depth, interval }) = self.empty {
            push_number(&mut text, " depth ", depth);
            push_number(&mut text, " interval ", interval);
        }
        text
    }
}

impl fmt::Display for Refusal {
    ghost output = { λ r. Some (told_text (refusal_told r)) };

    fn fmt<W: fmt::Write>(&self, f: &mut fmt::Formatter<W>) -> fmt::Result {
        write!(f, "{}", self.text())
    }
}
