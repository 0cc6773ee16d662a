//! What is measured of a whole panel.
ghost use Rattle.std.specs.Prelude.{◌*◌, ◌≤◌, unsigned_abs};
ghost use Rattle.nets.specs.declared.level.TheConstants.{MOST_PLACES};
ghost use Rattle.coats.specs.declared.checks.TheConstants.{HEAVIEST};
ghost use Rattle.survey.specs.declared.costs.TheConstants.{FIRST_LIMIT};

use survey::Report;
use texts::{Text, push_number};

/// What a survey of a whole panel reports: every place taken. Its type says how large the numbers can be, so
/// that their text is known to be short.
#[derive(Clone, Copy, Debug, PartialEq, Eq)]
pub struct Measured {
    /// N.
    pub points: u32,
    /// m, n, S and R.
    pub report: Report,
    /// How many intervals the audit of the plan's places examined.
    pub audit: u32,
    ghost low: { report.level ≤ 12 },
    ghost few: { points ≤ MOST_PLACES },
    ghost taken: { report.count ≤ MOST_PLACES },
    ghost small: { unsigned_abs report.sum ≤ MOST_PLACES * HEAVIEST },
    ghost near: { report.radius ≤ FIRST_LIMIT },
    ghost audited: { audit ≤ 13 * MOST_PLACES },
}

impl Measured {
    ghost use Rattle.std.specs.Prelude.{◌≡◌};
    ghost use Rattle.reports.specs.Texts.{measured_text};

    /// Its text: six lines, which need no memory.
    pub fn text(self) -> Text
        ensures { result.bytes ≡ measured_text self }
    {
        let mut text = Text::new();
        push_number(&mut text, "level ", self.report.level);
        push_number(&mut text, "\npoints ", self.points);
        push_number(&mut text, "\ntaken ", self.report.count);
        push_number(&mut text, "\nsum ", self.report.sum);
        push_number(&mut text, "\nradius ", self.report.radius);
        push_number(&mut text, "\naudit ", self.audit);
        text.push_str("\n");
        text
    }
}
