//! The lines of the first page.
ghost use Rattle.std.specs.Prelude.{◌≡◌, [], ◌∷◌, pos, IsOkAnd};
ghost use Rattle.refusals.specs.Told.{refused};
ghost use Rattle.survey.specs.Life.{reported, refusal};
ghost use Rattle.survey.specs.Refusals.{commit_answer};
ghost use Rattle.survey.specs.Reports.{report_answer};

use boxes::{BoxRow, Boxes};
use coats::MapFault;
use sequences::Hammersley;
use survey::{CommitFault, Committed, Report, Survey};

/// What is seen of a change.
#[derive(Clone, Copy, Debug, PartialEq, Eq)]
pub struct Seen {
    /// The report before it.
    pub before: Report,
    /// What the commit answers.
    pub outcome: Result<(), CommitFault>,
    /// The report after it.
    pub after: Report,
}

// The map of one box, which puts the weight 3 on the places with x and y below 32768.
fn one_box() -> Result<Boxes, MapFault>
    ensures { IsOkAnd result
        (λ map. map.rows.items ≡ record { x0 = 0; x1 = 32768; y0 = 0; y1 = 32768; w = pos 3 } ∷ []) }
{
    let mut map = Boxes::new();
    map.replace(&[BoxRow {
        x0: 0,
        x1: 32768,
        y0: 0,
        y1: 32768,
        w: 3,
    }])?;
    Ok(map)
}

// first page
/// A change of recipe that the limit refuses leaves the survey whole.
pub fn refused_change() -> anyhow::Result<Seen>
    ensures before { IsOkAnd result (λ seen. report_answer seen.before ≡ reported 2 1 (pos 3) 18) }
    ensures refused { IsOkAnd result (λ seen. commit_answer seen.outcome ≡ refusal (refused 24 (12 ∷ []))) }
    ensures whole { IsOkAnd result (λ seen. seen.after ≡ seen.before) }
{
    let mut survey = Survey::open(Hammersley::new(2)?, one_box()?);
    survey.take(1)?;
    survey.set_limit(9)?;
    let before = survey.report();
    let change = survey.begin(Hammersley::new(3)?).map_page(one_box()?);
    let Committed { survey, outcome } = change.commit();
    Ok(Seen {
        before,
        outcome,
        after: survey.report(),
    })
}
// end
