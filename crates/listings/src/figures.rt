//! What is told under a picture: the level of a plan and, if there is a map, its sum and radius.
ghost use Rattle.std.specs.Prelude.{◌≡◌, ◌^◌, Some, OnOk};
ghost use Rattle.std.specs.Io.KnownBytes.{Appends};
ghost use Rattle.std.specs.Option.{option_map, option_copied};
ghost use Rattle.survey.specs.Setups.{coat_sum, plan_of, radius_of, setup_of};
ghost use Rattle.listings.specs.Figures.{figures_text, level_text, sum_text};

use coats::CoatMap;
use nets::{Level, Net};
use std::io::Write;
use std::{fmt, io};
use survey::{radius, sum_coats};

/// Writes the level of a plan and the number of its places and, if there is a map, the sum of its coat over all
/// of them and the radius of that sum.
pub(crate) fn write_figures<P: Net, M: CoatMap, W: Write>(
    plan: &P,
    map: Option<&M>,
    output: &mut W,
) -> io::Result<()>
    ensures { OnOk result (Appends (W.contents output.old) (W.contents output.new)
        (figures_text (plan_of P.Net plan.now) (option_map M.terms (option_copied map.entry)))) }
{
    output.writeln(LevelLine(plan.level()))?;
    match map {
        None => Ok(()),
        Some(map) => output.writeln(SumLine::of(plan, map)),
    }
}

// A level as a line of text.
#[derive(Clone, Copy, Debug)]
struct LevelLine(Level);

impl fmt::Display for LevelLine {
    ghost output = { λ l. Some (level_text l.0.m) };

    #[tactic(auto, unfolding(crate::specs::Figures::level_text))]
    fn fmt<W: fmt::Write>(&self, f: &mut fmt::Formatter<W>) -> fmt::Result {
        let m = self.0.get();
        let places = self.0.places();
        write!(
            f,
            r#"<text x="62" y="514">level {m}, places {places}</text>"#
        )
    }
}

// A sum and its radius as a line of text.
#[derive(Clone, Copy, Debug)]
struct SumLine {
    sum: i64,
    radius: u64,
}

impl SumLine {
    // The sum of a map's coat over all places of a plan.
    fn of<P: Net, M: CoatMap>(plan: &P, map: &M) -> SumLine
        ensures sum { result.sum ≡ coat_sum (setup_of P.Net M.CoatMap plan.now map.now) (2 ^ P.level plan.now) }
        ensures radius { result.radius ≡ radius_of (setup_of P.Net M.CoatMap plan.now map.now) (2 ^ P.level plan.now) }
    {
        let places = plan.level().places();
        SumLine {
            sum: sum_coats(plan, map, 0, places),
            radius: radius(plan, map, places),
        }
    }
}

impl fmt::Display for SumLine {
    ghost output = { λ l. Some (sum_text l.sum l.radius) };

    #[tactic(auto, unfolding(crate::specs::Figures::sum_text))]
    fn fmt<W: fmt::Write>(&self, f: &mut fmt::Formatter<W>) -> fmt::Result {
        let SumLine { sum, radius } = self;
        write!(
            f,
            r#"<text x="62" y="532">sum {sum}, radius {radius}</text>"#
        )
    }
}
