//! A worked program: a plan with layers on it, a map, a survey of both, and two changes of recipe.
use boxes::{BoxRow, Boxes};
use coats::MapFault;
use layers::{Scramble, Shift, Swap};
use nets::{LevelFault, Net};
use sequences::Hammersley;
use std::io;
use survey::{Committed, Report, Survey};

// The kind of plan that is surveyed.
type LayeredPlan = Swap<Scramble<Shift<Hammersley>>>;

// The weight 7 on one place.
const SPOT: BoxRow = BoxRow {
    x0: 65535,
    x1: 65536,
    y0: 1,
    y1: 2,
    w: 7,
};

// The weight 3 on a quarter of the panel.
const QUARTER: BoxRow = BoxRow {
    x0: 0,
    x1: 32768,
    y0: 0,
    y1: 32768,
    w: 3,
};

// The weight 5 on a strip that is half of the panel.
const STRIP: BoxRow = BoxRow {
    x0: 16384,
    x1: 49152,
    y0: 0,
    y1: 65536,
    w: 5,
};

/// Surveys a panel, and changes the recipe twice: the first change is committed, the second is abandoned.
pub fn worked_program(rt: &impl Print) -> anyhow::Result<()> {
    let plan = layered(2)?;
    print_places(rt, &plan)?;

    // A survey, with a report after each place.
    let mut survey = Survey::open(plan, box_map(&[SPOT])?);
    for _ in 0..2 {
        survey.take(1)?;
        print_report(rt, survey.report())?;
    }

    // Two places are left, so three are refused, and nothing is taken.
    if let Err(fault) = survey.take(3) {
        println!(rt; "{fault}")?;
    }

    // A change that is committed: no place of the new plan is taken yet.
    let change = survey
        .begin(layered(1)?)
        .map_page(box_map(&[QUARTER, STRIP])?);
    let Committed {
        mut survey,
        outcome,
    } = change.commit();
    outcome?;
    print_report(rt, survey.report())?;
    survey.take(2)?;
    print_report(rt, survey.report())?;

    // A change that is abandoned: the survey is as it was.
    let survey = survey.begin(layered(3)?).abandon();
    print_report(rt, survey.report())?;
    Ok(())
}

// Hammersley's plan of a level, shifted, then scrambled, then swapped.
fn layered(level: u32) -> Result<LayeredPlan, LevelFault> {
    let plan = Hammersley::new(level)?;
    let shifted = Shift::new(plan, 1, 65535);
    let scrambled = Scramble::new(shifted, 4, 2);
    Ok(Swap::new(scrambled))
}

// The map of these boxes.
fn box_map(rows: &[BoxRow]) -> Result<Boxes, MapFault> {
    let mut map = Boxes::new();
    map.replace(rows)?;
    Ok(map)
}

fn print_places(rt: &impl Print, plan: &impl Net) -> anyhow::Result<()> {
    for i in 0..plan.level().places() {
        let (x, y) = plan.place(i)?;
        println!(rt; "place {x} {y}")?;
    }
    Ok(())
}

/// Prints a report as one line.
pub fn print_report(rt: &impl Print, report: Report) -> io::Result<()> {
    let Report {
        level,
        count,
        sum,
        radius,
    } = report;
    println!(rt; "report level {level} taken {count} sum {sum} radius {radius}")
}
