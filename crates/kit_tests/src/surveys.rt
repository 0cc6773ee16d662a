//! Surveys, their changes, replayed logs, and whole panels.
use boxes::{BoxRow, Boxes};
use cells::Cells;
use coats::MapFault;
use maps::Map;
use plans::Plan;
use reports::measure;
use sequences::Hammersley;
use std::test::Fail;
use survey::{Answer, Call, CommitFault, LimitFault, Report, Survey, TakeFault, replay, sum_coats};

// The box 0, 32768, 0, 32768 with w 3.
fn quarter() -> Result<Boxes, MapFault> {
    let mut map = Boxes::new();
    let row = BoxRow {
        x0: 0,
        x1: 32768,
        y0: 0,
        y1: 32768,
        w: 3,
    };
    map.replace(&[row])?;
    Ok(map)
}

fn report(level: u32, count: u32, sum: i64, radius: u64) -> Report {
    Report {
        level,
        count,
        sum,
        radius,
    }
}

// Sums over places of a plan, of which there are none past the last.
#[test]
fn sums_over_places(rt: HostRuntime) -> Result<(), Fail> {
    let plan = Hammersley::new(2)?;
    let map = quarter()?;
    for (first, count, sum) in [
        (0, 4, 3),
        (0, 1, 3),
        (1, 3, 0),
        (0, u32::MAX, 3),
        (4, 9, 0),
        (u32::MAX, u32::MAX, 0),
    ] {
        assert_eq!(rt; sum_coats(&plan, &map, first, count), sum);
    }
    Ok(())
}

#[test]
fn takes_and_reports(rt: HostRuntime) -> Result<(), Fail> {
    let mut survey = Survey::open(Hammersley::new(2)?, quarter()?);
    // k, the answer, and the report after it.
    for (k, answer, after) in [
        (0, Err(TakeFault::Nothing), report(2, 0, 0, 21)),
        (5, Err(TakeFault::TooMany(4)), report(2, 0, 0, 21)),
        (1, Ok(1), report(2, 1, 3, 18)),
        (4, Err(TakeFault::TooMany(3)), report(2, 1, 3, 18)),
        (4294967295, Err(TakeFault::TooMany(3)), report(2, 1, 3, 18)),
        (3, Ok(4), report(2, 4, 3, 9)),
        (1, Err(TakeFault::TooMany(0)), report(2, 4, 3, 9)),
        (0, Err(TakeFault::Nothing), report(2, 4, 3, 9)),
    ] {
        assert_eq!(rt; survey.take(k), answer);
        assert_eq!(rt; survey.report(), after);
    }
    Ok(())
}

// A change that is refused, one that is abandoned, one that holds, and one still open at the end.
#[test]
fn a_whole_life(rt: HostRuntime) -> Result<(), Fail> {
    let heap = rt.alloc();
    let calls = vec![in heap;
        Call::Take(1),
        Call::Limit(8),
        Call::Limit(9),
        Call::Commit,
        Call::Begin(Hammersley::new(3)?),
        Call::Report,
        Call::Commit,
        Call::MapPage(quarter()?),
        Call::Take(1),
        Call::Commit,
        Call::Report,
        Call::Begin(Hammersley::new(1)?),
        Call::Abandon,
        Call::Abandon,
        Call::Report,
        Call::Begin(Hammersley::new(1)?),
        Call::MapPage(quarter()?),
        Call::Commit,
        Call::Report,
        Call::Take(2),
        Call::Report,
        Call::Begin(Hammersley::new(0)?),
    ]?;
    let answers = replay(heap, Hammersley::new(2)?, quarter()?, calls)?;
    let expected = [
        Some(Answer::Taken(Ok(1))),
        Some(Answer::Limited(Err(LimitFault(9)))),
        Some(Answer::Limited(Ok(()))),
        None,
        Some(Answer::Begun),
        None,
        None,
        Some(Answer::Paged),
        None,
        Some(Answer::Committed(Err(CommitFault(12)))),
        Some(Answer::Reported(report(2, 1, 3, 18))),
        Some(Answer::Begun),
        Some(Answer::Abandoned),
        None,
        Some(Answer::Reported(report(2, 1, 3, 18))),
        Some(Answer::Begun),
        Some(Answer::Paged),
        Some(Answer::Committed(Ok(()))),
        Some(Answer::Reported(report(1, 0, 0, 12))),
        Some(Answer::Taken(Ok(2))),
        Some(Answer::Reported(report(1, 2, 3, 6))),
        Some(Answer::Begun),
    ];
    assert_eq!(rt; answers.as_slice(), expected.as_slice());
    Ok(())
}

// The heaviest map on the longest plan: the limit of opening is just enough for it.
#[test]
fn largest_numbers(rt: HostRuntime) -> Result<(), Fail> {
    let mut map = Cells::new();
    map.replace(&[[-16384; 8]; 8])?;
    let mut survey = Survey::open(Plan::Hammersley(Hammersley::new(12)?), Map::Cells(map));
    assert_eq!(rt; survey.report(), report(12, 0, 0, 67321856));
    assert_eq!(rt; survey.set_limit(212991), Err(LimitFault(212992)));
    assert_eq!(rt; survey.set_limit(212992), Ok(()));
    assert_eq!(rt; survey.take(4096), Ok(4096));
    assert_eq!(rt; survey.report(), report(12, 4096, -67108864, 212992));
    Ok(())
}

#[test]
fn whole_panels(rt: HostRuntime) -> Result<(), Fail> {
    let measured = measure(Hammersley::new(2)?, quarter()?);
    let text = "level 2\npoints 4\ntaken 4\nsum 3\nradius 9\naudit 12\n";
    assert_eq!(rt; measured.text().as_str(), text);

    let mut map = Cells::new();
    map.replace(&[[-16384; 8]; 8])?;
    let measured = measure(Plan::Hammersley(Hammersley::new(12)?), Map::Cells(map));
    let text = "level 12\npoints 4096\ntaken 4096\nsum -67108864\nradius 212992\naudit 53248\n";
    assert_eq!(rt; measured.text().as_str(), text);
    Ok(())
}
