//! Cell maps, and maps whose kind is chosen at run time.
use boxes::{BoxRow, Boxes};
use cells::Cells;
use coats::{CoatMap, MapFault};
use maps::Map;
use std::process::Abort;
use std::test::Fail;
use steps::Steps;

// Whether the coat in the four corners of each cell is the cell's value.
fn holds(map: &Cells, values: &[[i16; 8]; 8]) -> bool {
    for (y, row) in (0..u16::MAX).step_by(8192).zip(values) {
        for (x, value) in (0..u16::MAX).step_by(8192).zip(row) {
            for (i, j) in [(0, 0), (8191, 0), (0, 8191), (8191, 8191)] {
                if map.coat((x | i, y | j)) != i32::from(*value) {
                    return false;
                }
            }
        }
    }
    true
}

// What becomes of even cells of -3 when they are to be replaced: the answer, the weight, and whether
// the map then holds the new values, or else the old ones.
fn outcome(values: &[[i16; 8]; 8]) -> Result<(Result<(), MapFault>, u32, bool), Fail> {
    let mut map = Cells::new();
    if !holds(&map, &[[0; 8]; 8]) || map.weight() != 0 {
        return Err(Fail::new("a new map has a coat"));
    }
    let even = [[-3; 8]; 8];
    map.replace(&even)?;
    let answer = map.replace(values);
    let held = holds(&map, if answer.is_ok() { values } else { &even });
    Ok((answer, map.weight(), held))
}

fn one_cell(r: usize, s: usize, value: i16) -> [[i16; 8]; 8] {
    let mut values = [[0; 8]; 8];
    if r < 8 && s < 8 {
        values[r][s] = value;
    }
    values
}

// A cell on the low edges has fewer terms than one inside.
#[test]
fn single_cells(rt: HostRuntime) -> Result<(), Fail> {
    for (r, s, weight) in [(0, 0, 11), (0, 5, 22), (5, 0, 22), (3, 4, 44), (7, 7, 44)] {
        assert_eq!(rt; outcome(&one_cell(r, s, -11))?, (Ok(()), weight, true));
    }
    Ok(())
}

// Rows and columns are told apart.
#[test]
fn a_slope(rt: HostRuntime) -> Result<(), Fail> {
    let mut values = [[0; 8]; 8];
    for (r, row) in values.iter_mut().enumerate() {
        for (s, value) in row.iter_mut().enumerate() {
            *value = (10 * r + s) as i16 - 40;
        }
    }
    // -10 at the end of each row, -1 at the end of each column, and 37 in the last corner.
    assert_eq!(rt; outcome(&values)?, (Ok(()), 7 * 10 + 7 + 37, true));
    Ok(())
}

// The weight at its edge. Refused values leave the map as it is.
#[test]
fn heaviest_cells(rt: HostRuntime) -> Result<(), Fail> {
    let mut more = one_cell(6, 1, 4096);
    more[0][0] = 1;
    // The sign turns from cell to cell, so that every difference is as large as can be.
    let (high, low) = (32767, -32768);
    let even = [high, low, high, low, high, low, high, low];
    let odd = [low, high, low, high, low, high, low, high];
    let turned = [even, odd, even, odd, even, odd, even, odd];
    for (values, expected) in [
        ([[-16384; 8]; 8], (Ok(()), 16384, true)),
        ([[16385; 8]; 8], (Err(MapFault::Weight), 3, true)),
        ([[-16385; 8]; 8], (Err(MapFault::Weight), 3, true)),
        ([[-32768; 8]; 8], (Err(MapFault::Weight), 3, true)),
        (one_cell(6, 1, 4096), (Ok(()), 16384, true)),
        (more, (Err(MapFault::Weight), 3, true)),
        (turned, (Err(MapFault::Weight), 3, true)),
    ] {
        assert_eq!(rt; outcome(&values)?, expected);
    }
    Ok(())
}

fn check_map<M: CoatMap>(rt: &impl Abort, map: &M, weight: u32, coat: i32) {
    assert_eq!(rt; map.weight(), weight);
    assert_eq!(rt; map.coat((16384, 40960)), coat);
    assert_eq!(rt; map.coat((24575, 49151)), coat);
    assert_eq!(rt; map.coat((40960, 16384)), 0);
}

// A box and a cell that mean the same, each behind the enum.
#[test]
fn any_kind(rt: HostRuntime) -> Result<(), Fail> {
    let mut boxes = Boxes::new();
    let row = BoxRow {
        x0: 16384,
        x1: 24576,
        y0: 40960,
        y1: 49152,
        w: 100,
    };
    boxes.replace(&[row])?;
    let mut cells = Cells::new();
    cells.replace(&one_cell(5, 2, 100))?;
    let steps = Steps::new();
    check_map(&rt, &Map::Boxes(boxes), 400, 100);
    check_map(&rt, &Map::Cells(cells), 400, 100);
    check_map(&rt, &Map::Steps(steps), 0, 0);
    Ok(())
}
