//! The map section of a job file.
ghost use Rattle.std.specs.Prelude.{◌≡◌, ◌≢◌, ◌≤◌, ◌<◌, ◌↔◌, slice_index, IfErr, IsTrue, MatchOption, MatchResult};
ghost use Rattle.refusals.specs.Checks.{FirstTells, Passes};
ghost use Rattle.cells.specs.Cells.{cell};
ghost use Rattle.cells.specs.Tables.{values_of};
ghost use Rattle.maps.specs.declared.map.MapKind.{MapKind};
ghost use Rattle.jobs.specs.Checks.{HasShape, HasFewRows, map_checks};
ghost use Rattle.jobs.specs.Inner.{AcceptsRowsOf, RefusesRowsOf, TellsRowsOf};
ghost use Rattle.jobs.specs.Layout.{SaysMap, kind_byte, map_code, row_start, row_count, boxes_in, steps_in, x_steps, y_steps, box_from, step_from, cell_row, cells_in};
ghost use Rattle.jobs.specs.Refusals.{map_section_told};

use crate::map_rows::{row_count, row_start};
use crate::map_section_fault::{MapSectionFault, RowsAt};
use arrayvec::ArrayVec;
use boxes::{BoxRow, Boxes, MOST_BOXES};
use cells::Cells;
use coats::MapFault;
use little_endian::{byte_at, i16_at, u32_at};
use maps::{Map, MapKind};
use steps::{MOST_STEPS, Step, Steps};

// The map of a section that starts at this byte of the file.
#[tactic(auto, using(crate::proofs::MapRows::not_shaped))]
pub(crate) fn read_map(start: u16, bytes: &[u8]) -> Result<Map, MapSectionFault>
    ensures says { MatchResult result (λ m. SaysMap bytes.now m × Passes (map_checks start bytes.now))
        (λ e. FirstTells (map_checks start bytes.now) (map_section_told e)) }
    ensures rows { IfErr result (TellsRowsOf start bytes.now) }
{
    let kind = map_kind(bytes).ok_or(MapSectionFault::Layout(start))?;
    let map = read_rows(kind, bytes).map_err(|fault| RowsAt { start, kind, fault })?;
    Ok(map)
}

// The kind of a section that has the shape of one.
#[tactic(auto, using(crate::proofs::MapRows::shapes))]
fn map_kind(bytes: &[u8]) -> Option<MapKind>
    ensures { MatchOption result ((k : MapKind) → HasShape k bytes.now → ⊥) (λ k. HasShape k bytes.now) }
{
    let kind = kind_of(bytes)?;
    let rows = row_count(kind, bytes)?;
    (bytes.len() == usize::from(row_start(kind, rows))).then_some(kind)
}

fn kind_of(bytes: &[u8]) -> Option<MapKind>
    ensures { MatchOption result ((k : MapKind) → kind_byte bytes.now ≢ map_code k)
        (λ k. kind_byte bytes.now ≡ map_code k) }
{
    match byte_at(bytes, 0) {
        0 => Some(MapKind::Boxes),
        1 => Some(MapKind::Steps),
        2 => Some(MapKind::Cells),
        _ => None,
    }
}

fn read_rows(kind: MapKind, bytes: &[u8]) -> Result<Map, MapFault>
    requires { HasShape kind bytes.now }
    ensures { MatchResult result (λ m. SaysMap bytes.now m × AcceptsRowsOf bytes.now)
        (RefusesRowsOf kind bytes.now) }
{
    match kind {
        MapKind::Boxes => Ok(Map::Boxes(read_boxes(bytes)?)),
        MapKind::Steps => Ok(Map::Steps(read_steps(bytes)?)),
        MapKind::Cells => Ok(Map::Cells(read_cells(bytes)?)),
    }
}

#[tactic(auto, using(crate::proofs::MapRows::boxes))]
fn read_boxes(bytes: &[u8]) -> Result<Boxes, MapFault>
    requires { HasShape MapKind.Boxes bytes.now }
    ensures { MatchResult result (λ m. (m.rows.items ≡ boxes_in bytes.now) × AcceptsRowsOf bytes.now)
        (RefusesRowsOf MapKind.Boxes bytes.now) }
{
    let mut boxes = Boxes::new();
    boxes.replace(&box_rows(bytes))?;
    Ok(boxes)
}

#[tactic(auto, using(crate::proofs::MapRows::gathers))]
fn box_rows(bytes: &[u8]) -> ArrayVec<BoxRow, MOST_BOXES>
    requires { slice_index bytes.now 1 ≤ MOST_BOXES }
    ensures { result.items ≡ boxes_in bytes.now }
{
    let mut rows = ArrayVec::new();
    for i in 0..byte_at(bytes, 1) {
        rows.push(box_at(bytes, i));
    }
    rows
}

// The box number i.
fn box_at(bytes: &[u8], i: u8) -> BoxRow
    ensures { result ≡ box_from bytes.now (row_start MapKind.Boxes i) }
{
    let at = usize::from(row_start(MapKind::Boxes, i));
    BoxRow {
        x0: u32_at(bytes, at),
        x1: u32_at(bytes, at + 4),
        y0: u32_at(bytes, at + 8),
        y1: u32_at(bytes, at + 12),
        w: i16_at(bytes, at + 16),
    }
}

#[tactic(auto, using(crate::proofs::MapRows::steps))]
fn read_steps(bytes: &[u8]) -> Result<Steps, MapFault>
    requires { HasShape MapKind.Steps bytes.now }
    ensures { MatchResult result
        (λ m. (m.x.items ≡ x_steps bytes.now) × (m.y.items ≡ y_steps bytes.now) × AcceptsRowsOf bytes.now)
        (RefusesRowsOf MapKind.Steps bytes.now) }
{
    let x = byte_at(bytes, 1);
    let y = byte_at(bytes, 2);
    let mut steps = Steps::new();
    steps.replace(&step_rows(bytes, 0, x), &step_rows(bytes, x, y))?;
    Ok(steps)
}

// So many steps, from this number on.
#[tactic(auto, using(crate::proofs::MapRows::gathers))]
fn step_rows(bytes: &[u8], first: u8, count: u8) -> ArrayVec<Step, MOST_STEPS>
    requires { (first ≤ MOST_STEPS) × (count ≤ MOST_STEPS) }
    ensures { result.items ≡ steps_in bytes.now first count }
{
    let mut rows = ArrayVec::new();
    for i in 0..count {
        rows.push(step_at(bytes, first + i));
    }
    rows
}

// The step number i.
fn step_at(bytes: &[u8], i: u8) -> Step
    ensures { result ≡ step_from bytes.now (row_start MapKind.Steps i) }
{
    let at = usize::from(row_start(MapKind::Steps, i));
    Step {
        bound: u32_at(bytes, at),
        value: i16_at(bytes, at + 4),
    }
}

#[tactic(auto, using(crate::proofs::MapRows::cells))]
fn read_cells(bytes: &[u8]) -> Result<Cells, MapFault>
    requires { HasShape MapKind.Cells bytes.now }
    ensures { MatchResult result
        (λ m. (values_of m.table ≡ cell (cells_in bytes.now)) × AcceptsRowsOf bytes.now)
        (RefusesRowsOf MapKind.Cells bytes.now) }
{
    let mut cells = Cells::new();
    cells.replace(&cell_rows(bytes))?;
    Ok(cells)
}

#[tactic(auto, using(crate::proofs::MapRows::writes))]
fn cell_rows(bytes: &[u8]) -> [[i16; 8]; 8]
    ensures { result ≡ cells_in bytes.now }
{
    let mut rows = [[0; 8]; 8];
    for r in 0..8u8 {
        rows[usize::from(r)] = cell_values(bytes, r);
    }
    rows
}

// The values of row r.
#[tactic(auto, using(crate::proofs::MapRows::writes))]
fn cell_values(bytes: &[u8], r: u8) -> [i16; 8]
    requires { r < 8 }
    ensures { result ≡ cell_row bytes.now r }
{
    let start = usize::from(row_start(MapKind::Cells, r));
    let mut row = [0; 8];
    for s in 0..8 {
        row[s] = i16_at(bytes, start + 2 * s);
    }
    row
}
