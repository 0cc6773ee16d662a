//! A map's coat as shades over a grid of cells.
ghost use Rattle.std.specs.Prelude.{◌<◌, ◌≤◌, OnOk};
ghost use Rattle.listings.specs.Pictures.{Grows};

use crate::rectangle::{Rectangle, Span};
use crate::shades::{Fill, Scale};
use coats::CoatMap;
use nets::Place;
use std::io::Write;
use std::{array, io};

/// How many cells the grid has along each side.
pub(crate) const CELLS: usize = 128;

// How much of the panel's side a cell has.
const CELL_SIDE: usize = 512;

// The coats of a row, each at the middle of its cell.
type Cells = [i32; CELLS];

fn cells_of<M: CoatMap>(map: &M, row: usize) -> Cells
    requires { row < CELLS }
{
    array::from_fn(|column| map.coat(middle(column, row)))
}

// The place in the middle of a cell.
fn middle(column: usize, row: usize) -> Place
    requires { (column < CELLS) × (row < CELLS) }
{
    (middle_of(column), middle_of(row))
}

fn middle_of(cell: usize) -> u16
    requires { cell < CELLS }
{
    (CELL_SIDE * cell + CELL_SIDE / 2) as u16
}

/// The scale of the coats at the middles of all cells.
pub(crate) fn scale_of<M: CoatMap>(map: &M) -> Scale {
    let mut scale = Scale::default();
    for row in 0..CELLS {
        for coat in cells_of(map, row) {
            scale = scale.with(coat);
        }
    }
    scale
}

/// Writes the coat in rectangles, with the cell as the unit. Neighbours in a row that have the same coat are in one
/// rectangle, and so are rows that are the same.
pub(crate) fn write_cells<M: CoatMap, W: Write>(
    map: &M,
    scale: Scale,
    output: &mut W,
) -> io::Result<()>
    ensures { OnOk result (Grows (W.contents output.old) (W.contents output.new)) }
{
    let mut from = 0;
    let mut cells = cells_of(map, 0);
    for to in 1..CELLS {
        let next = cells_of(map, to);
        if next != cells {
            write_rows(&cells, Span { from, to }, scale, output)?;
            from = to;
            cells = next;
        }
    }
    write_rows(&cells, Span { from, to: CELLS }, scale, output)?;
    Ok(())
}

// Writes rows that are all this one.
fn write_rows<W: Write>(cells: &Cells, rows: Span, scale: Scale, output: &mut W) -> io::Result<()>
    ensures { OnOk result (Grows (W.contents output.old) (W.contents output.new)) }
{
    let mut from = 0;
    for to in 1..CELLS {
        if cells[to] != cells[from] {
            write_block(cells[from], Span { from, to }, rows, scale, output)?;
            from = to;
        }
    }
    write_block(cells[from], Span { from, to: CELLS }, rows, scale, output)?;
    Ok(())
}

// Writes cells that have this coat. There is nothing to write where there is no coat.
fn write_block<W: Write>(
    coat: i32,
    columns: Span,
    rows: Span,
    scale: Scale,
    output: &mut W,
) -> io::Result<()>
    ensures { OnOk result (Grows (W.contents output.old) (W.contents output.new)) }
{
    if coat == 0 {
        return Ok(());
    }
    let fill = Fill::Shade(scale.shade(coat));
    write_rectangle(columns, rows, fill, output)?;
    if coat < 0 {
        write_rectangle(columns, rows, Fill::Hatch, output)?;
    }
    Ok(())
}

fn write_rectangle<W: Write>(
    columns: Span,
    rows: Span,
    fill: Fill,
    output: &mut W,
) -> io::Result<()>
    ensures { OnOk result (Grows (W.contents output.old) (W.contents output.new)) }
{
    output.writeln(Rectangle {
        columns,
        rows,
        fill,
    })
}
