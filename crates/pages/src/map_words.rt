//! Words to a map.
use crate::fault::PageFault;
use crate::files::read_job;
use crate::numbers::read_number;
use boxes::{BoxRow, Boxes};
use cells::Cells;
use maps::Map;
use std::alloc::Global;
use std::rt::Files;
use steps::{Step, Steps};

/// The map that words say: `job PATH`, the map of a job file; `boxes` with five numbers for each row;
/// `steps` with two for each step of x, the word `and`, and two for each step of y; or `cells` with 64.
///
/// # Errors
/// Words that are no map's; a file that cannot be read; 1 to 9 and 13 of a job, 7, 8 and 9 of rows; want of
/// memory.
pub fn read_map<R: Files + AllocGlobal>(rt: &R, words: &[&str]) -> Result<Map, PageFault> {
    match words {
        ["job", path] => Ok(read_job(rt, path)?.map),
        ["boxes", words @ ..] => boxes_of(rt.alloc(), words),
        ["steps", words @ ..] => steps_of(rt.alloc(), words),
        ["cells", words @ ..] => cells_of(words),
        _ => Err(PageFault::Words),
    }
}

fn boxes_of(heap: Global, words: &[&str]) -> Result<Map, PageFault> {
    let mut boxes = Boxes::new();
    boxes.replace(&read_boxes(heap, words)?)?;
    Ok(Map::Boxes(boxes))
}

fn steps_of(heap: Global, words: &[&str]) -> Result<Map, PageFault> {
    let (x, y) = split_axes(words)?;
    let mut steps = Steps::new();
    steps.replace(&read_steps(heap, x)?, &read_steps(heap, y)?)?;
    Ok(Map::Steps(steps))
}

fn cells_of(words: &[&str]) -> Result<Map, PageFault> {
    let mut cells = Cells::new();
    cells.replace(&read_cells(words)?)?;
    Ok(Map::Cells(cells))
}

fn read_boxes(heap: Global, words: &[&str]) -> Result<Vec<BoxRow>, PageFault> {
    let mut rows = Vec::new(heap);
    for row in words.chunks(5) {
        rows.push(read_box(row)?)?;
    }
    Ok(rows)
}

fn read_box(words: &[&str]) -> Result<BoxRow, PageFault> {
    let [x0, x1, y0, y1, w] = words else {
        return Err(PageFault::Words);
    };
    Ok(BoxRow {
        x0: read_number(x0)?,
        x1: read_number(x1)?,
        y0: read_number(y0)?,
        y1: read_number(y1)?,
        w: read_number(w)?,
    })
}

// The words before the word `and`, and those after it.
fn split_axes<'a, 'b>(words: &'b [&'a str]) -> Result<(&'b [&'a str], &'b [&'a str]), PageFault> {
    let count = words.iter().take_while(|word| **word != "and").count();
    match words.split_at_checked(count) {
        Some((x, ["and", y @ ..])) => Ok((x, y)),
        _ => Err(PageFault::Words),
    }
}

fn read_steps(heap: Global, words: &[&str]) -> Result<Vec<Step>, PageFault> {
    let mut steps = Vec::new(heap);
    for step in words.chunks(2) {
        steps.push(read_step(step)?)?;
    }
    Ok(steps)
}

fn read_step(words: &[&str]) -> Result<Step, PageFault> {
    let [value, bound] = words else {
        return Err(PageFault::Words);
    };
    Ok(Step {
        value: read_number(value)?,
        bound: read_number(bound)?,
    })
}

fn read_cells(words: &[&str]) -> Result<[[i16; 8]; 8], PageFault> {
    if words.len() != 64 {
        return Err(PageFault::Words);
    }
    let mut values = [[0; 8]; 8];
    for (row, words) in values.iter_mut().zip(words.chunks(8)) {
        read_cell_row(row, words)?;
    }
    Ok(values)
}

fn read_cell_row(row: &mut [i16; 8], words: &[&str]) -> Result<(), PageFault> {
    for (value, word) in row.iter_mut().zip(words) {
        *value = read_number(word)?;
    }
    Ok(())
}
