//! The rows of a box map column by column, so that a coat is found quickly.
ghost use Rattle.std.specs.Prelude.{◌≡◌, ◌<◌, ◌≤◌, length};
ghost use Rattle.boxes.specs.Columns.{LaysRows, row_at};

use crate::boxes::MOST_BOXES;
use crate::row::BoxRow;

// Row i has the number i of each column.
#[derive(Clone, Copy, Debug)]
pub(crate) struct Columns {
    x0: [u32; MOST_BOXES],
    x1: [u32; MOST_BOXES],
    y0: [u32; MOST_BOXES],
    y1: [u32; MOST_BOXES],
    w: [i16; MOST_BOXES],
}

impl Columns {
    // The columns of rows, with numbers of 0 below the last row.
    pub(crate) fn of(rows: &[BoxRow]) -> Self
        requires { length rows.now ≤ MOST_BOXES }
        ensures { LaysRows result rows.now }
    {
        let mut columns = Columns {
            x0: [0; MOST_BOXES],
            x1: [0; MOST_BOXES],
            y0: [0; MOST_BOXES],
            y1: [0; MOST_BOXES],
            w: [0; MOST_BOXES],
        };
        for (i, row) in rows.iter().enumerate() {
            columns.x0[i] = row.x0;
            columns.x1[i] = row.x1;
            columns.y0[i] = row.y0;
            columns.y1[i] = row.y1;
            columns.w[i] = row.w;
        }
        columns
    }

    // Row i.
    pub(crate) fn row(&self, i: usize) -> BoxRow
        requires { i < MOST_BOXES }
        ensures { result ≡ row_at self.now i }
    {
        BoxRow {
            x0: self.x0[i],
            x1: self.x1[i],
            y0: self.y0[i],
            y1: self.y1[i],
            w: self.w[i],
        }
    }
}
