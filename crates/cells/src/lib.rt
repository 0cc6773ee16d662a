//! Cell maps: a value for each of 8 by 8 squares.
#![tactic(auto)]

pub mod cells;
mod table;

pub use cells::{CELL_SIDE, Cells, show_cells};
