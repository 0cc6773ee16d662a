//! Box maps: weights on boxes, added.
#![tactic(auto)]

pub mod boxes;
mod columns;
pub mod row;

pub use boxes::{Boxes, MOST_BOXES};
pub use row::{BoxRow, show_box};
