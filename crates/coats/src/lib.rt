//! Coat maps: what coat to expect at each place of a panel.
#![tactic(auto)]

pub mod checks;
pub mod coat_map;
pub mod faults;
pub mod order;
pub mod term;

pub use checks::{Bounded, HEAVIEST, PANEL_SIDE, check_weight, first_out, is_bound};
pub use coat_map::CoatMap;
pub use faults::MapFault;
pub use order::show_same;
pub use term::Term;
