//! Step maps: steps along x times steps along y.
#![tactic(auto)]

mod axes;
pub mod step;
pub mod steps;

pub use step::Step;
pub use steps::{MOST_STEPS, Steps};
