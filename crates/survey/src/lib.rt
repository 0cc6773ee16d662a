//! Surveys: the coat of a map, added over the places of a plan.
#![tactic(auto)]

pub mod call;
pub mod costs;
pub mod faults;
pub mod full_change;
pub mod gauge;
pub mod half_change;
pub mod laws;
pub mod log;
pub mod report;
pub mod sums;
pub mod survey;

pub use call::{Answer, Call};
pub use costs::{FIRST_LIMIT, WIDEST_RADIUS, depth_cost, places_left, radius};
pub use faults::{CommitFault, LimitFault, TakeFault};
pub use full_change::{Committed, FullChange};
pub use gauge::{After, Gauge};
pub use half_change::HalfChange;
pub use laws::{show_agreement, show_near, show_promise};
pub use log::{Run, replay, run_log};
pub use report::Report;
pub use sums::sum_coats;
pub use survey::Survey;
