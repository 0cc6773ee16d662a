//! The report of a job: what is measured of the whole panel, or how the job is refused, as a text.
#![tactic(auto)]

pub mod examination;
pub mod measured;
pub mod outcome;
pub mod panels;
pub mod text_fault;
mod writing;

pub use examination::{ROOM, examine, write_report};
pub use measured::Measured;
pub use outcome::Outcome;
pub use panels::measure;
pub use text_fault::TextFault;
