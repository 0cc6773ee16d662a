//! Job files: a recipe as bytes.
#![tactic(auto)]

pub mod directory_fault;
pub mod job_fault;
mod job_file;
mod layer_section;
pub mod layer_section_fault;
mod map_rows;
mod map_section;
pub mod map_section_fault;
mod plan_section;
pub mod plan_section_fault;
pub mod recipe;
pub mod refusal;

pub use directory_fault::DirectoryFault;
pub use job_fault::JobFault;
pub use job_file::LONGEST_JOB;
pub use layer_section_fault::LayerSectionFault;
pub use map_section_fault::{MapSectionFault, RowsAt};
pub use plan_section_fault::{PlanSectionFault, PointsAt};
pub use recipe::Recipe;
pub use refusal::Refusal;
