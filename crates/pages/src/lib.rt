//! Pages of a recipe: plans and maps from words, and from the job files that words name.
#![tactic(auto)]

pub mod fault;
pub mod files;
pub mod map_words;
pub mod numbers;
pub mod plan_page;

pub use fault::PageFault;
pub use files::{points_of, read_file, read_job, recipe_of};
pub use map_words::read_map;
pub use numbers::read_number;
pub use plan_page::{PagePlan, PlanPage, read_layers, read_plan, split_layers};
