//! A plan whose kind is chosen when the program runs.
#![tactic(auto)]

pub mod plan;

pub use plan::{Plan, PlanKind};
