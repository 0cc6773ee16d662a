//! What a host leans on: surveys that it is lent, and a gauge that it keeps along its life.
#![tactic(auto)]

pub mod keeper;
pub mod readings;

pub use keeper::Keeper;
pub use readings::{Reader, compare};
