//! Texts of a fixed capacity, which need no memory.
#![tactic(auto)]

pub mod text;

pub use text::{Text, push_number};
