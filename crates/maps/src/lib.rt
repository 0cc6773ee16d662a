//! A map of any kind.
#![tactic(auto)]

pub mod map;

pub use map::{Map, MapKind};
