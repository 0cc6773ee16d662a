//! Layers: each takes a plan, and is again a plan of the same level.
#![tactic(auto)]

pub mod layer;
pub mod layer_numbers;
pub mod layered;
pub mod maybe_swap;
pub mod scramble;
pub mod shift;
pub mod swap;

pub use layer::Layer;
pub use layer_numbers::{LayerNumbers, LayeredPlan};
pub use layered::Layered;
pub use maybe_swap::MaybeSwap;
pub use scramble::{Scramble, ScrambleLayer};
pub use shift::{Shift, ShiftLayer};
pub use swap::{Swap, SwapLayer};
