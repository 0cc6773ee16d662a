//! What the programs of the kit share: their arguments, their input, and how they end.
#![tactic(auto)]

pub mod failure;
pub mod input;
pub mod program;

pub use failure::{Failure, FileError};
pub use input::Input;
pub use program::{Program, VERSION, unless_gone, words};
