//! The worked figures, proved of the definitions that the contracts cite.
#![tactic(auto)]

pub mod figures;

pub use figures::show_figures;
