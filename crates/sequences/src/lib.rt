//! The plans of Hammersley's points, and of Sobol's sequence in its first two coordinates.
#![tactic(auto)]

pub mod hammersley;
pub mod index;
pub mod sequence;
pub mod sobol;

pub use hammersley::{Hammersley, HammersleyPoints};
pub use index::Index;
pub use nets::LevelFault;
pub use sequence::{PointFormula, Sequence};
pub use sobol::{Sobol, SobolPoints};
