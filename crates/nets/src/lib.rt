//! Measuring plans: places of a panel, and nets of places in base two.
#![tactic(auto)]

pub mod bits;
pub mod faults;
pub mod level;
pub mod net;
pub mod rounds;

pub use bits::{digit_of, top_bits};
pub use faults::{LevelFault, PlaceFault};
pub use level::{Level, MOST_PLACES};
pub use net::{Net, Place, check_index};
pub use rounds::Rounds;
