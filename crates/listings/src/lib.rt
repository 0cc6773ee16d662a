//! A plan's places written out: as lines of text, as bytes, and as a picture.
#![tactic(auto)]

pub mod bytes;
pub mod dots;
mod figures;
mod grid;
mod layout;
pub mod lists;
mod numbers;
pub mod picture;
pub mod places;
mod rectangle;
mod scale_bar;
mod shades;

pub use bytes::write_bytes;
pub use dots::write_dots;
pub use lists::{Form, write_list, write_rounds};
pub use picture::write_picture;
pub use places::Places;
