//! Where the panel lies in a picture, a square of 448 with its corner at (62, 20).

/// The transform for the unit of the places, of which the square has 65,536.
pub(crate) const BY_PLACES: &str = "translate(62 20) scale(0.0068359375)";

/// The transform for cells, of which the square has 128.
pub(crate) const BY_CELLS: &str = "translate(62 20) scale(3.5)";
