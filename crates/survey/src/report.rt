//! What a survey reports.

/// What a survey has come to.
#[derive(Clone, Copy, Debug, PartialEq, Eq)]
pub struct Report {
    /// The plan's level m, from 0 to 12.
    pub level: u32,
    /// How many places are taken, at most 2^m.
    pub count: u32,
    /// The sum of the coat over the places taken, in the unit of the coat. Either way it is at most
    /// [`HEAVIEST`](coats::HEAVIEST) times the count.
    pub sum: i64,
    /// How far the sum can be from the truth, 2^m times the mean coat of the panel, in the unit of the coat;
    /// at most [`WIDEST_RADIUS`](crate::WIDEST_RADIUS).
    pub radius: u64,
}
