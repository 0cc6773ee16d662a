//! The calls of a survey and of its changes as values, and their answers.
use crate::faults::{CommitFault, LimitFault, TakeFault};
use crate::report::Report;

/// A call of a survey, or of a change.
#[derive(Debug, Drop)]
pub enum Call<P, M> {
    /// Of a survey: adds the coat at the next so many places.
    Take(u32),
    /// Of a survey: what it has come to.
    Report,
    /// Of a survey: sets the limit.
    Limit(u64),
    /// Of a survey: begins a change, with the new plan.
    Begin(P),
    /// Of a half change: adds the new map.
    MapPage(M),
    /// Of a full change: puts the new recipe in the old one's place.
    Commit,
    /// Of a half or a full change: gives it up.
    Abandon,
}

/// What a call answered.
#[derive(Clone, Copy, Debug, PartialEq, Eq)]
pub enum Answer {
    /// How many places are taken now, or why none more is.
    Taken(Result<u32, TakeFault>),
    /// The report.
    Reported(Report),
    /// The limit is set, or why it is not.
    Limited(Result<(), LimitFault>),
    /// A change is begun.
    Begun,
    /// The change has its map.
    Paged,
    /// The survey has the new recipe, or why it keeps the old one.
    Committed(Result<(), CommitFault>),
    /// The change is given up.
    Abandoned,
}
