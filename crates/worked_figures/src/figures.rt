//! The worked figures.
ghost use Rattle.worked_figures.specs.Figures.{Figures};

/// The worked figures are those of the definitions, and the limits are these numbers. It does nothing when it is
/// run.
#[tactic(auto, using(crate::proofs::Worked::figures))]
pub fn show_figures()
    ensures { Figures }
{}
