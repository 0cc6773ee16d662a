//! The checks of rows, in the order in which their faults are told. How many rows there are is checked
//! before, by the vector of a fixed capacity that they are put into.
ghost use Rattle.std.specs.Prelude.{◌≡◌, ◌<◌, ◌≤◌, ◌↔◌, [], ◌∷◌, All, IsTrue, MatchOption, MatchResult};
ghost use Rattle.refusals.specs.Told.{refused};
ghost use Rattle.coats.specs.Refusals.{IsFirstOut, map_told};

use crate::faults::MapFault;

/// What a map weighs at most.
pub const HEAVIEST: u32 = 16384;

/// The side of the panel: one past the largest coordinate.
pub const PANEL_SIDE: u32 = 65536;

/// Whether a number can bound a coordinate from above: it is at most [`PANEL_SIDE`].
pub fn is_bound(n: u32) -> bool
    ensures { IsTrue result ↔ (n ≤ PANEL_SIDE) }
{
    n <= PANEL_SIDE
}

/// A row that has bounds.
pub trait Bounded {
    ghost bounds: { Self → Type 0 };

    /// Whether the row is within them.
    fn in_bounds(&self) -> bool
        ensures { IsTrue result ↔ bounds self.now };
}

/// The number, from 0, of the first row out of its bounds.
#[tactic(auto, using(crate::proofs::Firsts::firsts))]
pub fn first_out<R: Bounded>(rows: &[R]) -> Option<usize>
    ensures { MatchOption result (All R.bounds rows.now) (IsFirstOut R.bounds rows.now) }
{
    rows.iter().position(|row| !row.in_bounds())
}

/// Checks what a map weighs.
///
/// # Errors
/// 9 for a weight over [`HEAVIEST`].
pub fn check_weight(weight: u64) -> Result<u32, MapFault>
    ensures { MatchResult result (λ w. (w ≡ weight) × (weight ≤ HEAVIEST))
        (λ e. (HEAVIEST < weight) × (map_told e ≡ refused 9 (0 ∷ []))) }
{
    if weight <= u64::from(HEAVIEST) {
        Ok(weight as u32)
    } else {
        Err(MapFault::Weight)
    }
}
