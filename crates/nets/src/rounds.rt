//! Plans that make their places in rounds.
ghost use Rattle.std.specs.Prelude.{◌≡◌, Bool, IfOk, slice_index_or};
ghost use Rattle.nets.specs.Plans.{ChecksIndex};
ghost use Rattle.nets.specs.Rounds.{TellsRounds};

use crate::faults::PlaceFault;
use crate::net::{Net, Place};

/// A plan that may count the rounds in which it makes a place: as many as the index has binary digits up to the
/// highest that is 1.
pub trait Rounds: Net {
    ghost counts: { Self → Bool };

    /// Whether it counts them.
    fn counts_rounds(&self) -> bool
        ensures { result ≡ counts self.now };

    /// The place at an index and, if they are counted, the rounds in which it is made.
    ///
    /// # Errors
    /// 11 for an index of 2^m or more.
    fn place_and_rounds(&self, i: u32) -> Result<(Place, Option<u32>), PlaceFault>
        ensures refusal { ChecksIndex (Self.level self.now) i result }
        ensures place { IfOk result (λ r. r.0 ≡ slice_index_or (Self.places self.now) i (0, 0)) }
        ensures rounds { IfOk result (λ r. TellsRounds (counts self.now) i r.1) };
}
