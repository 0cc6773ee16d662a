//! What every plan promises.
ghost use Rattle.std.specs.Prelude.{◌≡◌, ℕ, List};
ghost use Rattle.nets.specs.Places.{Place, IsNet};
ghost use Rattle.nets.specs.Plans.{ChecksIndex, GivesPlace};

use crate::faults::PlaceFault;
use crate::level::Level;

/// A place of the panel: its coordinates x and y, each in units of 1 / 65,536 of a side.
pub type Place = (u16, u16);

/// A plan: a level m, and a (0,m,2)-net in base two of 2^m places in a fixed order (Niederreiter, Random
/// Number Generation and Quasi-Monte Carlo Methods).
pub trait Net {
    ghost level: { Self → ℕ };

    ghost places: { Self → List Place };

    /// The places are a net. It does nothing when it is run.
    fn show_net(&self)
        ensures { IsNet (level self.now) (places self.now) };

    /// The level m.
    fn level(&self) -> Level
        ensures { result.m ≡ level self.now };

    /// The place at an index.
    ///
    /// # Errors
    /// 11 for an index of 2^m or more.
    fn place(&self, i: u32) -> Result<Place, PlaceFault>
        ensures { GivesPlace (level self.now) (places self.now) i result };
}

/// Checks an index of a plan.
///
/// # Errors
/// 11 for an index of 2^m or more.
pub fn check_index(level: Level, i: u32) -> Result<(), PlaceFault>
    ensures { ChecksIndex level.m i result }
{
    if i < level.places() {
        Ok(())
    } else {
        Err(PlaceFault::NoPlace(i))
    }
}
