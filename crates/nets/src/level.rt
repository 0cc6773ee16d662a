//! The level of a plan.
ghost use Rattle.std.specs.Prelude.{◌≡◌, ◌^◌, ◌≤◌};
ghost use Rattle.nets.specs.Refusals.{MakesLevel};

use crate::faults::LevelFault;

/// How many places a plan has at most, at level 12.
pub const MOST_PLACES: u32 = 4096;

/// The level m of a plan, from 0 to 12.
#[derive(Clone, Copy, Debug, PartialEq, Eq)]
pub struct Level {
    m: u32,
    ghost low: { m ≤ 12 },
}

impl TryFrom<u32> for Level {
    type Error = LevelFault;

    ghost try_from_gives = { MakesLevel (λ l. l.m) };

    /// The level of a number.
    ///
    /// # Errors
    /// 4 for a number over 12.
    fn try_from(m: u32) -> Result<Level, LevelFault> {
        if m > 12 {
            Err(LevelFault::TooHigh(m))
        } else {
            Ok(Level { m })
        }
    }
}

impl Level {
    /// The number m.
    pub fn get(self) -> u32
        ensures value { result ≡ self.m }
        ensures bound { result ≤ 12 }
    {
        self.m
    }

    /// How many places a plan of this level has: 2^m, at most [`MOST_PLACES`].
    #[tactic(auto, using(std::proofs::Common::pow_mono))]
    pub fn places(self) -> u32
        ensures value { result ≡ 2 ^ self.m }
        ensures bound { result ≤ MOST_PLACES }
    {
        1 << self.m
    }
}
