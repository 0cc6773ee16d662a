//! The digits of an index.
ghost use Rattle.std.specs.Prelude.{◌≡◌, ◌-◌, ◌*◌, ◌^◌, ◌<◌, IfOk};
ghost use Rattle.nets.specs.Digits.{digit, word};
ghost use Rattle.nets.specs.Plans.{ChecksIndex};

use nets::{Level, PlaceFault, check_index, digit_of};

/// An index of a plan: a number of as many binary digits as the level.
#[derive(Clone, Copy, Debug, PartialEq, Eq)]
pub struct Index {
    /// The level m of the plan.
    pub level: Level,
    /// The number, below 2^m.
    pub i: u32,
    ghost below: { i < 2 ^ level.m },
}

impl Index {
    /// The index i of a level.
    ///
    /// # Errors
    /// 11 for an index of 2^m or more.
    pub fn new(level: Level, i: u32) -> Result<Index, PlaceFault>
        ensures refusal { ChecksIndex level.m i result }
        ensures value { IfOk result (λ index. (index.level.m ≡ level.m) × (index.i ≡ i)) }
    {
        check_index(level, i)?;
        Ok(Index { level, i })
    }

    /// Its binary digit with weight 2^r.
    pub fn digit(self, r: u32) -> u32
        ensures { result ≡ digit self.i r }
    {
        digit_of(u64::from(self.i), r)
    }

    /// Its m digits as the top bits of a coordinate.
    #[tactic(auto, using(nets::proofs::Coordinates::below))]
    pub fn in_order(self) -> u16
        ensures { result ≡ self.i * 2 ^ (16 - self.level.m) }
    {
        (self.i << (16 - self.level.get())) as u16
    }

    /// Its m digits in reverse order as the top bits of a coordinate.
    #[tactic(auto, using(nets::proofs::Coordinates::reversed_word))]
    pub fn reversed(self) -> u16
        ensures { result ≡ word self.level.m (digit self.i) * 2 ^ (16 - self.level.m) }
    {
        (self.i as u16).reverse_bits()
    }
}
