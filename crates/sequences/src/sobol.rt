//! The first two coordinates of the sequence of Sobol (1967), in natural order.
ghost use Rattle.std.specs.Prelude.{◌≡◌, ◌-◌, ◌*◌, ◌^◌, ◌<◌, true, IfOk, slice_index_or};
ghost use Rattle.nets.specs.Digits.{IsBitLength};
ghost use Rattle.nets.specs.Plans.{ChecksIndex};
ghost use Rattle.sequences.specs.Columns.{column};
ghost use Rattle.sequences.specs.Sequences.{sobol, sobol_net};

use crate::index::Index;
use crate::sequence::{PointFormula, Sequence};
use nets::{Level, Net, Place, PlaceFault, Rounds};

/// The formula of Sobol's points, as a type: x has the m binary digits of i in reverse order, and bit k of y
/// from the top is the sum of C(r, k)·a_r modulo 2, where a_r is the digit of i with weight 2^r.
#[derive(Clone, Copy, Debug, PartialEq, Eq)]
pub struct SobolPoints;

/// The plan of Sobol's points.
pub type Sobol = Sequence<SobolPoints>;

// What the digit with weight 2^r adds to x and to y, r from 0: first where it is 0, and then where it is 1. Bit k of
// the last number from the top is C(r, k) modulo 2.
static DIGITS: [[Place; 2]; 12] = [
    [(0, 0), (0x8000, 0x8000)],
    [(0, 0), (0x4000, 0xC000)],
    [(0, 0), (0x2000, 0xA000)],
    [(0, 0), (0x1000, 0xF000)],
    [(0, 0), (0x0800, 0x8800)],
    [(0, 0), (0x0400, 0xCC00)],
    [(0, 0), (0x0200, 0xAA00)],
    [(0, 0), (0x0100, 0xFF00)],
    [(0, 0), (0x0080, 0x8080)],
    [(0, 0), (0x0040, 0xC0C0)],
    [(0, 0), (0x0020, 0xA0A0)],
    [(0, 0), (0x0010, 0xF0F0)],
];

// What a digit of the index adds to its point.
#[tactic(auto, using(crate::proofs::Tables::entries))]
fn added_by(r: u32, digit: u32) -> Place
    requires { (r < 12) × (digit < 2) }
    ensures x { result.0 ≡ digit * 2 ^ (15 - r) }
    ensures y { result.1 ≡ digit * column r }
{
    // Read one by one: a pair that is read whole is taken apart again, which is slower.
    let (bit, column) = DIGITS[r as usize][digit as usize];
    (bit, column)
}

// The point at an index, and how many rounds the loop ran, which ends when no set digit is left.
#[tactic(auto, using(crate::proofs::Rounds::rounds))]
fn point_in_rounds(index: Index) -> (Place, u32)
    ensures x { result.0.0 ≡ (sobol index.level.m index.i).0 }
    ensures y { result.0.1 ≡ (sobol index.level.m index.i).1 }
    ensures rounds { IsBitLength index.i result.1 }
{
    let mut x: u16 = 0;
    let mut y: u16 = 0;
    let mut rounds = 0;
    let mut rest = index.i;
    while rest != 0 {
        let (bit, column) = added_by(rounds, rest % 2);
        x ^= bit;
        y ^= column;
        rounds += 1;
        rest /= 2;
    }
    ((x, y), rounds)
}

impl PointFormula for SobolPoints {
    ghost point = { sobol };

    fn show_net(_level: Level) {}

    fn point(index: Index) -> Place {
        point_in_rounds(index).0
    }
}

impl Sobol {
    /// The place at an index, and the rounds of the loop that made it: one for each binary digit of the index up
    /// to the highest that is 1, and none for index 0.
    ///
    /// # Errors
    /// 11 for an index of 2^m or more.
    #[tactic(auto, using(crate::proofs::AreNets::sobol_at))]
    pub fn place_in_rounds(&self, i: u32) -> Result<(Place, u32), PlaceFault>
        ensures refusal { ChecksIndex self.now.level.m i result }
        ensures place { IfOk result (λ r. r.0 ≡ slice_index_or (sobol_net self.now.level.m) i (0, 0)) }
        ensures rounds { IfOk result (λ r. IsBitLength i r.1) }
    {
        let index = Index::new(self.level(), i)?;
        Ok(point_in_rounds(index))
    }
}

impl Rounds for Sobol {
    ghost counts = { λ _. true };

    fn counts_rounds(&self) -> bool {
        true
    }

    fn place_and_rounds(&self, i: u32) -> Result<(Place, Option<u32>), PlaceFault> {
        let (place, rounds) = self.place_in_rounds(i)?;
        Ok((place, Some(rounds)))
    }
}
