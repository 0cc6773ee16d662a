//! Nested scramble (Owen 1995), six levels deep.
ghost use Rattle.std.specs.Prelude.{◌≡◌, ◌+◌, ◌*◌, ◌^◌, ◌<◌};
ghost use Rattle.nets.specs.Places.{top};
ghost use Rattle.nets.specs.Digits.{word};
ghost use Rattle.layers.specs.Layers.{flip, scramble_of, scramble_place};

use crate::layer::Layer;
use crate::layered::Layered;
use nets::{Place, digit_of, top_bits};

/// The layer that scrambles each coordinate by its own word: bit k from the top, for k from 0 to 5, is flipped if
/// the word's bit with weight 2^(2^k + the number that the top k bits make) is 1. The ten lower bits are kept.
#[derive(Clone, Copy, Debug, PartialEq, Eq)]
pub struct ScrambleLayer {
    x_word: u64,
    y_word: u64,
}

/// A plan with a scramble on it.
pub type Scramble<P> = Layered<P, ScrambleLayer>;

impl<P> Layered<P, ScrambleLayer> {
    /// The plan with a scramble by these words on it.
    pub fn new(plan: P, x_word: u64, y_word: u64) -> Self
        ensures { (result.plan ≡ plan)
            × (result.layer.x_word ≡ x_word) × (result.layer.y_word ≡ y_word) }
    {
        Layered::on(plan, ScrambleLayer { x_word, y_word })
    }
}

impl Layer for ScrambleLayer {
    ghost moved = { λ l. scramble_place l.x_word l.y_word };

    fn show_keeps(&self) {}

    fn moved(&self, place: Place) -> Place {
        let (x, y) = place;
        (scrambled_by(self.x_word, x), scrambled_by(self.y_word, y))
    }
}

// A coordinate with each of its top six bits flipped whose node's digit in the word is 1.
fn scrambled_by(bits: u64, x: u16) -> u16
    ensures { result ≡ scramble_of bits x }
{
    x ^ mask(bits, x)
}

// The flips of x as the top six bits of a coordinate.
fn mask(bits: u64, x: u16) -> u16
    ensures { result ≡ word 6 (flip bits x) * 2 ^ 10 }
{
    flips(bits, x) << 10
}

// The digits of the word at the nodes above the top six bits of x.
fn flips(bits: u64, x: u16) -> u16
    ensures value { result ≡ word 6 (flip bits x) }
    ensures bound { result < 2 ^ 6 }
{
    (0..6).fold(
        0,
        |flips, k| (flips << 1) + digit_of(bits, node_above(x, k)) as u16,
    )
}

// The number of the node above bit k of x.
fn node_above(x: u16, k: u32) -> u32
    requires { k < 6 }
    ensures { result ≡ 2 ^ k + top k x }
{
    (1 << k) + top_bits(k, x)
}
