//! The examination of 2^m places: whether they are a net of level m.
ghost use Rattle.std.specs.Prelude.{◌≡◌, ◌+◌, ◌^◌, ◌<◌, ◌≤◌, true, false, length, All, slice_index_or};
ghost use Rattle.nets.specs.Places.{IsOnPanel, interval_number};
ghost use Rattle.audit.specs.Audits.{FirstClear, FirstEmptyAt, Judges};

use crate::faults::NotNet;
use crate::sources::Source;
use nets::{Level, MOST_PLACES, Place, top_bits};

// How many flags are on the stack at once: for every level, and for the levels up to 6.
pub(crate) const MOST: usize = MOST_PLACES as usize;

const FEW: usize = 64;

// A level m, and 2^m places, wherever they come from.
#[derive(Drop)]
pub(crate) struct Examination<S: Source> {
    pub(crate) level: Level,
    pub(crate) source: S,
    ghost long: { length (S.list source) ≡ 2 ^ level.m },
}

impl<S: Source> Examination<S> {
    // Whether the places are a net, with how many intervals were examined.
    pub(crate) fn run(&self) -> Result<u32, NotNet>
        ensures { Judges self.now.level.m (S.list self.now.source) result }
    {
        for depth in 0..self.depths() {
            if let Some(interval) = self.first_empty(depth) {
                return Err(NotNet { depth, interval });
            }
        }
        Ok(self.depths() * self.level.places())
    }

    // How many depths there are.
    fn depths(&self) -> u32
        ensures value { result ≡ self.now.level.m + 1 }
        ensures bound { result ≤ 13 }
    {
        self.level.get() + 1
    }

    // The number of the first empty interval of a depth.
    fn first_empty(&self, depth: u32) -> Option<u32>
        requires { depth ≤ self.now.level.m }
        ensures inside { All IsOnPanel (S.list self.now.source) }
        ensures cases { FirstEmptyAt self.now.level.m depth (S.list self.now.source) result }
    {
        if self.level.places() as usize <= FEW {
            self.first_unmarked::<FEW>(depth)
        } else {
            self.first_unmarked::<MOST>(depth)
        }
    }

    // The same, by a flag for each interval. The flags lie on the stack, since an audit asks for no memory.
    fn first_unmarked<const N: usize>(&self, depth: u32) -> Option<u32>
        requires depth { depth ≤ self.now.level.m }
        requires fits { 2 ^ self.now.level.m ≤ N }
        requires small { N ≤ MOST_PLACES }
        ensures inside { All IsOnPanel (S.list self.now.source) }
        ensures cases { FirstEmptyAt self.now.level.m depth (S.list self.now.source) result }
    {
        let mut flags = [false; N];
        let seen = &mut flags[..self.level.places() as usize];
        for i in 0..self.level.places() {
            seen[self.interval_of(depth, self.source.at(i))] = true;
        }
        first_clear(seen)
    }

    // The number of the interval of a depth in which a place lies.
    fn interval_of(&self, depth: u32, place: Place) -> usize
        requires { depth ≤ self.now.level.m }
        ensures value { result ≡ interval_number self.now.level.m depth place }
        ensures bound { result < 2 ^ self.now.level.m }
        ensures inside { IsOnPanel place }
    {
        let (x, y) = place;
        let rest = self.level.get() - depth;
        ((top_bits(depth, x) << rest) + top_bits(rest, y)) as usize
    }
}

// The first flag that is not set.
fn first_clear(seen: &[bool]) -> Option<u32>
    requires { length seen.now ≤ MOST_PLACES }
    ensures { FirstClear (length seen.now) (λ k. slice_index_or seen.now k false ≡ true)
        (λ k. slice_index_or seen.now k false ≡ false) result }
{
    seen.iter().position(|set| !*set).map(|i| i as u32)
}
