//! Indexes that are drawn, and the sum over the places at them.
ghost use Rattle.std.specs.Prelude.{◌≡◌, ◌^◌, ◌<◌, ◌≤◌, IfOk, IsOk};
ghost use Rattle.sobol_speed.specs.Draws.{state_from, index_of, sum_with, sum_over};

use nets::{Level, Net, Place, PlaceFault};
use sequences::Sobol;

// The state of the generator after this one.
fn next_state(state: u32) -> u32
    ensures { result ≡ state_from state }
{
    state.wrapping_mul(1664525).wrapping_add(1013904223)
}

// The index of so many bits that a state draws.
#[tactic(auto, using(crate::proofs::Indexes::below))]
fn drawn_index(bits: Level, state: u32) -> u32
    ensures value { result ≡ index_of bits.m state }
    ensures bound { result < 2 ^ bits.m }
{
    (u64::from(state) >> (32 - bits.get())) as u32
}

// The sum with one place more.
fn with_place(sum: u32, place: Place) -> u32
    ensures { result ≡ sum_with sum place }
{
    let (x, y) = place;
    sum.wrapping_mul(69069)
        .wrapping_add(u32::from(x) << 16 | u32::from(y))
}

/// The sum over the places of a plan at so many indexes, each of so many bits.
///
/// # Errors
/// 11 for an index that the plan does not have.
#[tactic(auto, using(sequences::proofs::AreNets::sobol_at, std::proofs::Common::pow_mono))]
pub fn sum_of_places(plan: &Sobol, bits: Level, count: u32) -> Result<u32, PlaceFault>
    ensures sum { IfOk result (λ sum. sum ≡ sum_over plan.now.level.m bits.m count) }
    ensures drawn { bits.m ≤ plan.now.level.m → IsOk result }
{
    let mut state = 0;
    let mut sum = 0;
    for i in 0..count {
        state = next_state(state);
        let place = plan.place(drawn_index(bits, state))?;
        sum = with_place(sum, place);
    }
    Ok(sum)
}
