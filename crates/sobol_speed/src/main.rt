//! sobol_speed: asks a plan of Sobol's points for many places, and prints one number made of them all.
#![tactic(auto)]

mod draws;

use anyhow::Context;
use draws::sum_of_places;
use nets::Level;
use sequences::Sobol;
use std::env;

fn main(rt: HostRuntime) -> anyhow::Result<()> {
    let words: Vec<String> = env::args(&rt)?.collect(rt.alloc())?;
    let plan = Sobol::new(number(words.as_slice(), 1)?)?;
    let bits = Level::try_from(number(words.as_slice(), 2)?)?;
    let count = number(words.as_slice(), 3)?;
    let sum = sum_of_places(&plan, bits, count)?;
    println!(rt; "{sum}")?;
    Ok(())
}

// The number that a word is.
fn number(words: &[String], at: usize) -> anyhow::Result<u32> {
    let word = words.get(at).context("LEVEL BITS COUNT")?;
    Ok(word.as_str().parse::<u32>()?)
}
