//! netaudit: vets a customer's list of places.
#![tactic(auto)]

mod verdict;

use command_line::{Failure, Program, unless_gone};
use std::process::ExitCode;
use verdict::{LONGEST_LIST, vet};

const PROGRAM: Program = Program {
    name: "netaudit",
    about: "Says whether a list of places is a net.",
    notes: "A place is four bytes: x and then y, 16 bits each, the lowest byte first.\n
Status: 0 for a net; 1 for a list that is none; 2 where it cannot read or write, or for wrong arguments.",
    failed: 2,
};

fn main(rt: HostRuntime) -> ExitCode {
    let outcome = run(&rt);
    PROGRAM.end(&rt, outcome)
}

fn run(rt: &HostRuntime) -> Result<u8, Failure> {
    let bytes = PROGRAM.read_input(rt, LONGEST_LIST)?;
    let verdict = vet(&bytes);
    unless_gone(println!(rt; "{verdict}"))?;
    Ok(verdict.status())
}
