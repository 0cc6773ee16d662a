//! netreport: measures the whole panel of a job, and prints the report.
#![tactic(auto)]

use command_line::{Failure, Program, unless_gone};
use jobs::LONGEST_JOB;
use reports::{ROOM, write_report};
use std::alloc::AllocError;
use std::process::ExitCode;

const PROGRAM: Program = Program {
    name: "netreport",
    about: "Measures the whole panel of a job file, and prints the report.",
    notes: "A job that is refused is told in one line, with its number, section and byte.\n
Status: 0, for a refused job too; 1 where it cannot read or write; 2 for wrong arguments.",
    failed: 1,
};

fn main(rt: HostRuntime) -> ExitCode {
    let outcome = run(&rt);
    PROGRAM.end(&rt, outcome)
}

fn run(rt: &HostRuntime) -> Result<u8, Failure> {
    let job = PROGRAM.read_input(rt, LONGEST_JOB)?;
    let mut place = [0; ROOM];
    // The place has room for the text, so that nothing but memory can be wanting.
    let count = write_report(rt.alloc(), &job, &mut place).map_err(|_| AllocError)?;
    unless_gone(rt.stdout().write_all(&place[..count]))?;
    Ok(0)
}
