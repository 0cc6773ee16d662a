//! examples: runs the first page's lines and the worked program.
#![tactic(auto)]

mod first_page;
mod worked_program;

use first_page::{Seen, refused_change};
use worked_program::{print_report, worked_program};

fn main(rt: HostRuntime) -> anyhow::Result<()> {
    print_change(&rt, refused_change()?)?;
    worked_program(&rt)
}

fn print_change(rt: &impl Print, seen: Seen) -> anyhow::Result<()> {
    print_report(rt, seen.before)?;
    if let Err(fault) = seen.outcome {
        println!(rt; "{fault}")?;
    }
    print_report(rt, seen.after)?;
    Ok(())
}
