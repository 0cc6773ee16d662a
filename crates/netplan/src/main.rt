//! netplan: prints the places of a plan.
#![tactic(auto)]

mod arguments;
mod fault;
mod output;
mod plan_words;

use arguments::{command, form_of};
use clap::ArgMatches;
use command_line::{Failure, Program, unless_gone, words};
use fault::PlanFault;
use maps::Map;
use output::{Form, check_rounds, write_in};
use pages::read_job;
use plan_words::{WordPlan, read_plan};
use std::io;
use std::io::{BufWriter, Write};
use std::process::ExitCode;

const PROGRAM: Program = Program {
    name: "netplan",
    about: "Prints the places of a plan.",
    notes: NOTES,
    failed: 1,
};

const NOTES: &str = "\
PLAN is one of
  hammersley M    Hammersley's points of level M, 0 to 12
  sobol M         Sobol's points of level M
  points FILE     the places of a file, four bytes each
  job FILE        the plan of a job file, with its layers
and after it, each if it is wanted and in this order,
  shift S T       x becomes x XOR S, and y becomes y XOR T
  scramble V W    a nested scramble by the words V of x and W of y
  swap            x and y are exchanged

Without an option each place is a line. `netplan hammersley 2 shift 1 65535 swap` prints
  65535 1
  32767 16385
  49151 32769
  16383 49153

Status: 0; 1 for a plan or a job that is refused, or where it cannot read or write; 2 for wrong arguments.";

fn main(rt: HostRuntime) -> ExitCode {
    let outcome = run(&rt);
    PROGRAM.end(&rt, outcome)
}

fn run(rt: &HostRuntime) -> Result<u8, Failure> {
    let words = words(rt)?;
    let matches = command(PROGRAM, rt.alloc())?.try_get_matches_from(words.as_slice())?;
    let form = form_of(&matches);
    let sheet = read(rt, &matches, form);
    answer(rt, sheet, form)
}

// Prints what is asked for, or tells why it cannot be had.
fn answer(rt: &HostRuntime, sheet: Result<Sheet, PlanFault>, form: Form) -> Result<u8, Failure> {
    match sheet {
        Ok(Sheet { plan, map }) => {
            unless_gone(print(rt, &plan, map.as_ref(), form))?;
            Ok(0)
        }
        Err(fault) => {
            PROGRAM.tell(rt, fault);
            Ok(fault.status())
        }
    }
}

// What is printed: a plan, and the map whose coat is wanted.
#[derive(Debug, Drop)]
struct Sheet {
    plan: WordPlan,
    map: Option<Map>,
}

fn read(rt: &HostRuntime, matches: &ArgMatches<'_>, form: Form) -> Result<Sheet, PlanFault> {
    let plan = read_plan(rt, matches.get_strs("PLAN").unwrap_or(&[]))?;
    check_rounds(form, &plan)?;
    let map = match matches.get_str("coat") {
        Some(path) => Some(read_job(rt, path)?.map),
        None => None,
    };
    Ok(Sheet { plan, map })
}

fn print(rt: &HostRuntime, plan: &WordPlan, map: Option<&Map>, form: Form) -> io::Result<()> {
    let mut output = BufWriter::new(rt.alloc(), io::writer(rt))?;
    write_in(form, plan, map, &mut output)?;
    output.flush()
}
