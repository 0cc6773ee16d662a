//! What the arguments ask for.
use crate::output::Form;
use clap::{Arg, ArgAction, ArgMatches, Command};
use command_line::Program;
use std::alloc::{AllocError, Global};

// The command line.
pub(crate) fn command<'a>(program: Program, heap: Global) -> Result<Command<'a>, AllocError> {
    let plan = Arg::new(heap, "PLAN")
        .required(true)
        .num_args(1..)
        .action(ArgAction::Append)
        .help("The words of the plan");
    let csv = flag(
        heap,
        "csv",
        "Prints comma-separated values, below a line of names",
    )
    .conflicts_with("bytes")?
    .conflicts_with("svg")?;
    let bytes = flag(
        heap,
        "bytes",
        "Prints four bytes for each place, as netaudit reads them",
    )
    .conflicts_with("svg")?;
    let svg = flag(heap, "svg", "Draws the panel with its places");
    let rounds = flag(
        heap,
        "rounds",
        "Adds the rounds in which each place is made, of a plan that counts them",
    )
    .conflicts_with("bytes")?
    .conflicts_with("svg")?;
    let coat = Arg::new(heap, "coat")
        .long("coat")
        .value_name("JOB")
        .help("Adds the coat of this job's map")
        .conflicts_with("bytes")?;
    program
        .command(heap)
        .arg(plan)?
        .arg(csv)?
        .arg(bytes)?
        .arg(svg)?
        .arg(rounds)?
        .arg(coat)
}

fn flag<'a>(heap: Global, name: &'a str, help: &'a str) -> Arg<'a> {
    Arg::new(heap, name)
        .long(name)
        .action(ArgAction::SetTrue)
        .help(help)
}

// How the places are to be written.
pub(crate) fn form_of(matches: &ArgMatches<'_>) -> Form {
    let list = if matches.get_flag("csv") {
        listings::Form::Csv
    } else {
        listings::Form::Lines
    };
    if matches.get_flag("bytes") {
        Form::Bytes
    } else if matches.get_flag("svg") {
        Form::Picture
    } else if matches.get_flag("rounds") {
        Form::Rounds(list)
    } else {
        Form::List(list)
    }
}
