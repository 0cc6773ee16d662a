//! gauge: answers a survey's commands, line by line as they come.
#![tactic(auto)]

mod commands;
mod lines;
mod reply;
mod sessions;
mod unreadable;

use command_line::{Failure, Program, unless_gone};
use lines::{Lines, Next};
use reply::Reply;
use sessions::Session;
use std::io;
use std::io::{BufRead, BufReader, BufWriter, Write};
use std::process::ExitCode;
use std::rt::Files;
use unreadable::Unreadable;

const PROGRAM: Program = Program {
    name: "gauge",
    about: "Answers a survey's commands, line by line as they come.",
    notes: NOTES,
    failed: 1,
};

const NOTES: &str = "\
A line is one of
  open PLAN       the plan of the opening, the first command
  map MAP         the map of the opening, the second; later a map page
  take K          takes K places
  report          tells the level, the places taken, the sum and its radius
  limit L         sets the limit
  begin PLAN      begins a change of recipe by a plan page
  commit          makes the change
  abandon         gives it up
  # ..            a remark

PLAN is `job FILE`; or `hammersley M`, `sobol M` or `points X Y X Y ..`, and then, each if it is
wanted, `shift S T`, `scramble V W` and `swap`. MAP is `job FILE`, `boxes` with x0 x1 y0 y1 w for each
row, `steps` with g u for each step of x, the word `and`, and h v for each step of y, or `cells` with
64 values.

Status: 0; 1 where it cannot read or write; 2 for wrong arguments.";

fn main(rt: HostRuntime) -> ExitCode {
    let outcome = run(&rt);
    PROGRAM.end(&rt, outcome)
}

fn run(rt: &HostRuntime) -> Result<u8, Failure> {
    let input = PROGRAM.open_input(rt)?;
    let lines = Lines::new(rt.alloc(), BufReader::new(rt.alloc(), input)?);
    let output = BufWriter::new(rt.alloc(), io::writer(rt))?;
    unless_gone(answer_all(rt, lines, output))?;
    Ok(0)
}

// Answers each line before it reads the next.
fn answer_all<R: Files + AllocGlobal, I: BufRead + Drop, W: Write + Drop>(
    rt: &R,
    mut lines: Lines<I>,
    mut output: W,
) -> io::Result<()> {
    let mut session = Session::New;
    for number in 1..u64::MAX {
        match lines.next()? {
            Next::End => break,
            Next::Endless => {
                let reply = Reply::Wrong(number, Unreadable::Endless);
                answer(Some(reply), &mut output)?;
                break;
            }
            Next::Line => {
                let heard = session.hear(rt, number, lines.line())?;
                session = heard.session;
                answer(heard.reply, &mut output)?;
            }
        }
    }
    output.flush()
}

// Writes an answer, if there is one, as a line of its own.
fn answer<W: Write>(reply: Option<Reply>, output: &mut W) -> io::Result<()> {
    if let Some(reply) = reply {
        writeln!(output, "{reply}")?;
        output.flush()?;
    }
    Ok(())
}
