//! A program of the kit: how it is called, and how it ends.
ghost use Rattle.std.specs.Prelude.{◌≡◌, ◌≢◌, Ok, IsOk, IfErr};
ghost use Rattle.std.specs.IoError.{error_kind};
ghost use Rattle.std.specs.Process.{exit_status};
ghost use Rattle.std.specs.declared.io.ErrorKind.TheVariants as ErrorKind;
ghost use Rattle.command_line.specs.Statuses.{EndsWith};

use crate::failure::Failure;
use crate::input::Input;
use clap::{Arg, Command};
use std::alloc::Global;
use std::fmt::Display;
use std::io::{ErrorKind, Read};
use std::process::ExitCode;
use std::{env, io};

/// What each program prints for its version, after its name: the kit's line, and the toolchain's.
pub const VERSION: &str = "(hodunke) 1.0\nrattle-kit-13f logic dac8208d650f15bf";

/// A program, as its help and its messages name it.
#[derive(Clone, Copy, Debug)]
pub struct Program {
    /// Its name.
    pub name: &'static str,
    /// What it does, in a line.
    pub about: &'static str,
    /// What its help says below the arguments.
    pub notes: &'static str,
    /// The status where it cannot read or write, or memory is wanting.
    pub failed: u8,
}

impl Program {
    /// Its command line, so far with the help and the version.
    pub fn command<'a>(self, heap: Global) -> Command<'a> {
        Command::new(heap, self.name)
            .version(VERSION)
            .about(self.about)
            .after_help(self.notes)
    }

    /// Opens what the program reads, by the words that it was called with: the file `FILE`, or standard input.
    ///
    /// # Errors
    /// Wrong arguments, or such as ask for the help or the version; an argument that is not UTF-8; a file that
    /// cannot be opened; want of memory.
    pub fn open_input(self, rt: &HostRuntime) -> Result<Input, Failure> {
        let words = words(rt)?;
        let file = Arg::new(rt.alloc(), "FILE").help("What is read in place of standard input");
        let command = self.command(rt.alloc()).arg(file)?;
        let matches = command.try_get_matches_from(words.as_slice())?;
        Input::open(rt, matches.get_str("FILE"))
    }

    /// Reads the same to its end, or to one byte more than so many, so that it ends on any input.
    ///
    /// # Errors
    /// Those of [`Program::open_input`], and a read that fails.
    pub fn read_input(self, rt: &HostRuntime, most: usize) -> Result<Vec<u8>, Failure> {
        let mut bytes = Vec::new(rt.alloc());
        let mut input = self.open_input(rt)?.take((most as u64).saturating_add(1));
        input.read_to_end(&mut bytes)?;
        Ok(bytes)
    }

    /// Tells on standard error what went wrong, after the program's name.
    pub fn tell<R: Eprint, D: Display + Drop>(self, rt: &R, fault: D) {
        let name = self.name;
        let _ = eprintln!(rt; "{name}: {fault}");
    }

    /// The status of a run: the one that it gives; 2 where its arguments are wrong; 0 for the help and the
    /// version; and the program's own where it failed. What is wrong is told on standard error.
    pub fn end<R: Print + Eprint>(self, rt: &R, outcome: Result<u8, Failure>) -> ExitCode
        ensures { EndsWith self.failed outcome result }
    {
        match outcome {
            Ok(status) => ExitCode::from(status),
            Err(Failure::Arguments(error)) if error.use_stderr() => {
                let _ = error.print(rt);
                ExitCode::from(2)
            }
            Err(Failure::Arguments(error)) => match unless_gone(error.print(rt)) {
                Ok(()) => ExitCode::from(0),
                Err(error) => self.fail(rt, error),
            },
            Err(Failure::NotText) => {
                self.tell(rt, Failure::NotText);
                ExitCode::from(2)
            }
            Err(Failure::File(error)) => self.fail(rt, error),
            Err(Failure::System(error)) => self.fail(rt, error),
        }
    }

    fn fail<R: Eprint, D: Display + Drop>(self, rt: &R, fault: D) -> ExitCode
        ensures { exit_status result ≡ self.failed }
    {
        self.tell(rt, fault);
        ExitCode::from(self.failed)
    }
}

/// The words that the program was called with, its own name first.
///
/// # Errors
/// An argument that is not UTF-8, and want of memory.
pub fn words(rt: &HostRuntime) -> Result<Vec<String>, Failure> {
    match env::args(rt) {
        Ok(words) => Ok(words.collect(rt.alloc())?),
        Err(error) if error.kind() == ErrorKind::InvalidData => Err(Failure::NotText),
        Err(error) => Err(Failure::System(error)),
    }
}

/// What was written, where a reader who has gone is no failure.
///
/// # Errors
/// Any other error.
pub fn unless_gone(outcome: io::Result<()>) -> io::Result<()>
    ensures done { IsOk outcome → result ≡ Ok tt }
    ensures gone { IfErr outcome (λ e. error_kind e ≡ ErrorKind.BrokenPipe → result ≡ Ok tt) }
    ensures failed { IfErr outcome (λ e. error_kind e ≢ ErrorKind.BrokenPipe → result ≡ outcome) }
{
    match outcome {
        Err(error) if error.kind() == ErrorKind::BrokenPipe => Ok(()),
        outcome => outcome,
    }
}
