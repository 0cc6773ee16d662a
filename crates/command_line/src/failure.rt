//! Why a program ends before its work is done.
ghost use Rattle.std.specs.Prelude.{◌≡◌, ◌≢◌};
ghost use Rattle.std.specs.IoError.{error_kind};
ghost use Rattle.std.specs.declared.io.ErrorKind.TheVariants.{OutOfMemory};
ghost use Rattle.clap.specs.Values.{kind_of};
ghost use Rattle.clap.specs.declared.error.kind.ErrorKind.TheVariants as of_arguments;
ghost use Rattle.command_line.specs.Statuses.{IsWanting};
ghost use Rattle.command_line.specs.declared.failure.Failure.TheVariants.{Arguments, System};

use std::alloc::{AllocError, AllocFailed};
use std::error::Error;
use std::io::ErrorKind;
use std::{fmt, io};

/// A file that cannot be opened.
#[derive(Debug, Drop)]
pub struct FileError {
    /// Its path, as it was given.
    pub path: String,
    /// Why it cannot be opened.
    pub error: io::Error,
}

impl fmt::Display for FileError {
    fn fmt<W: fmt::Write>(&self, f: &mut fmt::Formatter<W>) -> fmt::Result {
        let path = &self.path;
        let error = &self.error;
        write!(f, "{path}: {error}")
    }
}

impl Error for FileError {}

/// Why a program ends before its work is done.
#[derive(Debug, Drop)]
pub enum Failure {
    /// The arguments are wrong, or they ask for the help or the version.
    Arguments(clap::Error),
    /// An argument is not UTF-8.
    NotText,
    /// The file that the arguments name cannot be opened.
    File(FileError),
    /// A failed read or write, or want of memory.
    System(io::Error),
}

impl fmt::Display for Failure {
    fn fmt<W: fmt::Write>(&self, f: &mut fmt::Formatter<W>) -> fmt::Result {
        match self {
            Failure::Arguments(error) => write!(f, "{error}"),
            Failure::NotText => write!(f, "an argument is not UTF-8"),
            Failure::File(error) => write!(f, "{error}"),
            Failure::System(error) => write!(f, "{error}"),
        }
    }
}

impl Error for Failure {}

impl From<io::Error> for Failure {
    ghost from_gives = { λ e r. r ≡ System e };

    fn from(e: io::Error) -> Failure {
        Failure::System(e)
    }
}

impl From<AllocError> for Failure {
    ghost from_gives = { λ _ r. IsWanting r };

    fn from(e: AllocError) -> Failure {
        Failure::System(io::Error::from(e))
    }
}

impl From<clap::Error> for Failure {
    ghost from_gives = { λ e r. (kind_of e ≡ of_arguments.OutOfMemory → IsWanting r)
        × (kind_of e ≢ of_arguments.OutOfMemory → r ≡ Arguments e) };

    fn from(e: clap::Error) -> Failure {
        if e.kind() == clap::error::ErrorKind::OutOfMemory {
            Failure::from(AllocError)
        } else {
            Failure::Arguments(e)
        }
    }
}
