//! Where a program reads.
use crate::failure::{Failure, FileError};
use std::fs::File;
use std::io;
use std::io::{Read, Stdin};

/// What a program reads: the file that its arguments name, or standard input.
#[derive(Drop)]
pub enum Input {
    /// Standard input.
    Standard(Stdin),
    /// A file.
    File(File),
}

impl Input {
    /// Opens the file at a path, or standard input if there is none.
    ///
    /// # Errors
    /// A file that cannot be opened, and want of memory.
    pub fn open(rt: &HostRuntime, path: Option<&str>) -> Result<Input, Failure> {
        let Some(path) = path else {
            return Ok(Input::Standard(rt.stdin()));
        };
        match File::open(rt, path) {
            Ok(file) => Ok(Input::File(file)),
            Err(error) => {
                let path = String::from_str(rt.alloc(), path)?;
                Err(Failure::File(FileError { path, error }))
            }
        }
    }
}

impl Read for Input {
    fn read(&mut self, buf: &mut [u8]) -> io::Result<usize> {
        match self {
            Input::Standard(input) => input.read(buf),
            Input::File(file) => file.read(buf),
        }
    }
}
