//! The lines of the input, read one at a time.
ghost use Rattle.std.specs.Prelude.{◌≤◌, IfOk, vec_len};
ghost use Rattle.gauge.specs.Lines.{IsLine};

use std::alloc::Global;
use std::io::{BufRead, Read};
use std::{io, str};

/// The most bytes of a line that is carried out, without its line feed.
pub const LONGEST_LINE: usize = 65535;

/// The most bytes of any line, without its line feed. A longer one ends the run.
pub const MOST_BYTES: usize = 4194304;

// How many bytes are read at a time: the longest line with its line feed. The most bytes are 64 parts.
const PART: usize = LONGEST_LINE + 1;

/// What the input has next.
#[derive(Clone, Copy, Debug, PartialEq, Eq)]
pub enum Next {
    /// A line.
    Line,
    /// A line of more than 4,194,304 bytes, the rest of which is not read.
    Endless,
    /// No more.
    End,
}

/// An input, line by line.
#[derive(Drop)]
pub struct Lines<I> {
    input: I,
    // The line that was read last, up to the first byte past the longest.
    line: Vec<u8>,
    // A later part of a line that is too long.
    rest: Vec<u8>,
}

impl<I: BufRead> Lines<I> {
    // The lines of an input, before the first.
    pub(crate) fn new(heap: Global, input: I) -> Lines<I> {
        Lines {
            input,
            line: Vec::new(heap),
            rest: Vec::new(heap),
        }
    }

    // Reads the next line. Of one that is too long no more is kept than shows it.
    pub(crate) fn next(&mut self) -> io::Result<Next>
        ensures { IfOk result (λ _. vec_len self.new.line ≤ PART) }
    {
        if !read_part(&mut self.input, &mut self.line)? {
            return skip_rest(&mut self.input, &mut self.rest);
        }
        if self.line.is_empty() {
            return Ok(Next::End);
        }
        if self.line.ends_with(b"\n") {
            self.line.pop();
        }
        Ok(Next::Line)
    }

    // What stands in the line that was read last.
    pub(crate) fn line(&self) -> Line<'_>
        ensures { IsLine self.now.line.items result }
    {
        Line::of(&self.line)
    }
}

// Reads a part of a line, up to its line feed if that is in it, and answers whether the line ends there.
fn read_part<I: BufRead>(input: &mut I, part: &mut Vec<u8>) -> io::Result<bool>
    ensures { IfOk result (λ _. vec_len part.new ≤ PART) }
{
    part.clear();
    let mut limited = input.take(PART as u64);
    limited.read_until(b'\n', part)?;
    // No more than the limit can have come, which the contract of `read_until` leaves open.
    part.truncate(PART);
    Ok(part.len() < PART || part.ends_with(b"\n"))
}

// Passes over the rest of a line, of which one part was read.
fn skip_rest<I: BufRead>(input: &mut I, part: &mut Vec<u8>) -> io::Result<Next> {
    for _ in 1..MOST_BYTES / PART {
        if read_part(input, part)? {
            return Ok(Next::Line);
        }
    }
    end_of_line(input)
}

// Passes over the line feed, if a line ends here or the input does.
fn end_of_line<I: BufRead>(input: &mut I) -> io::Result<Next> {
    let end = match input.fill_buf()?.first() {
        None => return Ok(Next::Line),
        Some(byte) => *byte == b'\n',
    };
    if !end {
        return Ok(Next::Endless);
    }
    input.consume(1);
    Ok(Next::Line)
}

/// What stands in a line.
#[derive(Clone, Copy, Debug)]
pub enum Line<'a> {
    /// Nothing, or a remark.
    Passed,
    /// More than 65,535 bytes.
    TooLong,
    /// Bytes that are not UTF-8.
    NotText,
    /// A text.
    Text(&'a str),
}

impl Line<'_> {
    // What stands in the bytes of a line.
    pub(crate) fn of(bytes: &[u8]) -> Line<'_>
        ensures { IsLine bytes.now result }
    {
        match bytes {
            [] | [b'#', ..] => Line::Passed,
            _ if bytes.len() > LONGEST_LINE => Line::TooLong,
            _ => match str::from_utf8(bytes) {
                Ok(text) => Line::Text(text),
                Err(_) => Line::NotText,
            },
        }
    }
}
