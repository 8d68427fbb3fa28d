//! The program's commands, and what it prints of them.

ghost use Rattle.std.specs.Prelude.{◌≤◌};

use crate::formats::Format;
use archive_core::error::Error;
use hex::FromHexError;
use std::alloc::Global;
use std::{fmt, io};

/// What comes of a command.
#[derive(Debug, Drop)]
pub enum Outcome {
    /// The archive of a value, in hexadecimal.
    Written(String),
    /// The bytes are an archive.
    Accepted,
    /// A value can't be written, or bytes aren't an archive.
    Refused(Error),
    /// The words are no command.
    BadArguments,
}

impl fmt::Display for Outcome {
    fn fmt<W: fmt::Write>(&self, f: &mut fmt::Formatter<W>) -> fmt::Result {
        match self {
            Outcome::Written(text) => f.write_str(text.as_str()),
            Outcome::Accepted => f.write_str("accepted"),
            Outcome::Refused(error) => {
                let number = error.number();
                let name = error.name();
                write!(f, "refused: {number} {name}")
            }
            Outcome::BadArguments => f.write_str("bad arguments"),
        }
    }
}

impl Outcome {
    /// Prints it as one line, and returns the exit status: 0, 1 for an error or if the output fails, 2 for bad arguments.
    pub fn report<W: io::Write>(self, out: &mut W) -> u8
        ensures { result ≤ 2 }
    {
        let status = match self {
            Outcome::Written(_) | Outcome::Accepted => 0,
            Outcome::Refused(_) => 1,
            Outcome::BadArguments => 2,
        };
        if writeln!(out, "{self}").is_err() || out.flush().is_err() {
            return 1;
        }
        status
    }
}

/// Carries out a command and prints one line of what came of it. Returns the exit status: 0, 1 for an error or if the output fails, 2 for
/// bad arguments. Memory comes from `alloc`; where it is refused, that is refusal 1.
pub fn run<W: io::Write>(alloc: Global, args: &[String], out: &mut W) -> u8
    ensures { result ≤ 2 }
{
    outcome_of(alloc, args).report(out)
}

// All words are judged before a value is written or bytes are checked.
fn outcome_of(alloc: Global, args: &[String]) -> Outcome {
    let [command, format, word] = args else {
        return Outcome::BadArguments;
    };
    let Some(format) = Format::named(format.as_str()) else {
        return Outcome::BadArguments;
    };
    match command.as_str() {
        "write" => write(alloc, format, word),
        "check" => check(alloc, format, word.as_str()),
        _ => Outcome::BadArguments,
    }
}

// The archive of the value that a word stands for.
fn write(alloc: Global, format: Format, word: &String) -> Outcome {
    let value = match format.value(alloc, word) {
        Ok(Some(value)) => value,
        Ok(None) => return Outcome::BadArguments,
        Err(error) => return Outcome::Refused(error),
    };
    let bytes = match value.write(alloc) {
        Ok(bytes) => bytes,
        Err(error) => return Outcome::Refused(error),
    };
    match hex::encode(alloc, bytes.as_slice()) {
        Ok(text) => Outcome::Written(text),
        Err(_) => Outcome::Refused(Error::OutOfMemory),
    }
}

// Whether the bytes that a word gives in hexadecimal are an archive.
fn check(alloc: Global, format: Format, word: &str) -> Outcome {
    let bytes = match hex::decode(alloc, word) {
        Ok(bytes) => bytes,
        Err(FromHexError::OutOfMemory) => return Outcome::Refused(Error::OutOfMemory),
        Err(_) => return Outcome::BadArguments,
    };
    match format.check(alloc, bytes.as_slice()) {
        Ok(()) => Outcome::Accepted,
        Err(error) => Outcome::Refused(error),
    }
}
