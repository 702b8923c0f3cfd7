//! Why a script is not shown.
ghost use Rattle.std.specs.Prelude.{◌≡◌};
ghost use Rattle.once_view.specs.declared.fault.Fault.TheVariants.{Io, Memory};

use crate::text::write_filled;
use std::alloc::{AllocError, AllocFailed};
use std::error::Error;
use std::fmt::Display;
use std::{fmt, io};

/// What may stand in a line.
#[derive(Clone, Copy, Debug)]
pub struct Expected {
    pub form: &'static str,
    pub has_numbers: bool,
}

impl fmt::Display for Expected {
    fn fmt<W: fmt::Write>(&self, f: &mut fmt::Formatter<W>) -> fmt::Result {
        f.write_str(self.form)?;
        if self.has_numbers {
            f.write_str("; a number is below 2^64, with no sign and no leading zero")?;
        }
        Ok(())
    }
}

/// The first line that can't be read, and what may stand there.
#[derive(Debug, Drop)]
pub struct UnreadableLine {
    pub number: u64,
    /// The line, or its first characters.
    pub text: String,
    /// How many characters the line has.
    pub length: usize,
    pub expected: Expected,
}

impl UnreadableLine {
    /// Writes how much of the line is told, if not all of it.
    fn write_cut<W: fmt::Write>(&self, f: &mut fmt::Formatter<W>) -> fmt::Result {
        let told = self.text.chars().count();
        if told >= self.length {
            return Ok(());
        }
        let counts = [told as u64, self.length as u64];
        write_filled(f, " (cut after {} of {} characters)", &counts)
    }
}

impl fmt::Display for UnreadableLine {
    fn fmt<W: fmt::Write>(&self, f: &mut fmt::Formatter<W>) -> fmt::Result {
        write!(f, "line {} can't be read: {:?}", self.number, self.text)?;
        self.write_cut(f)?;
        write!(f, "; expected: {}", self.expected)
    }
}

/// Why a script is not shown.
#[derive(Debug, Drop)]
pub enum Fault {
    /// No line says which cell it is.
    NoCell,
    /// The line with this number is the first that can't be read, since it is not UTF-8.
    NotText(u64),
    /// This line is the first that can't be read.
    Unreadable(UnreadableLine),
    /// The first line to be shown has a greater number than the last one.
    FromAfterTo { from: u64, to: u64 },
    /// The first line to be shown comes after the last line that says something.
    BeyondTheEnd { from: u64, end: u64 },
    /// None of the lines that are to be shown says anything.
    NothingSaid { from: u64, to: u64 },
    /// The reader of the output closed it before all was written.
    ClosedPipe,
    /// A read or a write failed.
    Io,
    /// Memory was refused.
    Memory,
}

impl Fault {
    /// The status that the process ends with, as that of `once_replay`. Of a closed pipe it is the one that a shell
    /// tells of a process that the signal of such a pipe ended.
    pub fn status(&self) -> u8
        ensures io { self.now ≡ Io → result ≡ 3 }
        ensures memory { self.now ≡ Memory → result ≡ 4 }
    {
        match self {
            Fault::Io => 3,
            Fault::Memory => 4,
            Fault::ClosedPipe => 141,
            _ => 2,
        }
    }
}

impl fmt::Display for Fault {
    fn fmt<W: fmt::Write>(&self, f: &mut fmt::Formatter<W>) -> fmt::Result {
        match self {
            Fault::NoCell => f.write_str(
                "no line says which cell it is; expected: `once LIMIT` or `lazy LIMIT`",
            ),
            Fault::NotText(number) => write_filled(f, "line {} is not UTF-8", &[*number]),
            Fault::Unreadable(line) => line.fmt(f),
            Fault::FromAfterTo { from, to } => {
                write_filled(f, "--from {} is after --to {}", &[*from, *to])
            }
            Fault::BeyondTheEnd { from, end } => write_filled(
                f,
                "--from {} is beyond the end: line {} is the last that says something",
                &[*from, *end],
            ),
            Fault::NothingSaid { from, to } => {
                write_filled(f, "no line from {} to {} says anything", &[*from, *to])
            }
            Fault::ClosedPipe => f.write_str("the output was closed"),
            Fault::Io => f.write_str("input or output failed"),
            Fault::Memory => f.write_str("out of memory"),
        }
    }
}

impl Error for Fault {}

impl From<AllocError> for Fault {
    ghost from_gives = { λ _ fault. fault ≡ Memory };

    fn from(_error: AllocError) -> Fault {
        Fault::Memory
    }
}

impl<T: Drop> From<AllocFailed<T>> for Fault {
    ghost from_gives = { λ _ fault. fault ≡ Memory };

    fn from(_error: AllocFailed<T>) -> Fault {
        Fault::Memory
    }
}

impl From<io::Error> for Fault {
    fn from(error: io::Error) -> Fault {
        match error.kind() {
            io::ErrorKind::OutOfMemory => Fault::Memory,
            io::ErrorKind::BrokenPipe => Fault::ClosedPipe,
            _ => Fault::Io,
        }
    }
}
