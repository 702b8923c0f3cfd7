//! A host whose words, streams and failures a case chooses.
use std::alloc::Global;
use std::cell::RefCell;
use std::env::{Env, FillError};
use std::fmt::Display;
use std::io;
use std::io::{ErrorKind, Read};

/// A host. What a program prints and says is kept.
#[derive(Drop)]
pub struct Host<'a> {
    alloc: Global,
    /// The words of the command line, without the name of the program.
    words: &'a [&'a str],
    /// How a write to standard output fails, if it does.
    failure: Option<ErrorKind>,
    printed: RefCell<String>,
    said: RefCell<String>,
}

impl<'a> Host<'a> {
    pub fn new(alloc: Global, words: &'a [&'a str], failure: Option<ErrorKind>) -> Host<'a> {
        Host {
            alloc,
            words,
            failure,
            printed: RefCell::new(String::new(alloc)),
            said: RefCell::new(String::new(alloc)),
        }
    }

    /// What was printed to standard output, and what to standard error.
    pub fn into_texts(self) -> (String, String) {
        (self.printed.into_inner(), self.said.into_inner())
    }
}

impl Alloc for Host<'_> {
    type A = Global;

    fn alloc(&self) -> Global {
        self.alloc
    }
}

impl Host<'_> {
    // Keeps what is written to standard output, unless that fails.
    fn printed<D: Display + Drop>(&self, value: D) -> io::Result<()> {
        match self.failure {
            Some(kind) => Err(io::Error::from(kind)),
            None => kept(&self.printed, value),
        }
    }
}

// Keeps what is written to a stream.
fn kept<D: Display + Drop>(stream: &RefCell<String>, value: D) -> io::Result<()> {
    write!(stream.try_borrow_mut()?, "{value}")?;
    Ok(())
}

impl Print for Host<'_> {
    fn print<D: Display + Drop>(&self, value: D) -> io::Result<()> {
        self.printed(value)
    }

    fn println<D: Display + Drop>(&self, value: D) -> io::Result<()> {
        self.printed(format_args!("{value}\n"))
    }

    fn write_all(&self, bytes: &[u8]) -> io::Result<()> {
        self.printed(String::from_utf8_lossy(self.alloc, bytes)?)
    }
}

impl Eprint for Host<'_> {
    fn eprint<D: Display + Drop>(&self, value: D) -> io::Result<()> {
        kept(&self.said, value)
    }

    fn eprintln<D: Display + Drop>(&self, value: D) -> io::Result<()> {
        kept(&self.said, format_args!("{value}\n"))
    }
}

impl Env for Host<'_> {
    fn arg(&self, i: usize, buf: &mut [u8]) -> Result<usize, FillError> {
        let word = match i.checked_sub(1) {
            None => "program",
            Some(place) => *self.words.get(place).ok_or(FillError::NotPresent)?,
        };
        let bytes = word.as_bytes();
        if bytes.len() > buf.len() {
            return Err(FillError::TooLong);
        }
        buf[..bytes.len()].copy_from_slice(bytes);
        Ok(bytes.len())
    }

    fn var(&self, _name: &str, _buf: &mut [u8]) -> Result<usize, FillError> {
        Err(FillError::NotPresent)
    }

    fn var_at(&self, _i: usize, _buf: &mut [u8]) -> Result<usize, FillError> {
        Err(FillError::NotPresent)
    }
}

// How many bytes a standard input gives at a time before it fails.
const PIECE: usize = 7;

/// A standard input that gives a text, and fails at one of its reads if it is to.
#[derive(Drop)]
pub struct Given<'a> {
    pub text: &'a [u8],
    /// How a read fails, and how many come before it.
    pub failure: Option<(ErrorKind, u64)>,
}

impl Read for Given<'_> {
    fn read(&mut self, buf: &mut [u8]) -> io::Result<usize> {
        let Some((kind, before)) = self.failure else {
            return self.text.read(buf);
        };
        let Some(before) = before.checked_sub(1) else {
            self.failure = None;
            return Err(io::Error::from(kind));
        };
        self.failure = Some((kind, before));
        let count = buf.len().min(PIECE);
        self.text.read(&mut buf[..count])
    }
}
