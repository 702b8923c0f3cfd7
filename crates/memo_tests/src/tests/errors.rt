//! A standard error that keeps what it was told.

use std::alloc::Global;
use std::cell::Cell;
use std::fmt::Display;
use std::io::{self, Eprint};

/// A standard error that keeps what it was told.
#[derive(Drop)]
pub struct Errors {
    alloc: Global,
    told: Cell<Option<String>>,
}

impl Errors {
    pub fn new(alloc: Global) -> Self {
        Errors {
            alloc,
            told: Cell::new(None),
        }
    }

    /// All that was told, or None if nothing was.
    pub fn told(self) -> Option<String> {
        self.told.take()
    }
}

impl Eprint for Errors {
    fn eprint<D: Display + Drop>(&self, value: D) -> io::Result<()> {
        let mut text = match self.told.take() {
            Some(before) => before,
            None => String::new(self.alloc),
        };
        write!(text, "{value}")?;
        self.told.set(Some(text));
        Ok(())
    }

    fn eprintln<D: Display + Drop>(&self, value: D) -> io::Result<()> {
        self.eprint(value)?;
        self.eprint("\n")
    }
}
