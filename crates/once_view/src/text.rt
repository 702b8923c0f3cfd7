//! A text that grows, and templates with numbers.
use std::alloc::{AllocError, Global};
use std::fmt::{self, Display};
use std::io;
use std::io::Write;

/// Writes a template, with a number in the place of each `{}`.
pub fn write_filled<W: fmt::Write>(
    f: &mut fmt::Formatter<W>,
    template: &str,
    numbers: &[u64],
) -> fmt::Result {
    let mut numbers = numbers.iter();
    for part in template.split("{}") {
        f.write_str(part)?;
        if let Some(number) = numbers.next() {
            write!(f, "{number}")?;
        }
    }
    Ok(())
}

/// A value as it is shown.
pub fn shown<D: Display>(alloc: Global, value: &D) -> Result<String, AllocError> {
    let mut text = Text::new(alloc);
    text.show(value);
    text.into_string()
}

/// A text that grows. It remembers if memory was refused, so what adds to it need not ask each time.
#[derive(Drop)]
pub struct Text {
    text: String,
    is_refused: bool,
}

impl Text {
    pub fn new(alloc: Global) -> Self {
        Text {
            text: String::new(alloc),
            is_refused: false,
        }
    }

    /// Adds a text as it is.
    pub fn add(&mut self, text: &str) {
        if self.text.push_str(text).is_err() {
            self.is_refused = true;
        }
    }

    /// Adds a value as it is shown.
    pub fn show<D: Display>(&mut self, value: &D) {
        if write!(self.text, "{value}").is_err() {
            self.is_refused = true;
        }
    }

    /// Adds so many blanks.
    pub fn add_blanks(&mut self, many: usize) {
        for _ in 0..many {
            self.add(" ");
        }
    }

    /// Adds a template, with a number in the place of each `{}`.
    pub fn fill(&mut self, template: &str, numbers: &[u64]) {
        let mut numbers = numbers.iter();
        for part in template.split("{}") {
            self.add(part);
            if let Some(number) = numbers.next() {
                self.show(number);
            }
        }
    }

    /// The text, unless memory was refused.
    pub fn into_string(self) -> Result<String, AllocError> {
        if self.is_refused {
            return Err(AllocError);
        }
        Ok(self.text)
    }

    /// Writes the text, unless memory was refused.
    pub fn write<O: Write>(&self, output: &mut O) -> io::Result<()> {
        if self.is_refused {
            return Err(io::Error::from(AllocError));
        }
        output.write_all(self.text.as_bytes())
    }
}
