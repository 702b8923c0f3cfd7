//! Which lines of a script are shown.
use crate::fault::Fault;
use crate::reading::Script;

/// The lines from one number to another, both included.
#[derive(Clone, Copy)]
pub struct LineRange {
    first: u64,
    last: u64,
}

impl LineRange {
    /// The lines from the one number, or from the first line on, to the other, or to the end.
    ///
    /// `FromAfterTo` says that the one number is greater than the other.
    pub fn new(from: Option<u64>, to: Option<u64>) -> Result<Self, Fault> {
        let (first, last) = (from.unwrap_or(0), to.unwrap_or(u64::MAX));
        if first > last {
            return Err(Fault::FromAfterTo {
                from: first,
                to: last,
            });
        }
        Ok(LineRange { first, last })
    }

    /// All lines.
    pub fn all() -> Self {
        LineRange {
            first: 0,
            last: u64::MAX,
        }
    }

    /// Whether the line with this number is shown.
    pub fn has(self, number: u64) -> bool {
        self.first <= number && number <= self.last
    }

    /// Whether the line with this number comes after those that are shown.
    pub fn is_before(self, number: u64) -> bool {
        self.last < number
    }

    /// Sees that a line that says something is shown.
    ///
    /// `BeyondTheEnd` says that the lines come after the last such line, and `NothingSaid` that none is among
    /// them.
    pub fn check(self, script: &Script<'_>) -> Result<(), Fault> {
        let first = script.first.number;
        let end = script.lines.last().map_or(first, |line| line.source.number);
        if self.first > end {
            return Err(Fault::BeyondTheEnd {
                from: self.first,
                end,
            });
        }
        if !self.has(first) && !self.has_later(script) {
            return Err(Fault::NothingSaid {
                from: self.first,
                to: self.last,
            });
        }
        Ok(())
    }

    /// Whether a line after the first that says something is shown.
    fn has_later(self, script: &Script<'_>) -> bool {
        script.lines.iter().any(|line| self.has(line.source.number))
    }
}
