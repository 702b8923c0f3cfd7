//! What was seen of a cell from outside: the text of it, and whether a run has it.
//!
//! `calls` makes calls of the events, each with what it did and between which events. `search` looks for an order of
//! all that, in which each entry may come next.

mod calls;
mod copies;
mod search;
mod text;

use crate::text::write_filled;
use crate::verdict::ReasonText;
pub use calls::BadEvents;
pub use search::{Answer, Stop, linearize};
use std::fmt;
pub use text::{Event, Observed, parse_observed};

/// The line of a search that found no run, without its end.
#[derive(Clone, Copy)]
pub struct StopLine<'a>(pub &'a Stop, pub &'a [Event]);

impl fmt::Display for StopLine<'_> {
    fn fmt<W: fmt::Write>(&self, f: &mut fmt::Formatter<W>) -> fmt::Result {
        let Stop { event, reason } = *self.0;
        let number = (event as u64).saturating_add(1);
        write_filled(f, "no run has what was seen: event {}", &[number])?;
        if let Some(event) = self.1.get(event) {
            write!(f, ", {event}")?;
        }
        if let Some(reason) = reason {
            write!(f, ": {}", ReasonText(reason))?;
        }
        Ok(())
    }
}
