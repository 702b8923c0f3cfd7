//! Schedules as text: the lines of scripts, each with what it leads to.
//!
//! A text holds many schedules, with an empty line between two. The first line of a schedule is
//! `# NAME: WHAT IT IS ABOUT`, and each other line is a line of a script (docs/SCRIPTS.md). After `=>` stands what it
//! adds to the record, with a comma between two entries; a line that adds nothing needs no `=>`. The last line begins
//! with `=>`, since no line of the script leads to it: it has the queue, with which the record ends.

use std::alloc::{AllocError, Global};
use std::fmt;
use std::test::Fail;

/// A schedule of a text, with its lines.
#[derive(Clone, Copy)]
pub struct Schedule<'a> {
    name: &'a str,
    pub text: &'a str,
}

/// A line of a script, and what it leads to.
#[derive(Clone, Copy)]
pub struct Row<'a> {
    pub order: &'a str,
    pub added: &'a str,
}

impl<'a> Row<'a> {
    /// What a line of a schedule says.
    pub fn read(text: &'a str) -> Self {
        let (order, added) = text.split_once("=>").unwrap_or((text, ""));
        Row {
            order: order.trim_end(),
            added: added.trim(),
        }
    }
}

// The name.
impl fmt::Display for Schedule<'_> {
    fn fmt<W: fmt::Write>(&self, f: &mut fmt::Formatter<W>) -> fmt::Result {
        f.write_str(self.name)
    }
}

/// The schedules of a text. One without a name is refused.
pub fn schedules_in(alloc: Global, text: &str) -> Result<Vec<Schedule<'_>>, Fail> {
    let mut schedules = Vec::new(alloc);
    for part in text.split("\n\n") {
        schedules.push(read(part)?)?;
    }
    Ok(schedules)
}

fn read(part: &str) -> Result<Schedule<'_>, Fail> {
    let (head, text) = part.split_once('\n').unwrap_or((part, ""));
    let named = head.strip_prefix("# ").unwrap_or("");
    match named.split_once(": ") {
        Some((name, _)) => Ok(Schedule { name, text }),
        None => Err(Fail::new(format_args!("no schedule begins so: {head}"))),
    }
}

// The text in this place, or none.
fn text_at(texts: &[String], place: usize) -> &str {
    match texts.get(place) {
        Some(text) => text.as_str(),
        None => "",
    }
}

impl Schedule<'_> {
    /// The script alone.
    pub fn script(&self, alloc: Global) -> Result<String, AllocError> {
        let mut script = String::new(alloc);
        for line in self.text.lines() {
            let order = Row::read(line).order;
            if !order.is_empty() {
                script.push_str(order)?;
                script.push('\n')?;
            }
        }
        Ok(script)
    }

    /// Fails if a line led to something else than stands beside it, and says of the first what was wanted and what
    /// came.
    pub fn check(&self, came: &[String]) -> Result<(), Fail> {
        let mut lines = self.text.lines();
        for place in 0..came.len().max(self.text.lines().count()) {
            // What is wanted is nothing if the schedule has no line there.
            let row = Row::read(lines.next().unwrap_or(""));
            let came = text_at(came, place);
            if row.added != came {
                return Err(self.difference(place, row, came));
            }
        }
        Ok(())
    }

    /// What was wanted of the line in this place, and what came.
    pub fn difference(&self, place: usize, row: Row<'_>, came: &str) -> Fail {
        let (number, Row { order, added }) = (place.saturating_add(1), row);
        Fail::new(format_args!(
            "in {self}, line {number} {order:?}: wanted {added:?}, and came {came:?}"
        ))
    }
}
