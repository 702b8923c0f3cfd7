//! The text of what was seen of a cell from outside: the first line of a script, and then a line for each event.

use once_machine::record::{Entry, Kind};
use once_script::parse::entries::{entry_form, parse_entry};
use once_script::parse::number::parse_number;
use once_script::parse::record::{BadRecord, parse_first};
use once_script::print::FullLine;
use std::alloc::{AllocError, Global};
use std::fmt::{self, Display};

/// Something that was seen of a cell from outside: by code that calls the cell, by an init that it polls, or by a waker
/// that it wakes.
#[derive(Drop, PartialEq, Eq)]
pub enum Event {
    /// An entry of the record that can be seen: a task was made, a call began or ended, an init was polled, somebody
    /// looked, or the owner called. Where in its call it stands in the record is not seen, if it is an end.
    Entry(Entry),
    /// A call of this task woke this waker.
    Woke(u64, u64),
    /// The waker of the task's last poll has been woken since that poll ended, whatever woke it.
    Woken(u64),
}

/// The line of an event, without its end.
impl fmt::Display for Event {
    fn fmt<W: fmt::Write>(&self, f: &mut fmt::Formatter<W>) -> fmt::Result {
        match self {
            Event::Entry(entry) => FullLine(entry).fmt(f),
            Event::Woke(task, waker) => write!(f, "woke {task} {waker}"),
            Event::Woken(task) => write!(f, "woken {task}"),
        }
    }
}

impl fmt::Debug for Event {
    fn fmt<W: fmt::Write>(&self, f: &mut fmt::Formatter<W>) -> fmt::Result {
        Display::fmt(self, f)
    }
}

/// What was seen of a cell, and of which cell.
#[derive(Debug, Drop)]
pub struct Observed {
    /// The kind of the cell, as it was when nothing was seen of it yet.
    pub kind: Kind,
    /// How many tasks may be counted in.
    pub limit: u64,
    /// Whether each wake was seen, with the call that made it.
    pub are_wakes_seen: bool,
    /// The events, the oldest first.
    pub events: Vec<Event>,
}

/// Reads a whole text. If its second line is `wakes unseen`, no `woke` may stand in it, and any call may have woken
/// somebody. Each line ends with a line feed, which the last may lack.
///
/// ```
/// let observed = parse_observed(rt.alloc(), text)?;
/// ```
pub fn parse_observed(alloc: Global, text: &[u8]) -> Result<Observed, BadRecord> {
    let (opening, lines) = parse_first(alloc, text)?;
    let are_wakes_seen = !is_unseen(&lines);
    let mut observed = Observed {
        kind: opening.kind,
        limit: opening.limit,
        are_wakes_seen,
        events: Vec::new(alloc),
    };
    observed.read(alloc, &lines)?;
    Ok(observed)
}

// Whether the second line says that wakes are unseen.
fn is_unseen(lines: &[&[u8]]) -> bool {
    lines.get(1) == Some(&"wakes unseen".as_bytes())
}

impl Observed {
    // Reads the lines of events, which come after the first one or two.
    fn read(&mut self, alloc: Global, lines: &[&[u8]]) -> Result<(), BadRecord> {
        let first = if self.are_wakes_seen { 1u64 } else { 2 };
        let mut number = first;
        for bytes in lines.iter().skip(first as usize) {
            number = number.saturating_add(1);
            let event = read_event(alloc, number, bytes, self.are_wakes_seen)?;
            self.events.push(event)?;
        }
        Ok(())
    }
}

// Reads the line with this number, which has to be that of an event.
fn read_event(
    alloc: Global,
    number: u64,
    bytes: &[u8],
    are_wakes_seen: bool,
) -> Result<Event, BadRecord> {
    let Ok(text) = str::from_utf8(bytes) else {
        return Err(BadRecord::Line(number, event_form("")));
    };
    match parse_event(alloc, text)? {
        Some(Event::Woke(_, _)) if !are_wakes_seen => Err(BadRecord::Line(
            number,
            "no wake, since wakes are unseen",
        )),
        Some(event) => Ok(event),
        None => Err(BadRecord::Line(number, event_form(text))),
    }
}

// The event that a line tells, if it tells one.
fn parse_event(alloc: Global, text: &str) -> Result<Option<Event>, AllocError> {
    if let Some(given) = text.strip_prefix("woke ") {
        return Ok(parse_woke(given));
    }
    if let Some(task) = text.strip_prefix("woken ") {
        return Ok(parse_number(task).map(Event::Woken));
    }
    let entry = parse_entry(alloc, text)?;
    Ok(entry.filter(|entry| is_seen(entry)).map(Event::Entry))
}

fn parse_woke(given: &str) -> Option<Event> {
    let (task, waker) = given.split_once(' ')?;
    Some(Event::Woke(parse_number(task)?, parse_number(waker)?))
}

// A claim and a release are not seen from outside.
fn is_seen(entry: &Entry) -> bool {
    !matches!(
        entry,
        Entry::Claim(_) | Entry::Free(_, _) | Entry::Fill(_, _, _) | Entry::Pass(_, _)
    )
}

// The words with which the lines of the entries that are seen begin.
static ENTRY_WORDS: [&str; 8] = [
    "made",
    "begin",
    "ran",
    "end",
    "dropbegin",
    "dropend",
    "look",
    "own",
];

// The form of the lines that begin with the same word as this one, or of all lines.
fn event_form(text: &str) -> &'static str {
    match text.split_once(' ').map_or(text, |parts| parts.0) {
        "woke" => "woke TASK WAKER",
        "woken" => "woken TASK",
        word if ENTRY_WORDS.contains(&word) => entry_form(text),
        _ => "made, begin, ran, woke, woken, end, dropbegin, dropend, look or own",
    }
}
