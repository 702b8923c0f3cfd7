//! A schedule: the lines of a script, and what each adds to the record.

use crate::case::{Program, run_program};
use crate::left::{Wanted, told};
use once_script::print::EntryLine;
use once_view::play::{Moment, Watcher, play};
use once_view::reading::read_script;
use std::alloc::{AllocError, AllocGlobal, Global};
use std::fs::Files;

/// The fault of a schedule, if it has one. Its lines are played one by one, and its script is replayed whole. What that
/// prints is a run in which nobody is forgotten.
pub fn fault_of<F: Files + AllocGlobal>(files: &F, lines: &str) -> Option<String> {
    let alloc = files.alloc();
    let (Some(script), Some(record)) = (script_of(alloc, lines), record_of(alloc, lines)) else {
        return told(alloc, Err(AllocError));
    };
    if let Some(fault) = played(alloc, lines, script.as_str()) {
        return Some(fault);
    }
    let entries = record.lines().count().saturating_sub(1);
    let left = run_program(files, Program::Replay, &[], script.as_bytes());
    if let Some(fault) = Wanted::printed(alloc, record).fault_of(alloc, &left) {
        return Some(fault);
    }
    let full = run_program(files, Program::Replay, &["--full"], script.as_bytes());
    let left = run_program(files, Program::Judge, &[], full.printed.as_bytes());
    match format!(in alloc; "run, {entries} entries, nobody forgotten\n") {
        Ok(run) => Wanted::printed(alloc, run).fault_of(alloc, &left),
        Err(error) => told(alloc, Err(error)),
    }
}

// The line of the script, and what it adds.
fn parts_of(line: &str) -> (&str, &str) {
    let (order, added) = line.split_once("=>").unwrap_or((line, ""));
    (order.trim_end(), added.trim())
}

// The script. None if memory is refused.
fn script_of(alloc: Global, lines: &str) -> Option<String> {
    let mut script = String::new(alloc);
    for line in lines.lines() {
        if !add_line(&mut script, parts_of(line).0) {
            return None;
        }
    }
    Some(script)
}

// All that is added, an entry a line. None if memory is refused.
fn record_of(alloc: Global, lines: &str) -> Option<String> {
    let mut record = String::new(alloc);
    for line in lines.lines() {
        for entry in parts_of(line).1.split(", ") {
            if !add_line(&mut record, entry) {
                return None;
            }
        }
    }
    Some(record)
}

// Adds a line that is not empty. The answer is whether there was memory.
fn add_line(text: &mut String, line: &str) -> bool {
    line.is_empty() || (text.push_str(line).is_ok() && text.push_str("\n").is_ok())
}

// The first fault that is seen while the lines are played.
fn played(alloc: Global, lines: &str, script: &str) -> Option<String> {
    let mut seen = Seen {
        alloc,
        lines,
        fault: None,
    };
    match read_script(alloc, script.as_bytes()) {
        Ok(script) => match play(alloc, script, &mut seen) {
            Ok(_) => seen.fault,
            Err(_) => told(alloc, Err(AllocError)),
        },
        Err(fault) => told(alloc, format!(in alloc; "{fault}")),
    }
}

// What is to be seen yet, and the first fault that was.
#[derive(Drop)]
struct Seen<'t> {
    alloc: Global,
    lines: &'t str,
    fault: Option<String>,
}

impl Watcher for Seen<'_> {
    fn see(&mut self, moment: Moment<'_>) -> Result<(), AllocError> {
        let (line, rest) = self.lines.split_once('\n').unwrap_or((self.lines, ""));
        self.lines = rest;
        if self.fault.is_none() {
            self.fault = fault_at(self.alloc, line, moment);
        }
        Ok(())
    }
}

// The fault of a line of a schedule, if it has one.
fn fault_at(alloc: Global, line: &str, moment: Moment<'_>) -> Option<String> {
    let (order, added) = parts_of(line);
    let Some(came) = added_at(alloc, moment) else {
        return told(alloc, Err(AllocError));
    };
    if came.as_str() != added {
        return told(
            alloc,
            format!(in alloc; "{order:?}: wanted {added:?}, came {came:?}"),
        );
    }
    if !is_told(moment) {
        return told(
            alloc,
            format!(in alloc; "{order:?}: it is told as passed over, or should be"),
        );
    }
    None
}

// What a line adds to the record, with a comma between two entries. None if memory is refused.
fn added_at(alloc: Global, moment: Moment<'_>) -> Option<String> {
    let mut text = String::new(alloc);
    for entry in moment.added {
        let gap = if text.is_empty() { "" } else { ", " };
        if write!(text, "{gap}{}", EntryLine(entry)).is_err() {
            return None;
        }
    }
    Some(text)
}

// Whether a line that adds something is not told as passed over, and one that adds nothing is. Steps may add nothing,
// and the first line does not.
fn is_told(moment: Moment<'_>) -> bool {
    let text = moment.source.text;
    match (moment.added.is_empty(), moment.reason.is_some()) {
        (false, is_passed_over) => !is_passed_over,
        (true, true) => true,
        (true, false) => ["go", "run", "once", "lazy"]
            .iter()
            .any(|word| text.starts_with(*word)),
    }
}
