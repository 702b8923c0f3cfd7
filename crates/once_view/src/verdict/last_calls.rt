//! The last calls of the tasks that a verdict names.

use crate::text::write_filled;
use once_judge::{Cell, Fault, Reason, Verdict, WakersFact, task_of};
use once_machine::record::Entry;
use once_script::print::EntryLine;
use std::fmt::{self, Display};

/// A line for each task that a verdict names: its entries since its last call began, up to the moment of the verdict.
///
/// ```
/// rt.print(LastCalls(&self.verdict, self.entries)) // `task 1: entry 2, begin 1 5; entry 3, claim 1`
/// ```
#[derive(Clone, Copy)]
pub struct LastCalls<'a>(pub &'a Verdict, pub &'a [Entry]);

impl fmt::Display for LastCalls<'_> {
    fn fmt<W: fmt::Write>(&self, f: &mut fmt::Formatter<W>) -> fmt::Result {
        let LastCalls(verdict, entries) = *self;
        if let Some(fault) = verdict.fault {
            write_calls_at(f, fault, entries)?;
        }
        match verdict.forgotten {
            Some(forgotten) => {
                let end = forgotten.entry.saturating_add(1);
                write_call(f, Some(forgotten.task), entries, end)
            }
            None => Ok(()),
        }
    }
}

/// Writes the last calls of the tasks that a fault names: that of its entry, and that of its reason.
fn write_calls_at<W: fmt::Write>(
    f: &mut fmt::Formatter<W>,
    fault: Fault,
    entries: &[Entry],
) -> fmt::Result {
    let own = entries.get(fault.entry).and_then(|entry| task_of(entry));
    let named = task_in(fault.reason).filter(|task| own != Some(*task));
    write_call(f, own, entries, fault.entry)?;
    write_call(f, named, entries, fault.entry)
}

/// Writes the last call of a task, if there is one, before the entry `end`.
fn write_call<W: fmt::Write>(
    f: &mut fmt::Formatter<W>,
    task: Option<u64>,
    entries: &[Entry],
    end: usize,
) -> fmt::Result {
    match task {
        Some(task) => write_line(f, task, entries.get(..end).unwrap_or(entries)),
        None => Ok(()),
    }
}

/// Writes the last call of a task in these entries.
fn write_line<W: fmt::Write>(
    f: &mut fmt::Formatter<W>,
    task: u64,
    entries: &[Entry],
) -> fmt::Result {
    write_filled(f, "task {}:", &[task])?;
    let mut told = false;
    for (index, entry) in entries.iter().enumerate().skip(call_begins(task, entries)) {
        if task_of(entry) == Some(task) {
            let form = if told { "; entry {}, " } else { " entry {}, " };
            write_entry(f, form, index, entry)?;
            told = true;
        }
    }
    f.write_str(if told { "\n" } else { " no entry\n" })
}

/// Writes an entry, with its number before it in this form.
fn write_entry<W: fmt::Write>(
    f: &mut fmt::Formatter<W>,
    form: &'static str,
    index: usize,
    entry: &Entry,
) -> fmt::Result {
    write_filled(f, form, &[(index as u64).saturating_add(1)])?;
    EntryLine(entry).fmt(f)
}

/// Where the last call of a task in these entries begins, or where the task was made.
fn call_begins(task: u64, entries: &[Entry]) -> usize {
    let mut begins = 0;
    for (index, entry) in entries.iter().enumerate() {
        match entry {
            Entry::Made(u) | Entry::Begin(u, _) | Entry::DropBegin(u) if *u == task => begins =
                index,
            _ => {}
        }
    }
    begins
}

/// The task that a reason names.
fn task_in(reason: Reason) -> Option<u64> {
    match reason {
        Reason::TaskIs(task, _)
        | Reason::CellIs(Cell::Held(task))
        | Reason::OfCall(task, _)
        | Reason::OfWakers(WakersFact::Due(task, _)) => Some(task),
        _ => None,
    }
}
