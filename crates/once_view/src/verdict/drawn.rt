//! A record as a picture, with the verdict on it.

use super::VerdictLine;
use crate::picture::write_record;
use crate::text::shown;
use once_judge::Verdict;
use once_machine::record::{Entry, Kind};
use once_script::print::EntryLine;
use std::alloc::{AllocError, Global};
use std::io::{self, Write};

/// Writes a picture of a record of a cell of this kind, as SVG, under the line of the verdict on it. If the record
/// stops to be a run, the picture ends with the entry that may not come next: its line is there, and it is not drawn.
///
/// ```
/// draw_verdict(rt.alloc(), kind, entries, &verdict, &mut output)?;
/// ```
pub fn draw_verdict<O: Write>(
    alloc: Global,
    kind: &Kind,
    entries: &[Entry],
    verdict: &Verdict,
    output: &mut O,
) -> io::Result<()> {
    let drawn = verdict.fault.map_or(entries.len(), |fault| fault.entry);
    let lines = lines_of(alloc, entries, drawn.saturating_add(1))?;
    let title = shown(alloc, &VerdictLine(verdict, entries))?;
    let before = entries.get(..drawn).unwrap_or(entries);
    write_record(alloc, title.as_str(), kind, before, &lines, output)
}

/// The lines of so many entries at most.
fn lines_of(alloc: Global, entries: &[Entry], many: usize) -> Result<Vec<String>, AllocError> {
    let mut lines = Vec::new(alloc);
    for entry in entries.iter().take(many) {
        lines.push(shown(alloc, &EntryLine(entry))?)?;
    }
    Ok(lines)
}
