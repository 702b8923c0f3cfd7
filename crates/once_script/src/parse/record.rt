//! The text of a record: the first line of a script, and then a line for each entry.
ghost use Rattle.std.specs.Prelude.{◌≡◌};

use crate::parse::Opening;
use crate::parse::entries::{entry_form, parse_entry};
use crate::parse::lines::{opening_in, split_lines};
use crate::parse::number::parse_number;
use once_machine::record::{Entry, Kind};
use std::alloc::{AllocError, AllocFailed, Global};

/// All that the text of a record says.
#[derive(Debug, Drop)]
pub struct RecordText {
    pub kind: Kind,
    pub limit: u64,
    /// The entries, the oldest first.
    pub entries: Vec<Entry>,
}

/// Why a text is no record.
#[derive(Clone, Copy, Debug, Drop, PartialEq, Eq)]
pub enum BadRecord {
    /// The line with this number is the first that cannot be read, and this is what it should be.
    Line(u64, &'static str),
    /// Memory was refused.
    Memory,
}

impl From<AllocError> for BadRecord {
    ghost use Rattle.once_script.specs.declared.parse.record.BadRecord.TheVariants.{Memory};

    ghost from_gives = { λ _ fault. fault ≡ Memory };

    fn from(_error: AllocError) -> BadRecord {
        BadRecord::Memory
    }
}

impl<T: Drop> From<AllocFailed<T>> for BadRecord {
    ghost use Rattle.once_script.specs.declared.parse.record.BadRecord.TheVariants.{Memory};

    ghost from_gives = { λ _ fault. fault ≡ Memory };

    fn from(_error: AllocFailed<T>) -> BadRecord {
        BadRecord::Memory
    }
}

// The form of the first line.
const FIRST_FORM: &'static str =
    "once LIMIT or lazy LIMIT, with `with VALUE` after it, or the answers of the lazy init, as `p v4`";

/// Reads a whole text, as `once_replay --full` writes it. The lines of the queue are passed over. Each line ends with a
/// line feed, which the last may lack.
///
/// ```
/// let Ok(record) = parse_record(alloc, printed.as_slice()) else {
///     return Err(Fail::new(script));
/// };
/// ```
pub fn parse_record(alloc: Global, text: &[u8]) -> Result<RecordText, BadRecord> {
    let (opening, lines) = parse_first(alloc, text)?;
    let mut entries = Vec::new(alloc);
    let mut number = 1u64;
    for bytes in lines.iter().skip(1) {
        number = number.saturating_add(1);
        let text = str::from_utf8(bytes).map_err(|_| BadRecord::Line(number, entry_form("")))?;
        if !is_of_queue(text) {
            let entry = parse_entry(alloc, text)?;
            entries.push(entry.ok_or(BadRecord::Line(number, entry_form(text)))?)?;
        }
    }
    Ok(RecordText {
        kind: opening.kind,
        limit: opening.limit,
        entries,
    })
}

/// Reads the first line of a text, and cuts the text into lines, of which the first is that one.
///
/// ```
/// let (opening, lines) = parse_first(alloc, text)?;
/// ```
pub fn parse_first(alloc: Global, text: &[u8]) -> Result<(Opening, Vec<&[u8]>), BadRecord> {
    let lines = split_lines(alloc, text)?;
    let first = lines.first().ok_or(BadRecord::Line(1, FIRST_FORM))?;
    match opening_in(alloc, first)? {
        Some(opening) => Ok((opening, lines)),
        None => Err(BadRecord::Line(1, FIRST_FORM)),
    }
}

// Whether a line is the one of the queue.
fn is_of_queue(text: &str) -> bool {
    match text.strip_prefix("queue ") {
        Some(queue) => queue == "none" || parse_number(queue).is_some(),
        None => false,
    }
}
