//! The lines of a text.
ghost use Rattle.std.specs.Prelude.{◌≡◌, ◌≢◌, IfOk, MatchOption, ℕ};
ghost use Rattle.once_machine.specs.declared.record.Kind.{Kind};
ghost use Rattle.once_script.specs.Text.{IsLine, IsOpening};
ghost use Rattle.once_script.specs.Script.{lines_in, texts_of, without_last_feed, AreLines, IsStop};
ghost use Rattle.once_script.specs.declared.parse.Line.{Line};

use crate::fault::Fault;
use crate::parse::{Line, Opening, parse_line, parse_opening};
use std::alloc::{AllocError, Global};

/// The lines of a text, without their ends.
///
/// ```
/// let lines = split_lines(alloc, text)?;
/// let (first, later) = lines.split_first().ok_or(Fault::Unreadable(1))?;
/// ```
pub fn split_lines(alloc: Global, text: &[u8]) -> Result<Vec<&[u8]>, AllocError>
    ensures { IfOk result (λ lines. texts_of lines.items ≡ lines_in text.now) }
{
    without_last_feed(text)
        .split(|byte| *byte == b'\n')
        .collect(alloc)
}

fn without_last_feed(text: &[u8]) -> &[u8]
    ensures { result.now ≡ without_last_feed text.now }
{
    text.strip_suffix(b"\n").unwrap_or(text)
}

/// Reads the lines after the first, which has the number 1.
///
/// ```
/// Ok(Script {
///     kind,
///     limit,
///     lines: parse_lines(alloc, later)?,
/// })
/// ```
pub fn parse_lines(alloc: Global, lines: &[&[u8]]) -> Result<Vec<Line>, Fault>
    ensures read { IfOk result (λ read. AreLines (texts_of lines.now) read.items) }
    ensures unreadable { (n : ℕ) → result ≡ Err (Fault.Unreadable n)
        → IsStop 2 n (texts_of lines.now) }
    ensures no_reads { result ≢ Err Fault.Io }
{
    let mut read = Vec::new(alloc);
    let mut number = 1u64;
    for bytes in lines {
        number = number.saturating_add(1);
        let Some(line) = line_in(alloc, bytes)? else {
            return Err(Fault::Unreadable(number));
        };
        read.push(line)?;
    }
    Ok(read)
}

/// Reads the bytes of a first line. Bytes that are no text are none.
///
/// ```
/// let Some(Opening { kind, limit }) = opening_in(alloc, first)? else {
///     return Err(Fault::Unreadable(1));
/// };
/// ```
pub fn opening_in(alloc: Global, bytes: &[u8]) -> Result<Option<Opening>, AllocError>
    ensures { IfOk result (λ read. MatchOption read
        ((kind : Kind) → (limit : ℕ) → ¬ IsOpening kind limit bytes.now)
        (λ opening. IsOpening opening.kind opening.limit bytes.now)) }
{
    let Ok(text) = str::from_utf8(bytes) else {
        return Ok(None);
    };
    parse_opening(alloc, text)
}

/// Reads the bytes of a later line. Bytes that are no text are none.
fn line_in(alloc: Global, bytes: &[u8]) -> Result<Option<Line>, AllocError>
    ensures { IfOk result (λ read. MatchOption read ((line : Line) → ¬ IsLine line bytes.now)
        (λ line. IsLine line bytes.now)) }
{
    let Ok(text) = str::from_utf8(bytes) else {
        return Ok(None);
    };
    parse_line(alloc, text)
}
