//! Scripts and records shown to people: a script as a table with a row for each line, or as a picture; the verdict on a
//! record; and whether a run has what was seen of a cell.
#![tactic(auto)]

pub mod fault;
mod listed;
pub mod observed;
pub mod picture;
pub mod play;
pub mod program;
pub mod range;
pub mod reading;
pub mod table;
mod text;
pub mod verdict;

use crate::fault::Fault;
use crate::range::LineRange;
use crate::reading::read_script;
use std::alloc::Global;
use std::io::{BufWriter, Write};

/// The format in which a script is shown.
#[derive(Clone, Copy)]
pub enum Format {
    /// A table with a row for each line.
    Table,
    /// A picture, as SVG.
    Picture,
}

/// Reads a script, plays it, and shows it in this format.
///
/// A fault on reading leaves nothing shown. One on writing may leave a beginning.
pub fn show<O: Write + Drop>(
    alloc: Global,
    format: Format,
    text: &[u8],
    output: O,
) -> Result<(), Fault> {
    show_lines(alloc, format, LineRange::all(), text, output)
}

/// Does the same, and shows these lines alone. All lines are read and played.
pub fn show_lines<O: Write + Drop>(
    alloc: Global,
    format: Format,
    range: LineRange,
    text: &[u8],
    output: O,
) -> Result<(), Fault> {
    let script = read_script(alloc, text)?;
    range.check(&script)?;
    let mut output = BufWriter::new(alloc, output)?;
    match format {
        Format::Table => table::write_table(alloc, script, range, &mut output)?,
        Format::Picture => picture::write_picture(alloc, script, range, &mut output)?,
    }
    output.flush()?;
    Ok(())
}
