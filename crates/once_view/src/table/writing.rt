//! Rows of cells, shown below each other.
use crate::text::Text;
use std::alloc::{AllocError, Global};

/// The most that a column is as wide as. A longer cell moves those after it to the right.
const MOST_WIDE: usize = 100;

/// Shows the rows, each column as wide as its widest cell. A tab stands between two cells of a row, and a line feed
/// between two rows.
pub fn show_rows(alloc: Global, rows: &str, text: &mut Text) -> Result<(), AllocError> {
    let mut widths = Vec::new(alloc);
    for row in rows.split('\n') {
        widen(&mut widths, row)?;
    }
    for row in rows.split('\n') {
        show_row(row, &widths, text);
    }
    Ok(())
}

/// Makes each width at least that of the row's cell.
fn widen(widths: &mut Vec<usize>, row: &str) -> Result<(), AllocError> {
    for (index, cell) in row.split('\t').enumerate() {
        let wide = cell.len().min(MOST_WIDE);
        match widths.get_mut(index) {
            Some(width) => *width = wide.max(*width),
            None => widths.push(wide)?,
        }
    }
    Ok(())
}

// The blanks before a cell are shown with it, so that no line ends with a blank.
fn show_row(row: &str, widths: &[usize], text: &mut Text) {
    let mut blanks = 0usize;
    for (cell, width) in row.split('\t').zip(widths) {
        if !cell.is_empty() {
            text.add_blanks(blanks);
            text.add(cell);
            blanks = 0;
        }
        let rest = width.saturating_sub(cell.len());
        blanks = blanks.saturating_add(rest).saturating_add(2);
    }
    text.add("\n");
}
