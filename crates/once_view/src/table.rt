//! A script as a table: a row for each line, with what it added to the record and what stands after it.
use crate::listed::Listed;
use crate::play::{Moment, Watcher, play};
use crate::range::LineRange;
use crate::reading::Script;
use crate::text::Text;
use once_script::world::Entry;
use std::alloc::{AllocError, Global};
use std::collections::BTreeMap;
use std::io;
use std::io::Write;

mod cells;
mod others;
mod part;
mod writing;

use cells::{Stand, add_core, add_entries, listed_cell};
use part::{Row, Task, Writing};

/// Plays a script, and writes a table of these lines.
///
/// If many tasks live in these lines, the table comes in parts. A part has some of the lines, and a column for each
/// task that they name. It also says how many other tasks there are; none of its lines changes where those stand.
pub fn write_table<O: Write>(
    alloc: Global,
    script: Script<'_>,
    range: LineRange,
    output: &mut O,
) -> io::Result<()> {
    let mut table = Table {
        alloc,
        range,
        tasks: Vec::new(alloc),
        places: BTreeMap::new(alloc),
        rows: Vec::new(alloc),
        listed: Listed::new(alloc),
        listed_cell: String::new(alloc),
    };
    play(alloc, script, &mut table)?;
    let Table { tasks, rows, .. } = table;
    let mut text = Text::new(alloc);
    Writing::new(alloc, tasks).show(&rows, &mut text)?;
    text.write(output)
}

/// The rows of a table, and the tasks that live in them.
#[derive(Drop)]
struct Table {
    alloc: Global,
    range: LineRange,
    /// The tasks, in the order in which they were made, as they stood when they came into the table.
    tasks: Vec<Task>,
    /// The place of each task among them.
    places: BTreeMap<u64, usize>,
    rows: Vec<Row>,
    /// The listings after the last line.
    listed: Listed,
    /// The same as it is shown.
    listed_cell: String,
}

impl Watcher for Table {
    fn see(&mut self, moment: Moment<'_>) -> Result<(), AllocError> {
        for entry in moment.added {
            self.listed.take(entry)?;
        }
        self.listed.settle(moment)?;
        if !self.range.has(moment.source.number) {
            return Ok(());
        }
        let is_first = self.rows.is_empty();
        if is_first {
            self.add_living(moment)?;
        } else {
            self.add_made(moment.added)?;
        }
        if is_first || moment.may_change() {
            self.listed_cell = listed_cell(self.alloc, &self.listed)?;
        }
        let row = self.row(moment)?;
        self.rows.push(row)?;
        Ok(())
    }
}

impl Table {
    /// Adds the tasks that live in the first line that is shown.
    fn add_living(&mut self, moment: Moment<'_>) -> Result<(), AllocError> {
        for entry in moment.world.entries() {
            if let Entry::Made(task) = entry {
                let stand = Stand::of(moment.world.step_of(*task));
                let is_ended = moment.task == Some(*task) && moment.reason.is_none();
                if stand != Stand::Gone || is_ended {
                    self.add(*task, stand)?;
                }
            }
        }
        Ok(())
    }

    /// Adds the task that a line made, if it made one.
    fn add_made(&mut self, added: &[Entry]) -> Result<(), AllocError> {
        for entry in added {
            if let Entry::Made(task) = entry {
                self.add(*task, Stand::Absent)?;
            }
        }
        Ok(())
    }

    fn add(&mut self, number: u64, stand: Stand) -> Result<(), AllocError> {
        self.places.insert(number, self.tasks.len())?;
        self.tasks.push(Task { number, stand })?;
        Ok(())
    }

    fn row(&self, moment: Moment<'_>) -> Result<Row, AllocError> {
        Ok(Row {
            shared: self.shared_cells(moment)?,
            named: self.named(moment),
            record: self.record_cell(moment)?,
        })
    }

    /// The cells before those of the tasks.
    fn shared_cells(&self, moment: Moment<'_>) -> Result<String, AllocError> {
        let mut cells = Text::new(self.alloc);
        cells.fill("{}\t", &[moment.source.number]);
        cells.add(moment.source.text);
        cells.add("\t");
        add_core(moment.world.core(), &mut cells);
        cells.add("\t");
        cells.add(&self.listed_cell);
        cells.into_string()
    }

    /// The cell after those of the tasks.
    fn record_cell(&self, moment: Moment<'_>) -> Result<String, AllocError> {
        let mut cell = Text::new(self.alloc);
        match moment.reason {
            Some(reason) => {
                cell.add("(passed over: ");
                cell.show(&reason);
                cell.add(")");
            }
            None => add_entries(moment.added, &mut cell),
        }
        cell.into_string()
    }

    /// The place of the task that the line names, and where it stands, unless it was gone before the line.
    fn named(&self, moment: Moment<'_>) -> Option<(usize, Stand)> {
        let task = moment.task?;
        let stand = Stand::of(moment.world.step_of(task));
        if stand == Stand::Gone && moment.reason.is_some() {
            return None;
        }
        Some((*self.places.get(&task)?, stand))
    }
}
