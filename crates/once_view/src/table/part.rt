//! The parts of a table.
use super::cells::Stand;
use super::others::Others;
use super::writing::show_rows;
use crate::text::Text;
use std::alloc::{AllocError, Global};

/// How many tasks a part has columns for.
const MOST_TASKS: usize = 20;

/// The headers of the columns that each part has before those of the tasks. A tab stands between two cells
/// of a row, since no script that can be read has one.
const HEADERS: &str = "line\tscript\tcount\tquick\tready\tdoor\tflag\tlisted";

/// A task that lives in a line that is shown.
#[derive(Clone, Copy)]
pub struct Task {
    pub number: u64,
    pub stand: Stand,
}

/// A line that is shown.
#[derive(Drop)]
pub struct Row {
    /// The cells before those of the tasks.
    pub shared: String,
    /// The place of the task that the line names, if it lives, and where it stands after the line.
    pub named: Option<(usize, Stand)>,
    /// The cell after those of the tasks.
    pub record: String,
}

/// Some rows, and the places of the tasks that they have columns for.
#[derive(Drop)]
struct Part {
    rows: usize,
    columns: Vec<usize>,
}

impl Part {
    fn new(alloc: Global) -> Self {
        Part {
            rows: 0,
            columns: Vec::new(alloc),
        }
    }

    /// The first part of a table with so many tasks: if they are few, it has a column for each.
    fn first(alloc: Global, tasks: usize) -> Result<Self, AllocError> {
        let mut part = Part::new(alloc);
        if tasks <= MOST_TASKS {
            for place in 0..tasks {
                part.columns.push(place)?;
            }
        }
        Ok(part)
    }

    /// Whether there is a column for the task that the row names, or none is needed.
    fn has(&self, row: &Row) -> bool {
        match row.named {
            Some((place, _)) => self.columns.contains(&place),
            None => true,
        }
    }

    fn has_room_for(&self, row: &Row) -> bool {
        self.columns.len() < MOST_TASKS || self.has(row)
    }

    /// Adds a row, and the column that it needs.
    fn add(&mut self, row: &Row) -> Result<(), AllocError> {
        if let Some((place, _)) = row.named
            && !self.has(row)
        {
            self.columns.push(place)?;
        }
        self.rows = self.rows.saturating_add(1);
        Ok(())
    }
}

/// The parts of these rows: a single one, if there are few tasks. Else each has the columns of the tasks that its
/// rows name, and as many rows as those allow.
fn parts_of(alloc: Global, tasks: usize, rows: &[Row]) -> Result<Vec<Part>, AllocError> {
    let mut parts = Vec::new(alloc);
    let mut part = Part::first(alloc, tasks)?;
    for row in rows {
        if !part.has_room_for(row) {
            add_part(&mut parts, part)?;
            part = Part::new(alloc);
        }
        part.add(row)?;
    }
    add_part(&mut parts, part)?;
    Ok(parts)
}

/// Adds a part, with its columns in the order of the tasks.
fn add_part(parts: &mut Vec<Part>, mut part: Part) -> Result<(), AllocError> {
    part.columns.sort()?;
    parts.push(part)?;
    Ok(())
}

/// A table that is shown part by part.
#[derive(Drop)]
pub struct Writing {
    alloc: Global,
    /// The tasks, in the order in which they were made, as they stand before the next row.
    tasks: Vec<Task>,
    /// How many tasks there are in each state.
    all: Others,
}

impl Writing {
    /// Nothing is shown yet of a table with these tasks.
    pub fn new(alloc: Global, tasks: Vec<Task>) -> Self {
        let mut all = Others::new();
        for task in &tasks {
            all.add(task.stand);
        }
        Writing { alloc, tasks, all }
    }

    /// Shows all rows, in parts with an empty line between two.
    pub fn show(&mut self, rows: &[Row], text: &mut Text) -> Result<(), AllocError> {
        let mut rest = rows;
        for (number, part) in parts_of(self.alloc, self.tasks.len(), rows)?
            .iter()
            .enumerate()
        {
            if number > 0 {
                text.add("\n");
            }
            let (first, later) = rest.split_at_checked(part.rows).unwrap_or((rest, &[]));
            self.show_part(first, &part.columns, text)?;
            rest = later;
        }
        Ok(())
    }

    fn show_part(
        &mut self,
        rows: &[Row],
        columns: &[usize],
        text: &mut Text,
    ) -> Result<(), AllocError> {
        let others = self.others(columns);
        if !others.is_empty() {
            text.add("other tasks: ");
            others.show(text);
            text.add("\n");
        }
        let cells = self.cells(rows, columns)?;
        show_rows(self.alloc, &cells, text)
    }

    /// The tasks that have none of these columns.
    fn others(&self, columns: &[usize]) -> Others {
        let mut others = self.all;
        for place in columns {
            if let Some(task) = self.tasks.get(*place) {
                others.take_out(task.stand);
            }
        }
        others
    }

    /// The cells of the headers, and of these rows below them.
    fn cells(&mut self, rows: &[Row], columns: &[usize]) -> Result<String, AllocError> {
        let mut cells = Text::new(self.alloc);
        cells.add(HEADERS);
        for place in columns {
            if let Some(task) = self.tasks.get(*place) {
                cells.fill("\ttask {}", &[task.number]);
            }
        }
        cells.add("\trecord");
        for row in rows {
            self.stand(row.named);
            self.add_row(row, columns, &mut cells);
        }
        cells.into_string()
    }

    /// Adds a row below those that are there.
    fn add_row(&self, row: &Row, columns: &[usize], cells: &mut Text) {
        cells.add("\n");
        cells.add(&row.shared);
        for place in columns {
            if let Some(task) = self.tasks.get(*place) {
                task.stand.add(cells);
            }
        }
        cells.add("\t");
        cells.add(&row.record);
    }

    /// A task stands elsewhere after a row.
    fn stand(&mut self, named: Option<(usize, Stand)>) {
        let Some((place, stand)) = named else {
            return;
        };
        if let Some(task) = self.tasks.get_mut(place) {
            self.all.take_out(task.stand);
            self.all.add(stand);
            task.stand = stand;
        }
    }
}
