//! A table that is read back.
use super::Window;
use super::story::{Line, Story};
use super::tally::{Tally, raise};
use std::alloc::{AllocError, Global};
use std::test::Fail;

/// How many tasks a table has columns for.
const MOST_TASKS: usize = 20;

/// How the words begin for where a task stands that lives, and how a part says that of tasks without a column.
const OTHERS: [(&str, &str); 4] = [
    ("new", "new"),
    ("waits", "waiting"),
    ("holds", "holding"),
    ("> ", "in a call"),
];

/// A table that is being read.
#[derive(Drop)]
struct Reading<'a> {
    alloc: Global,
    story: &'a Story,
    /// The place of the next line.
    at: usize,
    /// What the part says of tasks that it has no columns for.
    others: &'a str,
    /// The places of the tasks that the part has columns for.
    columns: Vec<usize>,
    cells: u64,
}

/// Compares a table with what the world says of these lines.
pub fn compare(
    alloc: Global,
    table: &str,
    story: &Story,
    window: Window,
    tally: &mut Tally,
) -> Result<(), Fail> {
    let mut reading = Reading {
        alloc,
        story,
        at: window.first,
        others: "",
        columns: Vec::new(alloc),
        cells: tally.cells,
    };
    for row in table.lines() {
        reading.read(row)?;
    }
    tally.cells = reading.cells;
    if reading.at != window.last.saturating_add(1) {
        return reading.differs("the end", "more rows");
    }
    Ok(())
}

/// The cells of a row with a bar between two, and how many they are. Two blanks or more stand between two cells.
fn cells_of(alloc: Global, row: &str) -> Result<(String, u64), AllocError> {
    let (mut text, mut count) = (String::new(alloc), 0u64);
    for cell in row
        .split("  ")
        .map(|cell| cell.trim())
        .filter(|cell| !cell.is_empty())
    {
        text.push_str(if count == 0 { "" } else { "|" })?;
        text.push_str(cell)?;
        raise(&mut count);
    }
    Ok((text, count))
}

impl<'a> Reading<'a> {
    fn read(&mut self, row: &'a str) -> Result<(), Fail> {
        if let Some(others) = row.strip_prefix("other tasks: ") {
            self.others = others;
        } else if row.starts_with("line") {
            self.read_headers(row)?;
        } else if row.is_empty() {
            self.others = "";
        } else {
            self.read_row(row)?;
        }
        Ok(())
    }

    /// Reads the headers of a part. It has a column for each task that lives, or it says how many others there are.
    fn read_headers(&mut self, row: &str) -> Result<(), Fail> {
        self.columns.clear();
        let (found, _) = cells_of(self.alloc, row)?;
        let first = "line|script|count|quick|ready|door|flag|listed";
        let mut wanted = String::from_str(self.alloc, first)?;
        for number in found.split("|task ").skip(1) {
            let number = number.split_once('|').map_or(number, |(number, _)| number);
            self.add_column(number)?;
            write!(wanted, "|task {number}")?;
        }
        wanted.push_str("|record")?;
        self.same(found.as_str(), wanted.as_str())?;
        let wanted = self.others_now()?;
        self.same(self.others, wanted.as_str())
    }

    /// Columns are in the order in which their tasks were made, and none comes twice.
    fn add_column(&mut self, number: &str) -> Result<(), Fail> {
        let place = number
            .parse()
            .ok()
            .and_then(|number| self.story.place(number));
        let last = self.columns.last().copied();
        match place {
            Some(place)
                if last.is_none_or(|last| last < place) && self.columns.len() < MOST_TASKS => {
                self.columns.push(place)?;
                Ok(())
            }
            _ => self.differs(number, "a task, further on than the last, and 20 at most"),
        }
    }

    /// What the part is to say of tasks without a column: how many stand so in the line before, without those counts
    /// that are 0.
    fn others_now(&self) -> Result<String, AllocError> {
        let mut text = String::new(self.alloc);
        for (stand, word) in &OTHERS {
            let count = self.others_before(stand);
            if count > 0 {
                let gap = if text.is_empty() { "" } else { ", " };
                write!(text, "{gap}{count} {word}")?;
            }
        }
        Ok(text)
    }

    /// How many tasks without a column stand in the line before the next one at what begins so.
    fn others_before(&self, stand: &str) -> u64 {
        let (lines, mut count) = (&self.story.lines, 0u64);
        if let Some(line) = self.at.checked_sub(1).and_then(|at| lines.get(at)) {
            for (place, found) in line.stands.iter().enumerate() {
                if found.starts_with(stand) && !self.columns.contains(&place) {
                    raise(&mut count);
                }
            }
        }
        count
    }

    /// Reads a row: all that the world says after its line.
    fn read_row(&mut self, row: &str) -> Result<(), Fail> {
        let Some(line) = self.story.lines.get(self.at) else {
            return self.differs(row, "no row");
        };
        let ((found, count), wanted) = (cells_of(self.alloc, row)?, self.wanted(line)?);
        self.same(found.as_str(), wanted.as_str())?;
        if line
            .named
            .is_some_and(|place| !self.columns.contains(&place))
        {
            return self.differs(row, "a column for the task that it names");
        }
        self.cells = self.cells.saturating_add(count);
        self.at = self.at.saturating_add(1);
        Ok(())
    }

    /// The cells of a line, with a bar between two.
    fn wanted(&self, line: &Line) -> Result<String, AllocError> {
        let mut wanted = String::new(self.alloc);
        write!(wanted, "{}|{}|{}", line.number, line.text, line.shared)?;
        for place in &self.columns {
            wanted.push_str("|")?;
            wanted.push_str(line.stands.get(*place).copied().unwrap_or("-"))?;
        }
        if !line.record.is_empty() {
            wanted.push_str("|")?;
            wanted.push_str(line.record.as_str())?;
        }
        Ok(wanted)
    }

    fn same(&self, read: &str, wanted: &str) -> Result<(), Fail> {
        if read == wanted {
            return Ok(());
        }
        self.differs(read, wanted)
    }

    fn differs<T>(&self, read: &str, wanted: &str) -> Result<T, Fail> {
        let number = self.story.lines.get(self.at).map_or(0, |line| line.number);
        Err(Fail::new(format_args!(
            "table of the seed {}, line {number}: \"{read}\", and not \"{wanted}\"",
            self.story.seed
        )))
    }
}
