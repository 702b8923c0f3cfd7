//! A script as a picture: a lane for each task, and a band for the cell.
use crate::listed::Listed;
use crate::play::{Moment, Watcher, play};
use crate::range::LineRange;
use crate::reading::{Script, TextLine};
use crate::text::Text;
use once_script::print::call_word;
use once_script::world::{Call, Entry, Kind, Ran, Reply};
use std::alloc::{AllocError, Global};
use std::io;
use std::io::Write;

mod draw;
mod lanes;
mod legend;
mod shape;
mod svg;

use draw::Drawing;
use lanes::Lanes;
use shape::{CellState, Shape, Shapes};

/// How many ticks a column has. The entries that a line adds stand at one tick after the other.
const TICKS: u64 = 8;

/// Plays a script, and writes a picture of these lines, as SVG.
pub fn write_picture<O: Write>(
    alloc: Global,
    script: Script<'_>,
    range: LineRange,
    output: &mut O,
) -> io::Result<()> {
    let title = script.first.text;
    let lines = lines_in(alloc, &script, range)?;
    let picture = Picture::of_script(alloc, script, range)?;
    picture.write(title, &lines, output)
}

/// Writes a picture of a record of a cell of this kind, as SVG. It has a column for each of these lines, and shows the
/// entries, of which there may be fewer.
///
/// ```
/// write_record(alloc, title.as_str(), kind, before, &lines, output)
/// ```
pub fn write_record<'a, O: Write>(
    alloc: Global,
    title: &'a str,
    kind: &Kind,
    entries: &[Entry],
    lines: &'a [String],
    output: &mut O,
) -> io::Result<()> {
    let columns = numbered(alloc, lines)?;
    let picture = Picture::of_record(alloc, kind, entries, columns.len())?;
    picture.write(title, &columns, output)
}

/// These lines, with their numbers.
fn numbered<'a>(alloc: Global, lines: &'a [String]) -> Result<Vec<TextLine<'a>>, AllocError> {
    let mut numbered = Vec::new(alloc);
    for (number, text) in (1u64..).zip(lines) {
        numbered.push(TextLine { number, text })?;
    }
    Ok(numbered)
}

/// The lines of a script that are shown.
fn lines_in<'a>(
    alloc: Global,
    script: &Script<'a>,
    range: LineRange,
) -> Result<Vec<TextLine<'a>>, AllocError> {
    let mut lines = Vec::new(alloc);
    if range.has(script.first.number) {
        lines.push(script.first)?;
    }
    for line in &script.lines {
        if range.has(line.source.number) {
            lines.push(line.source)?;
        }
    }
    Ok(lines)
}

fn first_state(kind: &Kind) -> CellState {
    match kind {
        Kind::Once | Kind::Lazy(_) => CellState::Empty,
        Kind::OnceWith(value) | Kind::LazyWith(value) => CellState::Set(*value),
    }
}

/// A picture that grows line by line. Its columns are the lines that say something.
#[derive(Drop)]
struct Picture {
    alloc: Global,
    range: LineRange,
    /// How many columns there are.
    columns: u64,
    /// The listings of the queue.
    listed: Listed,
    lanes: Lanes,
    cell: CellState,
    /// When the cell came to its state.
    cell_from: u64,
    shapes: Shapes,
}

impl Watcher for Picture {
    fn see(&mut self, moment: Moment<'_>) -> Result<(), AllocError> {
        let number = moment.source.number;
        if self.range.is_before(number) {
            return Ok(());
        }
        if self.range.has(number) {
            self.draw(moment)?;
        } else {
            self.pass(moment)?;
        }
        self.listed.settle(moment)
    }
}

impl Picture {
    fn new(alloc: Global, range: LineRange, kind: &Kind) -> Picture {
        Picture {
            alloc,
            range,
            columns: 0,
            listed: Listed::new(alloc),
            lanes: Lanes::new(alloc),
            cell: first_state(kind),
            cell_from: 0,
            shapes: Shapes::new(alloc),
        }
    }

    /// What these lines of a script show.
    fn of_script(
        alloc: Global,
        script: Script<'_>,
        range: LineRange,
    ) -> Result<Picture, AllocError> {
        let mut picture = Picture::new(alloc, range, &script.opening.kind);
        play(alloc, script, &mut picture)?;
        picture.close()?;
        Ok(picture)
    }

    /// What the entries of a record show, with so many columns.
    fn of_record(
        alloc: Global,
        kind: &Kind,
        entries: &[Entry],
        columns: usize,
    ) -> Result<Picture, AllocError> {
        let mut picture = Picture::new(alloc, LineRange::all(), kind);
        picture.take_record(entries)?;
        picture.columns = columns as u64;
        picture.close()?;
        Ok(picture)
    }

    /// Writes the picture, with these columns.
    fn write<O: Write>(
        &self,
        title: &str,
        columns: &[TextLine<'_>],
        output: &mut O,
    ) -> io::Result<()> {
        let mut svg = Text::new(self.alloc);
        Drawing::new(title, columns, &self.lanes).draw(self.shapes.as_slice(), &mut svg);
        svg.write(output)
    }

    /// The task that holds, if one does.
    fn holder(&self) -> Option<u64> {
        match self.cell {
            CellState::Held(task) => Some(task),
            CellState::Empty | CellState::Set(_) => None,
        }
    }

    /// A new column for the line.
    fn draw(&mut self, moment: Moment<'_>) -> Result<(), AllocError> {
        if self.columns == 0 {
            self.lanes.forget_gone()?;
        }
        let first = self.columns.saturating_mul(TICKS).saturating_add(1);
        let last = first.saturating_add(TICKS).saturating_sub(2);
        self.columns = self.columns.saturating_add(1);
        let mut at = first;
        for entry in moment.added {
            self.take(at, entry)?;
            at = at.saturating_add(1).min(last);
        }
        Ok(())
    }

    /// A line before those that are shown: all happens at the left edge, and only what lasts is drawn.
    fn pass(&mut self, moment: Moment<'_>) -> Result<(), AllocError> {
        for entry in moment.added {
            self.take(0, entry)?;
        }
        self.shapes.clear();
        Ok(())
    }

    /// Takes the entries of a record, each in a column of its own.
    fn take_record(&mut self, entries: &[Entry]) -> Result<(), AllocError> {
        for (column, entry) in entries.iter().enumerate() {
            let at = (column as u64).saturating_mul(TICKS).saturating_add(1);
            self.take(at, entry)?;
            let holder = self.holder();
            self.listed.settle_entry(entry, holder)?;
        }
        Ok(())
    }

    fn take(&mut self, at: u64, entry: &Entry) -> Result<(), AllocError> {
        self.add(at, entry)?;
        self.listed.take(entry)
    }

    fn add(&mut self, at: u64, entry: &Entry) -> Result<(), AllocError> {
        match entry {
            Entry::Made(task) => return self.lanes.add(*task, at),
            Entry::Free(task, wakers) => self.release(*task, at, CellState::Empty, wakers),
            Entry::Fill(task, value, wakers) => {
                self.release(*task, at, CellState::Set(*value), wakers);
            }
            Entry::Pass(task, wakers) => self.wake(*task, at, wakers),
            Entry::Look(value) => self.shapes.add(Shape::Look { at, value: *value }),
            Entry::Own(call, _) => self.own(at, call),
            _ => self.add_call(at, entry),
        }
        Ok(())
    }

    /// Adds what a call did that wakes nobody.
    fn add_call(&mut self, at: u64, entry: &Entry) {
        match *entry {
            Entry::Begin(task, _) => self.begin(task, at, false),
            Entry::DropBegin(task) => self.begin(task, at, true),
            Entry::Claim(task) => self.claim(task, at),
            Entry::Ran(task, answer) => self.ran(task, at, answer),
            Entry::End(task, reply) => self.end(task, at, reply),
            Entry::DropEnd(task) => self.end_drop(task, at),
            _ => {}
        }
    }

    /// The cell comes to another state.
    fn change(&mut self, at: u64, state: CellState) {
        self.shapes.add(Shape::Cell {
            from: self.cell_from,
            to: at,
            state: self.cell,
        });
        self.cell = state;
        self.cell_from = at;
    }

    fn begin(&mut self, task: u64, at: u64, is_drop: bool) {
        if let Some(waited) = self.lanes.begin(task, at, is_drop) {
            self.shapes.add(Shape::Wait(waited));
        }
    }

    fn claim(&mut self, task: u64, at: u64) {
        self.lanes.hold(task, at);
        self.change(at, CellState::Held(task));
    }

    fn ran(&mut self, task: u64, at: u64, answer: Ran) {
        let lane = self.lanes.number_of(task);
        self.shapes.add(Shape::InitPoll { lane, at, answer });
    }

    /// The task gives the right back, and wakes those with these wakers.
    fn release(&mut self, task: u64, at: u64, state: CellState, wakers: &[u64]) {
        if let Some(held) = self.lanes.release(task, at) {
            self.shapes.add(Shape::Hold(held));
        }
        self.change(at, state);
        self.wake(task, at, wakers);
    }

    /// An arrow to each task that is woken with one of these wakers, before its entry is taken. Of those with the same
    /// waker the one listed first is woken.
    fn wake(&mut self, task: u64, at: u64, wakers: &[u64]) {
        let caller = self.lanes.number_of(task);
        let mut count = 0usize;
        for place in self.listed.uncalled() {
            let Some(waker) = wakers.get(count) else {
                return;
            };
            if let Some(called) = self.listed.task_at(*place, *waker) {
                let called = self.lanes.number_of(called);
                self.shapes.add(Shape::Wake { at, caller, called });
                count = count.saturating_add(1);
            }
        }
    }

    fn end(&mut self, task: u64, at: u64, reply: Reply) {
        let lane = self.lanes.number_of(task);
        if let Some(call) = self.lanes.end(task, at) {
            self.shapes.add(Shape::TaskPoll(call));
        }
        if matches!(&reply, Reply::Pending) {
            self.lanes.wait(task, at);
        } else {
            self.lanes.leave(task, at);
            self.shapes.add(Shape::Reply { lane, at, reply });
        }
    }

    fn end_drop(&mut self, task: u64, at: u64) {
        if let Some(call) = self.lanes.end(task, at) {
            self.shapes.add(Shape::TaskDrop(call));
        }
        self.lanes.leave(task, at);
    }

    fn own(&mut self, at: u64, call: &Call) {
        let state = match call {
            Call::Take | Call::Parts | Call::ReplaceAnswers(_) => CellState::Empty,
            Call::ReplaceValue(value) => CellState::Set(*value),
            Call::Write(value) => match self.cell {
                CellState::Set(_) => CellState::Set(*value),
                other => other,
            },
        };
        let word = call_word(call);
        self.shapes.add(Shape::Owner { at, word });
        self.change(at, state);
    }

    /// Ends all that is still open with the last column, and sees that no shape is lacking.
    fn close(&mut self) -> Result<(), AllocError> {
        let at = self.columns.saturating_mul(TICKS);
        self.change(at, self.cell);
        for lane in self.lanes.as_slice() {
            lane.add_open(at, &mut self.shapes);
        }
        self.shapes.check()
    }
}
