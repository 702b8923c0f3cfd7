//! A picture that is read back: which tasks hold and which wait, which polls and drops are under way, which task wakes
//! which, and what the cell is.
//!
//! Other marks and words, and the legend, are read of no picture at random. Stored pictures are compared whole.
use super::Window;
use super::shapes::{Shape, shapes_of};
use super::story::{Arrow, Bar, Story};
use super::tally::{Tally, raise};
use std::alloc::{AllocError, Global};
use std::test::Fail;

/// A bar: its lane, its class, and the columns of its beginning and its end. What lies before the first column is in
/// column -1, and what reaches the right edge ends in the column after the last.
type Placed<'a> = (usize, &'a str, i64, i64);

/// An arrow: its column, and the lanes of the task that wakes and of the one that is woken.
type Drawn = (i64, usize, usize);

/// A picture, and what the world says of its lines.
#[derive(Drop)]
struct Reading<'a> {
    alloc: Global,
    shapes: Vec<Shape<'a>>,
    story: &'a Story,
    window: Window,
    /// The places of the tasks that have a lane.
    lanes: Vec<usize>,
    /// How high the middle of each lane is.
    heights: Vec<i64>,
    left: i64,
    right: i64,
}

/// Compares a picture with what the world says of these lines.
pub fn compare(
    alloc: Global,
    svg: &str,
    story: &Story,
    window: Window,
    tally: &mut Tally,
) -> Result<(), Fail> {
    let (shapes, mut heights) = (shapes_of(alloc, svg)?, Vec::new(alloc));
    let (mut left, mut right) = (i64::MAX, 0);
    for shape in &shapes {
        if shape.class == "life" {
            heights.push(shape.number(1))?;
        }
        if is_of_cell(shape) {
            left = left.min(shape.number(0));
            right = right.max(shape.right());
        }
    }
    let reading = Reading {
        alloc,
        story,
        window,
        lanes: lanes_of(alloc, story, window)?,
        heights,
        left,
        right,
        shapes,
    };
    reading.compare_bars(&mut tally.bars)?;
    reading.compare_arrows(&mut tally.arrows)?;
    reading.compare_band()?;
    reading.compare_names(&mut tally.names)
}

/// The tasks that are there at some of these lines.
fn lanes_of(alloc: Global, story: &Story, window: Window) -> Result<Vec<usize>, AllocError> {
    let mut lanes = Vec::new(alloc);
    for (place, task) in story.tasks.iter().enumerate() {
        if task.made <= window.last && task.gone.is_none_or(|gone| gone >= window.first) {
            lanes.push(place)?;
        }
    }
    Ok(lanes)
}

/// Whether a shape is a part of the cell's band.
fn is_of_cell(shape: &Shape<'_>) -> bool {
    matches!(shape.class, "empty" | "held" | "set")
}

/// So many, as a length.
fn length(many: usize) -> i64 {
    i64::try_from(many).unwrap_or(i64::MAX)
}

/// Takes out one that is equal to this. The answer is whether there was one.
fn take<T: PartialEq + Copy>(all: &mut Vec<T>, wanted: T) -> bool {
    for place in 0..all.len() {
        if all[place] == wanted {
            all.swap_remove(place);
            return true;
        }
    }
    false
}

impl Reading<'_> {
    /// The place of the line of a column.
    fn line(&self, column: i64) -> usize {
        self.window
            .first
            .saturating_add(usize::try_from(column).unwrap_or(0))
    }

    fn differs<T>(&self, what: &str, column: i64) -> Result<T, Fail> {
        let line = self.story.lines.get(self.line(column));
        let number = line.map_or(0, |line| line.number);
        Err(Fail::new(format_args!(
            "picture of the seed {}, line {number}: {what}",
            self.story.seed
        )))
    }

    /// How many columns there are.
    fn columns(&self) -> i64 {
        let before = self.window.last.saturating_sub(self.window.first);
        length(before).saturating_add(1)
    }

    /// Where a column begins.
    fn begin(&self, column: i64) -> i64 {
        let wide = self.right.saturating_sub(self.left).saturating_mul(column);
        let before = wide.checked_div(self.columns()).unwrap_or(0);
        self.left.saturating_add(before)
    }

    /// The column that a place from left to right lies in.
    fn column(&self, x: i64) -> i64 {
        let before = x.saturating_sub(self.left).max(0);
        let all = self.right.saturating_sub(self.left);
        before
            .saturating_mul(self.columns())
            .checked_div(all)
            .unwrap_or(0)
    }

    /// The same, for where a bar begins or ends.
    fn place(&self, x: i64) -> i64 {
        if x <= self.left {
            -1
        } else if x >= self.right {
            self.columns()
        } else {
            self.column(x)
        }
    }

    /// Where a line's column is among those of the picture.
    fn place_of(&self, line: usize) -> i64 {
        if line < self.window.first {
            -1
        } else if line > self.window.last {
            self.columns()
        } else {
            length(line.saturating_sub(self.window.first))
        }
    }

    /// The lane of a task.
    fn lane(&self, place: usize) -> Option<usize> {
        self.lanes.iter().position(|it| *it == place)
    }

    /// The lane whose middle is next to this height.
    fn lane_at(&self, y: i64) -> usize {
        let (mut best, mut least) = (0usize, i64::MAX);
        for (lane, height) in self.heights.iter().enumerate() {
            let away = height.saturating_sub(y).saturating_abs();
            if away < least {
                best = lane;
                least = away;
            }
        }
        best
    }
}

/// The bars of the lanes.
impl Reading<'_> {
    /// All bars are drawn, each in its lane and from column to column, and no others.
    fn compare_bars(&self, bars: &mut u64) -> Result<(), Fail> {
        if self.heights.len() != self.lanes.len() {
            return self.differs("another number of lanes", 0);
        }
        let mut drawn = Vec::new(self.alloc);
        for shape in &self.shapes {
            if matches!(shape.class, "poll" | "drop" | "wait" | "hold") {
                let (from, to) = (self.place(shape.number(0)), self.place(shape.right()));
                drawn.push((self.lane_at(shape.middle()), shape.class, from, to))?;
            }
        }
        for bar in &self.story.bars {
            if let Some(wanted) = self.wanted(bar) {
                if !take(&mut drawn, wanted) {
                    return self.bar_differs("not drawn so", wanted);
                }
                raise(bars);
            }
        }
        match drawn.first() {
            Some(bar) => self.bar_differs("drawn, and not so", *bar),
            None => Ok(()),
        }
    }

    fn bar_differs(&self, how: &str, (_, class, from, _): Placed<'_>) -> Result<(), Fail> {
        self.differs(format!(in self.alloc; "{how}: {class}")?.as_str(), from)
    }

    /// How a bar has to be drawn, if its time and that of the picture meet.
    fn wanted(&self, bar: &Bar) -> Option<Placed<'static>> {
        if bar.from > self.window.last || bar.to.is_some_and(|to| to < self.window.first) {
            return None;
        }
        let to = bar.to.map_or(self.columns(), |to| self.place_of(to));
        Some((self.lane(bar.lane)?, bar.class, self.place_of(bar.from), to))
    }
}

/// The arrows.
impl Reading<'_> {
    /// For each waker that was handed out there is an arrow, from the task that did it to one that had that waker.
    fn compare_arrows(&self, arrows: &mut u64) -> Result<(), Fail> {
        let mut drawn = self.drawn_arrows()?;
        for arrow in &self.story.arrows {
            if self.window.first <= arrow.line && arrow.line <= self.window.last {
                if !self.take_arrow(&mut drawn, arrow) {
                    let column = self.place_of(arrow.line);
                    return self.differs("no arrow to a task that is called", column);
                }
                raise(arrows);
            }
        }
        match drawn.first() {
            Some(arrow) => self.differs("an arrow to a task that is not called", arrow.0),
            None => Ok(()),
        }
    }

    fn take_arrow(&self, drawn: &mut Vec<Drawn>, arrow: &Arrow) -> bool {
        let Some(caller) = self.lane(arrow.caller) else {
            return false;
        };
        let (column, called) = (self.place_of(arrow.line), &arrow.called);
        called
            .iter()
            .filter_map(|place| self.lane(*place))
            .any(|lane| take(drawn, (column, caller, lane)))
    }

    /// The arrows. Each goes from a tail to a tip, and then to both corners of its head.
    fn drawn_arrows(&self) -> Result<Vec<Drawn>, Fail> {
        let mut drawn = Vec::new(self.alloc);
        for shape in self.shapes.iter().filter(|shape| shape.class == "wake") {
            let (column, tail) = (self.column(shape.number(0)), shape.number(1));
            let (tip, corner) = (shape.number(2), shape.number(4));
            if (tail < tip) != (corner < tip) {
                return self.differs("the head of an arrow points elsewhere", column);
            }
            drawn.push((column, self.lane_at(tail), self.lane_at(tip)))?;
        }
        Ok(drawn)
    }
}

/// The band of the cell.
impl Reading<'_> {
    /// At the end of each column the band says what the cell is after the line.
    fn compare_band(&self) -> Result<(), Fail> {
        for column in 0..self.columns() {
            let x = self.begin(column.saturating_add(1)).saturating_sub(1);
            let wanted = match self.cell(column).split_once(' ') {
                None => "empty",
                Some(("held", _)) => "held",
                Some(_) => "set",
            };
            let is_here = |shape: &&Shape<'_>| {
                is_of_cell(shape) && shape.number(0) <= x && x < shape.right()
            };
            if self
                .shapes
                .iter()
                .find(is_here)
                .map_or("", |shape| shape.class)
                != wanted
            {
                return self.differs("the cell's band is of another kind", column);
            }
        }
        Ok(())
    }

    /// What the cell is after the line of a column.
    fn cell(&self, column: i64) -> &str {
        let place = self.line(column);
        match self.story.lines.get(place) {
            Some(line) => line.cell.as_str(),
            None => "",
        }
    }

    /// Each name of a holder, and each value, stands at the column of a line that makes it true.
    fn compare_names(&self, names: &mut u64) -> Result<(), Fail> {
        for shape in &self.shapes {
            let (text, column) = (shape.text, self.column(shape.number(0)));
            if !text.starts_with("held by ") && !text.starts_with("set: ") {
                continue;
            }
            if text != self.cell(column) && !self.is_claimed(column, text)? {
                return self.differs("a name of the cell's state is not true", column);
            }
            raise(names);
        }
        Ok(())
    }

    /// Whether a task claims in the line of this column, or held before the first, and has this name as a holder.
    fn is_claimed(&self, column: i64, name: &str) -> Result<bool, AllocError> {
        let line = self.line(column);
        for bar in &self.story.bars {
            let is_carried = column == 0 && bar.from < line && bar.to.is_none_or(|to| to >= line);
            if bar.class == "hold" && (bar.from == line || is_carried) {
                let number = self.story.tasks.get(bar.lane).map_or(0, |task| task.number);
                if format!(in self.alloc; "held by {number}")?.as_str() == name {
                    return Ok(true);
                }
            }
        }
        Ok(false)
    }
}
