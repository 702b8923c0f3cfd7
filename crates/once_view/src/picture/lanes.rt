//! The lanes of the tasks, and what is open in each.
use super::shape::{Shape, Shapes, Span};
use std::alloc::{AllocError, Global};
use std::collections::BTreeMap;

/// The lane of a task, with the times since which something is under way there.
#[derive(Clone, Copy)]
pub struct Lane {
    pub task: u64,
    pub made: u64,
    /// When the task went, if it did.
    pub gone: Option<u64>,
    /// How many lanes are above.
    number: u64,
    call: Option<u64>,
    is_drop: bool,
    waits: Option<u64>,
    holds: Option<u64>,
}

impl Lane {
    fn span(&self, from: u64, to: u64) -> Span {
        Span {
            lane: self.number,
            from,
            to,
        }
    }

    /// Adds what is still open, as it is drawn if it lasts until this time.
    pub fn add_open(&self, at: u64, shapes: &mut Shapes) {
        if let Some(from) = self.waits {
            shapes.add(Shape::Wait(self.span(from, at)));
        }
        if let Some(from) = self.call {
            let span = self.span(from, at);
            let call = if self.is_drop {
                Shape::TaskDrop(span)
            } else {
                Shape::TaskPoll(span)
            };
            shapes.add(call);
        }
        if let Some(from) = self.holds {
            shapes.add(Shape::Hold(self.span(from, at)));
        }
    }
}

/// The lanes, in the order in which their tasks were made.
#[derive(Drop)]
pub struct Lanes {
    lanes: Vec<Lane>,
    /// The number of each task's lane.
    numbers: BTreeMap<u64, usize>,
}

impl Lanes {
    pub fn new(alloc: Global) -> Self {
        Lanes {
            lanes: Vec::new(alloc),
            numbers: BTreeMap::new(alloc),
        }
    }

    pub fn as_slice(&self) -> &[Lane] {
        &self.lanes
    }

    /// A new lane.
    pub fn add(&mut self, task: u64, at: u64) -> Result<(), AllocError> {
        self.numbers.insert(task, self.lanes.len())?;
        self.lanes.push(Lane {
            task,
            made: at,
            gone: None,
            number: self.lanes.len() as u64,
            call: None,
            is_drop: false,
            waits: None,
            holds: None,
        })?;
        Ok(())
    }

    /// Lets go of the lanes whose tasks are gone.
    pub fn forget_gone(&mut self) -> Result<(), AllocError> {
        self.lanes.retain(|lane| lane.gone.is_none());
        self.numbers.clear();
        for (number, lane) in self.lanes.iter_mut().enumerate() {
            lane.number = number as u64;
            self.numbers.insert(lane.task, number)?;
        }
        Ok(())
    }

    /// The number of a task's lane.
    pub fn number_of(&self, task: u64) -> u64 {
        self.numbers.get(&task).map_or(0, |number| *number as u64)
    }

    fn lane(&mut self, task: u64) -> Option<&mut Lane> {
        self.lanes.get_mut(*self.numbers.get(&task)?)
    }

    /// A poll begins, or a drop. Answers how long the task had waited, if it had.
    pub fn begin(&mut self, task: u64, at: u64, is_drop: bool) -> Option<Span> {
        let lane = self.lane(task)?;
        lane.call = Some(at);
        lane.is_drop = is_drop;
        let waited = lane.waits.take()?;
        Some(lane.span(waited, at))
    }

    /// The call of the task ends.
    pub fn end(&mut self, task: u64, at: u64) -> Option<Span> {
        let lane = self.lane(task)?;
        let began = lane.call.take()?;
        Some(lane.span(began, at))
    }

    /// The task waits from now on, unless it holds the right.
    pub fn wait(&mut self, task: u64, at: u64) {
        if let Some(lane) = self.lane(task) {
            if lane.holds.is_none() {
                lane.waits = Some(at);
            }
        }
    }

    /// The task holds the right from now on.
    pub fn hold(&mut self, task: u64, at: u64) {
        if let Some(lane) = self.lane(task) {
            lane.holds = Some(at);
        }
    }

    /// The task gives the right back. Answers how long it had it.
    pub fn release(&mut self, task: u64, at: u64) -> Option<Span> {
        let lane = self.lane(task)?;
        let held = lane.holds.take()?;
        Some(lane.span(held, at))
    }

    /// The task is gone.
    pub fn leave(&mut self, task: u64, at: u64) {
        if let Some(lane) = self.lane(task) {
            lane.gone = Some(at);
        }
    }
}
