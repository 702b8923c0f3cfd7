//! What a picture is made of. A time is a number of ticks, and a lane its number from the top.
use super::svg::Label;
use once_script::world::{Ran, Reply};
use std::alloc::{AllocError, Global};

/// What the cell is.
#[derive(Clone, Copy)]
pub enum CellState {
    Empty,
    /// This task holds the right.
    Held(u64),
    Set(u64),
}

impl CellState {
    /// How it is shown.
    pub fn label(self) -> Label {
        match self {
            CellState::Empty => Label::of("empty"),
            CellState::Held(task) => Label::with("held by ", task),
            CellState::Set(value) => Label::with("set: v", value),
        }
    }
}

/// A stretch of time in a lane.
#[derive(Clone, Copy)]
pub struct Span {
    pub lane: u64,
    pub from: u64,
    pub to: u64,
}

/// One shape of a picture.
#[derive(Clone, Copy)]
pub enum Shape {
    /// A task waits.
    Wait(Span),
    /// A poll of a task.
    TaskPoll(Span),
    /// A drop of a task.
    TaskDrop(Span),
    /// A task holds the right.
    Hold(Span),
    /// An init was polled, and answered so.
    InitPoll {
        lane: u64,
        at: u64,
        answer: Ran,
    },
    /// A poll of a task ended for good.
    Reply {
        lane: u64,
        at: u64,
        reply: Reply,
    },
    /// The task of one lane woke that of another.
    Wake {
        at: u64,
        caller: u64,
        called: u64,
    },
    /// The cell was in this state.
    Cell {
        from: u64,
        to: u64,
        state: CellState,
    },
    /// A look found this.
    Look {
        at: u64,
        value: Option<u64>,
    },
    /// The owner made this call.
    Owner {
        at: u64,
        word: &'static str,
    },
}

impl Shape {
    /// The layer in which it is drawn. Later layers hide earlier ones.
    pub fn layer(&self) -> u64 {
        match self {
            Shape::Cell { .. } | Shape::Wait(_) => 0,
            Shape::TaskPoll(_) | Shape::TaskDrop(_) => 1,
            Shape::Hold(_) | Shape::Look { .. } | Shape::Owner { .. } => 2,
            Shape::Wake { .. } => 3,
            Shape::InitPoll { .. } | Shape::Reply { .. } => 4,
        }
    }
}

/// How many layers there are.
pub const LAYERS: u64 = 5;

/// The shapes of a picture, which come one after the other. It remembers if memory was refused for one.
#[derive(Drop)]
pub struct Shapes {
    shapes: Vec<Shape>,
    is_refused: bool,
}

impl Shapes {
    pub fn new(alloc: Global) -> Self {
        Shapes {
            shapes: Vec::new(alloc),
            is_refused: false,
        }
    }

    pub fn add(&mut self, shape: Shape) {
        if self.shapes.push(shape).is_err() {
            self.is_refused = true;
        }
    }

    /// Lets go of the shapes so far.
    pub fn clear(&mut self) {
        self.shapes.clear();
    }

    pub fn as_slice(&self) -> &[Shape] {
        &self.shapes
    }

    /// Sees that no shape is lacking.
    pub fn check(&self) -> Result<(), AllocError> {
        if self.is_refused {
            return Err(AllocError);
        }
        Ok(())
    }
}
