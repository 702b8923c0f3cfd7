//! Calls that a cell and a replay make in turn.

use once_script::parse::Line;
use once_script::world::{Input, Ran};
use std::alloc::{AllocError, Global};

/// A call from its beginning to its end.
#[derive(Debug, Drop)]
pub struct Whole {
    pub input: Input,
    /// What an init answers that is polled.
    pub answer: Ran,
    /// Whether there is memory.
    pub is_granted: bool,
}

impl Whole {
    /// A call that polls no init.
    pub fn new(input: Input) -> Self {
        Whole {
            input,
            answer: Ran::Pending,
            is_granted: true,
        }
    }

    /// The task that makes the call, or 0 if none does.
    pub fn task(&self) -> u64 {
        match &self.input {
            Input::Make(task) | Input::Poll(task, _) | Input::Drop(task) | Input::Go(task, _, _) =>
                { *task }
            Input::Look | Input::Own(_) => 0,
        }
    }
}

/// A call in whose middle others are made.
#[derive(Debug, Drop)]
pub struct Row {
    pub whole: Whole,
    /// How many steps come before the others.
    pub steps: u64,
    pub meanwhile: Vec<Whole>,
}

impl Row {
    /// One in whose middle nothing happens.
    pub fn new(alloc: Global, whole: Whole) -> Self {
        Row {
            whole,
            steps: 0,
            meanwhile: Vec::new(alloc),
        }
    }
}

/// Reads the lines of a script, one after the other.
#[derive(Drop)]
pub struct Reader {
    alloc: Global,
    pub rows: Vec<Row>,
    // The call that was begun, and the one in its middle.
    outer: Option<Row>,
    inner: Option<Input>,
}

impl Reader {
    pub fn new(alloc: Global) -> Self {
        Reader {
            alloc,
            rows: Vec::new(alloc),
            outer: None,
            inner: None,
        }
    }

    pub fn read(&mut self, line: Line) -> Result<(), AllocError> {
        match line {
            Line::Run(_, answer, is_granted) => self.end(answer, is_granted),
            Line::Single(Input::Go(_, _, _)) => {
                if let Some(row) = &mut self.outer {
                    row.steps = row.steps.saturating_add(1);
                }
                Ok(())
            }
            Line::Single(input) => self.begin(input),
        }
    }

    // A poll or a drop goes on until its `run`, and each other call is made at once.
    fn begin(&mut self, input: Input) -> Result<(), AllocError> {
        if matches!(input, Input::Poll(_, _) | Input::Drop(_)) {
            if self.outer.is_some() {
                self.inner = Some(input);
            } else {
                self.outer = Some(Row::new(self.alloc, Whole::new(input)));
            }
            return Ok(());
        }
        let whole = Whole::new(input);
        match &mut self.outer {
            Some(row) => row.meanwhile.push(whole)?,
            None => self.rows.push(Row::new(self.alloc, whole))?,
        }
        Ok(())
    }

    // A `run` ends the call that was begun last.
    fn end(&mut self, answer: Ran, is_granted: bool) -> Result<(), AllocError> {
        if let (Some(input), Some(row)) = (self.inner.take(), &mut self.outer) {
            row.meanwhile.push(Whole {
                input,
                answer,
                is_granted,
            })?;
            return Ok(());
        }
        self.end_outer(answer, is_granted)
    }

    fn end_outer(&mut self, answer: Ran, is_granted: bool) -> Result<(), AllocError> {
        let Some(mut row) = self.outer.take() else {
            return Ok(());
        };
        row.whole.answer = answer;
        row.whole.is_granted = is_granted;
        self.rows.push(row)?;
        Ok(())
    }
}
