//! A task of a cell that makes whole calls. In the middle of a step it may use another.
ghost use Rattle.std.specs.Prelude.{◌≡◌, ◌↔◌, IfOk, false};
ghost use Rattle.async_once_cell.specs.Inner.Sides.{IsReady};
ghost use Rattle.async_once_cell.specs.Record.{EndsSet};

use crate::bell::{Bell, Cell};
use crate::side::{Act, Nobody, Note, Other, TestSide};
use async_once_cell::inner::Task;
use once_machine::step::{Ending, Polled};
use std::alloc::AllocGlobal;
use std::io;
use std::random::RandomSource;
use std::sync::Wait;

/// The value that a call gives or how else it ends, None if the task was finished before; and what its side noted since
/// the call before, None if a note was lost.
pub type Called = (Option<Result<u64, Ending>>, Option<Vec<Note>>);

/// A task, and its side.
#[derive(Drop)]
pub struct Caller<'a, 'r, R, O: Other = Nobody> {
    pub task: Task<'a, 'r, u64, Bell, R>,
    pub side: TestSide<O>,
    /// How the last call ended that another task's side had it make.
    pub heard: Option<Ending>,
    pub ghost same: { side.number ≡ task.number },
    // The init is there, and gave no value, until the task is finished.
    pub ghost has_init: { task.finished ≡ false → IsReady side },
}

impl<'a, 'r, R: Wait + AllocGlobal> Caller<'a, 'r, R> {
    /// A new task of this name, whose init answers so. If that gives a value, it gives the name.
    pub fn new(cell: &'a Cell, rt: &'r R, name: u64, answer: Polled) -> io::Result<Self>
    where
        R: RandomSource,
        ensures { IfOk result (λ c. c.task.finished ≡ false) }
    {
        let task = Task::new(cell, rt);
        let side = TestSide::new(rt, name, task.mark(), answer)?;
        let heard = None;
        Ok(Caller { task, side, heard })
    }
}

impl<'a, 'r, R: Wait + AllocGlobal, O: Other> Caller<'a, 'r, R, O> {
    /// A new task of this name, whose init is Pending, and whose side uses another task.
    pub fn over(cell: &'a Cell, rt: &'r R, name: u64, other: O) -> io::Result<Self>
    where
        R: RandomSource,
    {
        let task = Task::new(cell, rt);
        let side = TestSide::over(rt, name, task.mark(), Polled::Pending, other)?;
        let heard = None;
        Ok(Caller { task, side, heard })
    }

    // Its init answers so from now on, and memory for a copy of the waker is given or not.
    fn answers(&mut self, answer: Polled, is_granted: bool)
        ensures { self.new.task ≡ self.old.task }
    {
        self.side.answers(answer, is_granted);
    }

    // A poll.
    fn poll(&mut self) -> Ending
        requires { self.old.task.finished ≡ false }
        ensures finished { (result ≡ Ending.Pending) ↔ (self.new.task.finished ≡ false) }
        ensures set { result ≡ Ending.Value → EndsSet self.new.task.number self.new.task.log }
    {
        self.side.begin();
        self.task.poll(&mut self.side)
    }

    // The value, after a poll that answered it.
    fn value(&self) -> u64
        requires { EndsSet self.now.task.number self.now.task.log }
    {
        let (value, _) = self.task.value();
        *value
    }

    // A poll, and how it ends.
    fn polled(&mut self) -> Option<Result<u64, Ending>> {
        if self.task.is_finished() {
            return None;
        }
        match self.poll() {
            Ending::Value => Some(Ok(self.value())),
            ending => Some(Err(ending)),
        }
    }

    /// A poll in which the init answers this, and memory for a copy of the waker is given or not.
    pub fn called(&mut self, answer: Polled, is_granted: bool) -> Called {
        self.answers(answer, is_granted);
        self.called_again()
    }

    /// A poll in which the init answers as before.
    pub fn called_again(&mut self) -> Called {
        let ended = self.polled();
        (ended, self.side.take())
    }

    // A drop, and how it ends.
    fn left(&mut self) -> Option<Result<u64, Ending>> {
        if self.task.is_finished() {
            return None;
        }
        self.side.begin();
        self.task.leave(&mut self.side);
        Some(Err(Ending::Dropped))
    }

    /// A drop.
    pub fn dropped(&mut self) -> Called {
        let ended = self.left();
        (ended, self.side.take())
    }
}

impl<'a, 'r, R: Wait + AllocGlobal> Caller<'a, 'r, R, Caller<'a, 'r, R>> {
    /// A poll of the other task, by its caller.
    pub fn other_called(&mut self, answer: Polled, is_granted: bool) -> Called {
        self.side.other.called(answer, is_granted)
    }

    /// How the last call of the other task ended that this one made, and what the other's side noted since it was last
    /// asked.
    pub fn other_heard(&mut self) -> (Option<Ending>, Option<Vec<Note>>) {
        let other = &mut self.side.other;
        (other.heard, other.side.take())
    }
}

impl<R: Wait + AllocGlobal> Other for Caller<'_, '_, R> {
    fn obey(&mut self, act: Act) {
        if self.task.is_finished() {
            return;
        }
        match act {
            Act::Nothing => {}
            Act::Poll => self.heard = Some(self.poll()),
            Act::Leave => {
                let _ = self.left();
                self.heard = Some(Ending::Dropped);
            }
        }
    }
}
