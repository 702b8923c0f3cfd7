//! A task over the parts that threads share, walked one step at a time.
ghost use Rattle.std.specs.Prelude.{◌≡◌, true};
ghost use Rattle.once_machine.specs.Steps.{is_resting};
ghost use Rattle.async_once_cell.specs.Inner.Shares.{own};
ghost use Rattle.async_once_cell.specs.Inner.Sides.{IsReady};
ghost use Rattle.async_once_cell.specs.Walks.{StandsOn};
ghost use Rattle.machine_tests.specs.Goes.{Goes, Goes-prop};

use crate::bell::{Bell, Cell};
use crate::side::{Note, TestSide};
use async_once_cell::inner::Shared;
use once_machine::step::{Polled, Progress, Step};
use std::alloc::AllocGlobal;
use std::io;
use std::random::RandomSource;
use std::sync::Wait;

/// A task over shared parts, with its side. Between two of its steps other tasks may make theirs.
#[derive(Drop)]
pub struct Walker<'a, 'r, R> {
    parts: Shared<'a, 'r, u64, Bell, R>,
    step: Step<Bell, ()>,
    side: TestSide,
    // What the last step told, and whether the call under way is a drop.
    told: Progress,
    is_drop: bool,
    ghost same: { side.number ≡ (own parts).number },
    // A call that is under way has come so far, and where the next one begins the task stands as its page says.
    ghost goes: { Goes side (own parts) (λ b. b.mark.value) is_drop told step } by { Goes-prop side (own parts)
        (λ b. b.mark.value) is_drop told step },
    // Its init is there when a call begins, and gave no value.
    ghost has_init: { is_resting step ≡ true → IsReady side },
    ghost rests: { is_resting step ≡ true → StandsOn (λ b. b.mark.value) (own parts) step },
}

impl<'a, 'r, R: Wait + AllocGlobal> Walker<'a, 'r, R> {
    /// A new task of the cell, of this name.
    pub fn new(cell: &'a Cell, rt: &'r R, name: u64) -> io::Result<Self>
    where
        R: RandomSource,
    {
        let parts = cell.task(rt);
        let side = TestSide::new(rt, name, parts.mark(), Polled::Pending)?;
        Ok(Walker {
            parts,
            step: Step::new(),
            side,
            told: Progress::More,
            is_drop: false,
        })
    }

    /// Where the task stands.
    pub fn step(&self) -> &Step<Bell, ()> {
        &self.step
    }

    /// The same in words.
    pub fn stage(&self) -> &'static str {
        if self.step.is_resting() {
            "rests"
        } else if self.step.is_finished() {
            "finished"
        } else {
            "goes on"
        }
    }

    /// What its side noted since this was last asked; `None` says that a note was lost.
    pub fn take_notes(&mut self) -> Option<Vec<Note>> {
        self.side.take()
    }

    /// Begins a poll, if the task rests.
    pub fn poll(&mut self) {
        if !self.step.is_resting() {
            return;
        }
        self.side.begin();
        self.parts.begin();
        self.step.begin();
        (self.told, self.is_drop) = (Progress::More, false);
    }

    /// Begins a drop, if the task rests. `false` says that there is no step to make.
    pub fn begin_drop(&mut self) -> bool {
        if !self.step.is_resting() {
            return false;
        }
        self.side.begin();
        self.parts.begin_drop();
        (self.told, self.is_drop) = (Progress::More, true);
        self.step.begin_drop(&mut self.side)
    }

    /// Makes one step of the call that is under way: an init that is polled answers so, and memory for a copy of the
    /// waker is given or not. `None` says that no call is under way.
    pub fn go(&mut self, answer: Polled, is_granted: bool) -> Option<Progress> {
        if self.step.left() == 0 {
            return None;
        }
        self.side.answers(answer, is_granted);
        self.told = self
            .parts
            .one_step(&mut self.step, &mut self.side, self.told);
        Some(self.told)
    }
}
