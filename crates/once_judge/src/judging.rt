//! A judge of entries that come one by one.
ghost use Rattle.std.specs.Prelude.{◌≡◌, length};
ghost use Rattle.once_judge.specs.Shown.{Within, seen_of};

use crate::calls::Calls;
use crate::reason::Reason;
use crate::seen::Seen;
use crate::task::{Cell, Status, Task};
use once_machine::record::{Entry, Kind, Ran};
use std::alloc::{AllocError, Global};

/// A judge of entries that come one by one.
#[derive(Drop)]
pub struct Judge {
    seen: Seen,
    taken: Vec<Entry>,
    // What is kept is of so many entries.
    ghost within: { Within (seen_of seen) },
    ghost counts: { seen.entries ≡ length taken.items },
}

impl Judge {
    /// A judge that took nothing yet.
    pub fn new(alloc: Global, kind: &Kind, limit: u64, calls: Calls) -> Result<Judge, AllocError> {
        Ok(Judge {
            seen: Seen::new(alloc, kind, limit, calls)?,
            taken: Vec::new(alloc),
        })
    }

    /// Takes an entry if it may come next, and else tells why not.
    ///
    /// ```
    /// let (judge, refused) = judge.take(entry)?;
    /// ```
    pub fn take(mut self, entry: Entry) -> Result<(Judge, Option<Reason>), AllocError> {
        match self.seen.follow(&entry)? {
            None => {
                self.taken.push(entry)?;
                Ok((self, None))
            }
            refused => Ok((self, refused)),
        }
    }

    /// A task that waits for an empty cell while nobody was woken.
    pub fn forgotten(&self) -> Option<u64> {
        self.seen.forgotten()
    }

    /// What it took, the oldest entry first.
    pub fn into_taken(self) -> Vec<Entry> {
        self.taken
    }

    /// Whether the waker of the task's last poll was handed out since that poll ended.
    pub fn was_woken(&self, task: u64) -> bool {
        let task = self.seen.task(task);
        self.seen.was_handed(task.listed, task)
    }

    /// The wakers that a call may have woken: those of the tasks that wait and were not woken, and also of those in
    /// a call that they began so, unless only what is due is asked for.
    pub fn listed(&self, alloc: Global, due_alone: bool) -> Result<Vec<u64>, AllocError> {
        let mut wakers = Vec::new(alloc);
        for (_, task) in &self.seen.tasks.all {
            if self.may_be_woken(task, due_alone) && !wakers.contains(&task.listed) {
                wakers.push(task.listed)?;
            }
        }
        Ok(wakers)
    }

    // Whether a call may have woken this task.
    fn may_be_woken(&self, task: &Task, due_alone: bool) -> bool {
        is_listed(task, due_alone) && !self.seen.was_handed(task.listed, *task)
    }

    /// Numbers that tell all of what may come from here on: two judges with the same numbers take the same.
    pub fn digest(&self, alloc: Global) -> Result<Vec<u64>, AllocError> {
        let mut numbers = Vec::from_slice(alloc, &cell_numbers(self.seen.cell))?;
        numbers.push(self.seen.used as u64)?;
        for (number, task) in &self.seen.tasks.all {
            numbers.extend_from_slice(&self.task_numbers(*number, task))?;
        }
        self.push_times(&mut numbers)?;
        Ok(numbers)
    }

    // What is known of a task.
    fn task_numbers(&self, number: u64, task: &Task) -> [u64; 8] {
        let [answer, given] = answer_numbers(task.ran);
        [
            number,
            task.waker,
            task.listed,
            self.flags(number, task),
            status_number(task.status),
            status_number(task.began),
            answer,
            given,
        ]
    }

    // Each waker that may still be handed out, and how often.
    fn push_times(&self, numbers: &mut Vec<u64>) -> Result<(), AllocError> {
        for (waker, times) in &self.seen.times {
            if *times > 0 {
                numbers.extend_from_slice(&[*waker, *times])?;
            }
        }
        Ok(())
    }

    // What is so of a task or not, a bit for each.
    fn flags(&self, number: u64, task: &Task) -> u64 {
        let seen = &self.seen;
        let flags = [
            task.set_then,
            task.claimed,
            task.freed,
            task.passed,
            seen.was_handed(task.waker, *task),
            seen.was_handed(task.listed, *task),
            task.begun <= seen.other_held_at(number),
            task.begun <= seen.acting_at,
            task.begun <= seen.crowded_at,
        ];
        let mut sum = 0;
        for flag in flags {
            sum = (sum & 0xFFFF) * 2 + u64::from(flag);
        }
        sum
    }
}

fn cell_numbers(cell: Cell) -> [u64; 2] {
    match cell {
        Cell::Empty => [0, 0],
        Cell::Held(task) => [1, task],
        Cell::SetTo(value) => [2, value],
    }
}

fn answer_numbers(answer: Option<Ran>) -> [u64; 2] {
    match answer {
        None => [0, 0],
        Some(Ran::Pending) => [1, 0],
        Some(Ran::Value(value)) => [2, value],
        Some(Ran::Error(error)) => [3, error],
    }
}

fn status_number(status: Status) -> u64 {
    match status {
        Status::Unmade => 0,
        Status::Fresh => 1,
        Status::Polling => 2,
        Status::Dropping => 3,
        Status::Waiting => 4,
        Status::Holding => 5,
        Status::Gone => 6,
    }
}

// Whether a task waits, or is in a call that it began so and in which it did not claim.
fn is_listed(task: &Task, due_alone: bool) -> bool {
    match task.status {
        Status::Waiting => true,
        Status::Polling | Status::Dropping => {
            !due_alone && matches!(task.began, Status::Waiting) && !task.claimed
        }
        _ => false,
    }
}
