//! Why an entry may not come next.

use crate::task::{Cell, Status};
use once_machine::record::Ran;

/// Why an entry may not come next: something that is so, and by which a rule forbids the entry.
#[derive(Clone, Copy, Debug, Drop, PartialEq, Eq)]
pub enum Reason {
    /// The task is at this.
    TaskIs(u64, Status),
    /// The cell is this.
    CellIs(Cell),
    /// This is so of the call that the task is in.
    OfCall(u64, CallFact),
    /// This is so of the wakers that the entry hands out.
    OfWakers(WakersFact),
    /// The init of the lazy cell answers this next.
    NextAnswer(Ran),
    /// The init of the lazy cell has so many answers left.
    AnswersLeft(usize),
    /// A cell of this kind has no such call.
    NoSuchCall,
}

/// Something that is so of a call of a task.
#[derive(Clone, Copy, Debug, Drop, PartialEq, Eq)]
pub enum CallFact {
    /// The init answered so in it, or was not polled.
    InitAnswered(Option<Ran>),
    /// The task claimed in it.
    Claimed,
    /// The task passed its turn on in it.
    Passed,
    /// The task did not free the cell in it.
    NotFreed,
    /// Since it began nothing was so for which memory may be refused.
    NoCauseForMemory,
    /// Since it began its crowd never had as many tasks as the limit.
    NoCrowd,
    /// It is not the first poll of the task.
    NotFirstPoll,
}

/// Something that is so of the wakers that an entry hands out.
#[derive(Clone, Copy, Debug, Drop, PartialEq, Eq)]
pub enum WakersFact {
    /// This one is among them, and no poll is left that opened it.
    NotOpen(u64),
    /// This one is among them twice.
    Twice(u64),
    /// This task waits, and its waker, which is the second number, is due and not among them.
    Due(u64, u64),
    /// They are so many.
    Count(usize),
}
