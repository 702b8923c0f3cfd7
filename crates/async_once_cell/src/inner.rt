//! What the tasks of a cell share, and their whole calls.
//!
//! A cell's word, its door and its queue change by steps of threads. Behind them stands a ghost book. Its pages have
//! what the machine of `once_machine` keeps, and its log is the record of the cell. A [`Hand`] is what one task holds
//! of the book, and a [`Desk`] is what lies under the cell's one lock.
//!
//! [`Inner`] is what the tasks of a cell share. [`Shared`] is that as one task uses it: each of its calls is one moment
//! of the machine, and turns the task's page as the table of places says. A [`Task`] makes whole polls and drops of
//! such steps. So the record that a task has seen is a run of the cell, and at each of its beginnings somebody was
//! woken if somebody had to be, which does not follow from the first. Begin with `book`, which ties the rule to the
//! words, and with `Act` of `hand`, which names the moves without the lock.
pub mod book;
pub mod desk;
pub mod hand;
pub mod pollable;
pub mod shared;
pub mod task;
mod ways;

pub use book::{CellRule, Leaf, Line, Record};
pub use desk::Desk;
pub use hand::{Hand, Mark, TaskWaker};
pub use once_machine::memory::{NoCopy, NoMemory};
pub use once_machine::parts::{Counted, Parts};
pub use once_machine::word::{MAX_WAITERS, NEW, QINIT_BIT, READY_BIT};
pub use pollable::Pollable;
pub use shared::{Inner, Shared};
pub use task::{Failed, Gives, Init, Task, TaskSide, Yields};
