//! A cell under test, and the waker of its tasks.
ghost use Rattle.std.specs.Prelude.{◌≡◌};

use async_once_cell::inner::{Inner, Mark, TaskWaker};
use once_machine::waiters::{Listing, WakerId};
use std::alloc::{AllocError, Global};
use std::snapshot::Snapshot;

/// What the tasks of a cell share. The value is the name of the task that gave it.
pub type Cell = Inner<u64, Bell>;

/// A waker: the number that a test gives its task, and the task's mark.
#[derive(Drop)]
pub struct Bell {
    pub task: u64,
    pub mark: Snapshot<Mark>,
}

impl Bell {
    /// A waker of this task, which has this mark.
    pub fn new(task: u64, mark: &Mark) -> Bell
        ensures { result.mark.value ≡ mark.now }
    {
        Bell {
            task,
            mark: Snapshot::of(mark),
        }
    }
}

impl WakerId for Bell {
    ghost use Rattle.std.specs.Prelude.{⊤};

    ghost tells_same = { λ _ _. ⊥ };

    ghost tells_other = { λ _ _. ⊤ };

    fn are_all_other() -> bool {
        true
    }

    fn same(&self, other: &Bell) -> bool {
        let _ = other;
        false
    }
}

impl TaskWaker for Bell {
    ghost whose = { λ b. b.mark.value };

    ghost apart = { λ a b e. e };
}

/// The listings of all whom a section wakes, each with its ticket, and its task if that was not woken before.
pub fn named(
    alloc: Global,
    listings: &[Listing<Bell>],
) -> Result<Vec<(u64, Option<u64>)>, AllocError> {
    let mut named = Vec::new(alloc);
    for listing in listings {
        named.push((listing.ticket, task_of(&listing.waker)))?;
    }
    Ok(named)
}

/// Whose this bell is.
pub fn task_of(bell: &Option<Bell>) -> Option<u64> {
    match bell {
        Some(bell) => Some(bell.task),
        None => None,
    }
}
