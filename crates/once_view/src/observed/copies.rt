//! Copies of entries.

use once_machine::record::{Entry, Got};
use std::alloc::{AllocError, Global};

/// A copy of this entry.
pub fn copy_of(alloc: Global, entry: &Entry) -> Result<Entry, AllocError> {
    match entry {
        Entry::Made(task) => Ok(Entry::Made(*task)),
        Entry::Begin(task, waker) => Ok(Entry::Begin(*task, *waker)),
        Entry::Claim(task) => Ok(Entry::Claim(*task)),
        Entry::Ran(task, answer) => Ok(Entry::Ran(*task, *answer)),
        Entry::Free(task, wakers) => Ok(Entry::Free(*task, Vec::from_slice(alloc, wakers)?)),
        Entry::Fill(task, v, wakers) => {
            Ok(Entry::Fill(*task, *v, Vec::from_slice(alloc, wakers)?))
        }
        Entry::Pass(task, wakers) => Ok(Entry::Pass(*task, Vec::from_slice(alloc, wakers)?)),
        Entry::End(task, reply) => Ok(Entry::End(*task, *reply)),
        Entry::DropBegin(task) => Ok(Entry::DropBegin(*task)),
        Entry::DropEnd(task) => Ok(Entry::DropEnd(*task)),
        Entry::Look(found) => Ok(Entry::Look(*found)),
        Entry::Own(call, got) => Ok(Entry::Own(call.clone()?, copy_of_got(alloc, got)?)),
    }
}

fn copy_of_got(alloc: Global, got: &Got) -> Result<Got, AllocError> {
    match got {
        Got::None => Ok(Got::None),
        Got::Value(value) => Ok(Got::Value(*value)),
        Got::Answers(answers) => Ok(Got::Answers(Vec::from_slice(alloc, answers)?)),
    }
}
