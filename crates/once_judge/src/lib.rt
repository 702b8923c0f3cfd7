//! Judges records: whether a record is a run of a cell, and whether in it somebody is woken whenever somebody has to
//! be.
//!
//! `judge` goes along the record once. What it keeps of the entries so far is a `Seen`: the cell, each task with its
//! last call, and some numbers for what was so since a poll began. `rules` decides by it whether the next entry may
//! come, and gives the reason if not. A `Judge` does the same for entries that come one by one. The crate
//! `once_view` has the words of a verdict.
#![tactic(auto)]

mod calls;
mod judging;
mod living;
mod reason;
mod rules;
mod seen;
mod task;
mod verdict;

pub use calls::{Calls, one_or_all};
pub use judging::Judge;
pub use reason::{CallFact, Reason, WakersFact};
pub use task::{Cell, Status, task_of};
pub use verdict::{Fault, Forgotten, Verdict, judge};
