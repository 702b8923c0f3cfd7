//! The machine of a cell: its word, its waiters, the steps of a task, and the record of all that tasks do,
//! with the rules and laws of every run.
#![tactic(auto)]

pub mod laws;
pub mod log;
pub mod memory;
pub mod parts;
pub mod record;
mod slots;
pub mod step;
pub mod task;
pub mod waiters;
pub mod word;
