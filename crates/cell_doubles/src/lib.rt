//! What the tests of cells share: what a poll of a cell's future answered, and the tasks that poll.
//!
//! It waits for the cells alone. What needs no cell is in `test_doubles`.
#![tactic(auto)]

pub mod poll;
