//! Whole calls of tasks, by scenes that were worked by hand.

pub mod caller;
mod hostile;
mod walks;
