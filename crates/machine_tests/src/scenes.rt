//! Tasks over the parts that threads share, each walked one step at a time, by scenes that were worked by hand.

mod gated;
mod rows;
mod stranded;
pub mod walker;
