//! What the crates of tests share, and what needs none of the library: a machine without memory, a writer that fails,
//! what a Debug text shows, also of a cell that nobody uses, and the reader of worked schedules.
//!
//! The proofs of the tests wait for this crate, which waits for no other.
#![tactic(auto)]

pub mod left;
pub mod memory;
pub mod schedule;
pub mod target;
pub mod text;
