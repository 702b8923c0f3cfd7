//! Callers of the machine, of `replay` over it, and of the judge: what a program may rest on, each said by a small
//! function that makes the call.
//!
//! - `waiting`: what a section under the lock does with the waiters.
//! - `stepping`: one step of a task over a core.
//! - `parts`: parts of one's own, which pass each call on to a core.
//! - `replaying`: the record of a list of inputs, and a replay that takes them one at a time.
//! - `judging`: what a verdict says of a record.
//! - `rules`: the rules of a run, each with a record that breaks it or keeps it.
//!
//! The search finds the proofs of all but two. An answer of one tactic in `proofs` is there only so that the search
//! ends soon where an edit in `must-fail` leaves nothing to find. It is for a goal of one name, so an edit that has
//! branches of its own joins them before a last call.
#![tactic(auto)]

pub mod judging;
pub mod parts;
pub mod replaying;
pub mod rules;
pub mod stepping;
pub mod waiting;
