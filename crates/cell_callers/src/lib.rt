//! What a caller of the cells can say: functions with contracts of a line or two, which follow from those of the
//! library. Each body is a call or two. Take one as an example, or its contract for a function of your own.
//!
//! Each has an edit in `must-fail`, with which it does something else than it says. The search finds the proofs; an
//! answer in `proofs` is there only so that it ends soon where an edit leaves nothing to find.
#![tactic(auto)]

pub mod executors;
pub mod lazy;
pub mod leave;
pub mod look;
pub mod owner;
pub mod poll;
pub mod promise;
pub mod token;
pub mod wait;
