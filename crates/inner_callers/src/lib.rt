//! Callers of what lies below a cell's futures: the calls of one task, of what it shares with the others, and of the
//! side and the init that it brings. Each is a small function or a type that makes the call and says what it rests on.
//!
//! - `parts`: counting in and the sections of a task that makes single steps.
//! - `init`: a poll of an init.
//! - `side`: a side of one's own, which passes each call on to another.
//! - `task`: whole polls and drops.
#![tactic(auto)]

pub mod init;
pub mod parts;
pub mod side;
pub mod task;
