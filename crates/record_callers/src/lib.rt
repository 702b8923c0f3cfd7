//! What a caller of the cells can say of a cell's record, as far as a token or a future has seen it: what `is_run`
//! promises of it, what laws of all runs make of that, and which task has the right.
//!
//! Each function has an edit in `must-fail`, with which it does something else than it says. The search finds the
//! proofs.
#![tactic(auto)]

pub mod holder;
pub mod laws;
pub mod record;
