//! A task, as the machine keeps it.

use crate::record::Ran;
use crate::step::Step;

/// A task: the waker of its last poll, what its init gave, and its step.
#[derive(Drop)]
pub struct Task {
    /// The waker of its last poll.
    pub waker: u64,
    /// What its init gave.
    pub kept: Ran,
    /// The step at which it stands.
    pub step: Step<u64, u64>,
}
