//! An init that takes a while.

use futures::Future;
use futures::task::{Context, Poll};

/// An init that is Pending so often, and then gives its number. After each poll others may run.
#[derive(Drop)]
pub struct Slow {
    pending: u64,
    number: u64,
}

impl Slow {
    /// An init that gives this number after so many polls.
    pub fn new(pending: u64, number: u64) -> Self {
        Slow { pending, number }
    }
}

impl Future for Slow {
    type Output = u64;

    fn poll(&mut self, cx: &mut Context<'_>) -> Poll<u64> {
        match self.pending.checked_sub(1) {
            None => Poll::Ready(self.number),
            Some(left) => {
                self.pending = left;
                cx.yield_now()
            }
        }
    }
}
