//! An init that is told when to give its value, and one that fails.
use futures::Future;
use futures::task::{Context, Poll};
use std::cell::Cell;
use std::mem::replace;

/// Is pending while its switch is off, and gives 1 once it is on.
#[derive(Drop)]
pub struct Switched<'a> {
    switch: &'a Cell<bool>,
}

impl<'a> Switched<'a> {
    pub fn new(switch: &'a Cell<bool>) -> Switched<'a> {
        Switched { switch }
    }
}

impl Future for Switched<'_> {
    type Output = u64;

    fn poll(&mut self, cx: &mut Context<'_>) -> Poll<u64> {
        if self.switch.get() {
            return Poll::Ready(1);
        }
        cx.yield_now()
    }
}

/// Is pending once, and then fails with 1.
#[derive(Drop)]
pub struct Failing {
    was_polled: bool,
}

impl Failing {
    pub fn new() -> Failing {
        Failing { was_polled: false }
    }
}

impl Future for Failing {
    type Output = Result<u64, u64>;

    fn poll(&mut self, cx: &mut Context<'_>) -> Poll<Result<u64, u64>> {
        if replace(&mut self.was_polled, true) {
            return Poll::Ready(Err(1));
        }
        cx.yield_now()
    }
}
