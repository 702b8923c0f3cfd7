//! The inits of a `OnceCell`.

use futures::Future;
use futures::task::{Context, Poll};
use once_script::world::Ran;
use std::cell::Cell;

/// What inits answer that are polled.
pub type Answer = Cell<Ran>;

/// An init that answers what stands here when it is polled.
#[derive(Drop)]
pub struct Told<'a> {
    answer: &'a Answer,
}

impl<'a> Told<'a> {
    pub fn new(answer: &'a Answer) -> Self {
        Told { answer }
    }
}

impl Future for Told<'_> {
    type Output = Result<u64, u64>;

    fn poll(&mut self, cx: &mut Context<'_>) -> Poll<Result<u64, u64>> {
        match self.answer.get() {
            Ran::Pending => cx.yield_now(),
            Ran::Value(value) => Poll::Ready(Ok(value)),
            Ran::Error(error) => Poll::Ready(Err(error)),
        }
    }
}
