//! Tasks that wait for a value, and give up.

use crate::slow::Slow;
use async_once_cell::{InitFuture, OnceCell, Refused};
use futures::Future;
use futures::executor::block_on;
use futures::future::join3;
use futures::task::{Context, Poll};
use std::alloc::AllocGlobal;
use std::io;
use std::random::RandomSource;
use std::sync::Wait;

/// A wait that is given up after so many polls. It gives the value, or None.
#[derive(Drop)]
struct GivesUp<'a, R: Wait + AllocGlobal> {
    future: Option<InitFuture<'a, u64, Slow, R>>,
    polls: u64,
}

impl<'a, R: Wait + AllocGlobal> GivesUp<'a, R> {
    fn new(rt: &'a R, cell: &'a OnceCell<u64>, init: Slow, polls: u64) -> Self {
        GivesUp {
            future: Some(cell.get_or_init(rt, init)),
            polls,
        }
    }
}

impl<R: Wait + AllocGlobal> Future for GivesUp<'_, R> {
    type Output = Result<Option<u64>, Refused>;

    fn poll(&mut self, cx: &mut Context<'_>) -> Poll<Result<Option<u64>, Refused>> {
        let Some(future) = &mut self.future else {
            return Poll::Ready(Ok(None));
        };
        if let Poll::Ready(answer) = Future::poll(future, cx) {
            return Poll::Ready(told(answer));
        }
        self.polls = self.polls.saturating_sub(1);
        if self.polls == 0 {
            self.future = None; // dropped: the others go on without it
            return Poll::Ready(Ok(None));
        }
        cx.yield_now() // polled again at once; a program would have a timer call it
    }
}

// What a future answered.
fn told(answer: Result<&u64, Refused>) -> Result<Option<u64>, Refused> {
    Ok(Some(*answer?))
}

/// What three tasks are told that ask one cell. The first holds the right and gives up, and so does the second, which
/// waits. Then the third runs its own init.
pub fn ask_thrice<R>(rt: &R) -> io::Result<[Result<Option<u64>, Refused>; 3]>
where
    R: Wait + RandomSource + AllocGlobal,
{
    let cell = OnceCell::new();
    let holder = GivesUp::new(rt, &cell, Slow::new(9, 1), 2);
    let waiter = GivesUp::new(rt, &cell, Slow::new(9, 2), 1);
    let other = GivesUp::new(rt, &cell, Slow::new(3, 3), 9);
    let (first, second, third) = block_on(rt, join3(holder, waiter, other))?;
    Ok([first, second, third])
}
