//! A cell that owns its init, which owns what it needs.

use super::own_error::Fault;
use async_once_cell::Lazy;
use futures::Future;
use futures::task::{Context, Poll};
use std::alloc::AllocGlobal;
use std::random::RandomSource;
use std::sync::Wait;

/// The sum of the numbers below `end`, of which a poll adds one.
#[derive(Drop)]
struct Sum {
    next: u64,
    end: u64,
    sum: u64,
}

impl Future for Sum {
    type Output = u64;

    fn poll(&mut self, cx: &mut Context<'_>) -> Poll<u64> {
        if self.next >= self.end {
            return Poll::Ready(self.sum);
        }
        self.sum = self.sum.wrapping_add(self.next);
        self.next += 1;
        cx.yield_now()
    }
}

/// What is there before the first call, and what two calls are told.
pub fn ask_twice<R>(rt: &R) -> Result<(Option<u64>, u64, u64), Fault>
where
    R: Wait + RandomSource + AllocGlobal,
{
    let end = 5;
    let lazy = Lazy::new(Sum {
        next: 0,
        end,
        sum: 0,
    });
    let before = lazy.try_get().copied();
    let first = *lazy.get(rt).wait()??;
    let second = *lazy.get(rt).wait()??;
    Ok((before, first, second))
}
