//! Two lazy cells, of which one asks the other.

use super::own_error::Fault;
use async_once_cell::{Lazy, LazyFuturePin, Refused};
use futures::Future;
use futures::future::ready;
use futures::task::{Context, Poll};
use std::alloc::AllocGlobal;
use std::random::RandomSource;
use std::sync::Wait;

/// Twice the value of another cell.
#[derive(Drop)]
struct Double<'a, F: Future, R: Wait + AllocGlobal> {
    base: LazyFuturePin<'a, u64, F, R>,
}

impl<F: Future<Output = u64>, R: Wait + AllocGlobal> Future for Double<'_, F, R> {
    type Output = Result<u64, Refused>;

    fn poll(&mut self, cx: &mut Context<'_>) -> Poll<Result<u64, Refused>> {
        match Future::poll(&mut self.base, cx) {
            Poll::Ready(Ok(value)) => Poll::Ready(Ok(value.wrapping_mul(2))),
            Poll::Ready(Err(refused)) => Poll::Ready(Err(refused)),
            Poll::Pending => Poll::Pending,
        }
    }
}

/// What an upper cell answers that is made over this one.
fn doubled<'a, F, R>(rt: &'a R, base: &'a Lazy<u64, F>) -> Result<u64, Fault>
where
    F: Future<Output = u64>,
    R: Wait + RandomSource + AllocGlobal,
{
    let double = Lazy::new(Double { base: base.get(rt) });
    Ok((*double.get(rt).wait()??)?)
}

/// The value of the upper cell, and then of the lower one.
pub fn ask<R>(rt: &R) -> Result<(u64, Option<u64>), Fault>
where
    R: Wait + RandomSource + AllocGlobal,
{
    let base = Lazy::new(ready(4));
    let twice = doubled(rt, &base)?;
    Ok((twice, base.try_get().copied()))
}
