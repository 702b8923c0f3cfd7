//! The loops of inits that fail, as in `rounds`. An error counts as its number, which is 1.
//!
//! A future that waits is polled only if it was woken: a failure wakes the one that is listed
//! longest.
use crate::switch::Failing;
use async_once_cell::OnceCell;
use async_once_cell::once::{InitError, TryInitFuture};
use futures::Future;
use futures::task::{Context, Poll};
use std::alloc::AllocGlobal;
use std::io;
use std::sync::Wait;

type Trying<'a, R> = TryInitFuture<'a, u64, u64, Failing, R>;

// So many futures, each polled once: the first holds if no other does, and the others wait.
fn polled<'a, R: Wait + AllocGlobal>(
    rt: &'a R,
    cell: &'a OnceCell<u64>,
    number: usize,
    cx: &mut Context<'_>,
) -> io::Result<Vec<Trying<'a, R>>> {
    let mut futures = Vec::with_capacity(rt.alloc(), number)?;
    for _ in 0..number {
        let mut future = cell.get_or_try_init(rt, Failing::new());
        number_of(Future::poll(&mut future, cx));
        futures.push(future)?;
    }
    Ok(futures)
}

// So many futures that wait, and nobody holds.
fn waiting<'a, R: Wait + AllocGlobal>(
    rt: &'a R,
    cell: &'a OnceCell<u64>,
    number: usize,
    cx: &mut Context<'_>,
) -> io::Result<Vec<Trying<'a, R>>> {
    let mut first = cell.get_or_try_init(rt, Failing::new());
    number_of(Future::poll(&mut first, cx));
    polled(rt, cell, number, cx)
}

/// A new holder gets the right, the waiter that was woken waits again, and the holder fails.
#[inline(never)]
pub fn failures<R: Wait + AllocGlobal>(
    rt: &R,
    number: usize,
    count: u64,
    cx: &mut Context<'_>,
) -> io::Result<u64> {
    let cell = OnceCell::new();
    let mut waiters = waiting(rt, &cell, number, cx)?;
    Ok(fail(rt, &cell, waiters.as_mut_slice(), count, cx))
}

// Fails so many times. The waiters are woken in turn.
fn fail<'a, R: Wait + AllocGlobal>(
    rt: &'a R,
    cell: &'a OnceCell<u64>,
    waiters: &mut [Trying<'a, R>],
    count: u64,
    cx: &mut Context<'_>,
) -> u64 {
    let mut sum: u64 = 0;
    let mut called = 0;
    for _ in 0..count {
        sum = sum.wrapping_add(failure(rt, cell, waiters.get_mut(called), cx));
        called = called.wrapping_add(1);
        if called >= waiters.len() {
            called = 0;
        }
    }
    sum
}

fn failure<'a, R: Wait + AllocGlobal>(
    rt: &'a R,
    cell: &'a OnceCell<u64>,
    called: Option<&mut Trying<'a, R>>,
    cx: &mut Context<'_>,
) -> u64 {
    let mut holder = cell.get_or_try_init(rt, Failing::new());
    let mut sum = number_of(Future::poll(&mut holder, cx));
    if let Some(waiter) = called {
        sum = sum.wrapping_add(number_of(Future::poll(waiter, cx)));
    }
    sum.wrapping_add(number_of(Future::poll(&mut holder, cx)))
}

/// A holder fails, and then each waiter, in its turn.
#[inline(never)]
pub fn turns<R: Wait + AllocGlobal>(
    rt: &R,
    number: usize,
    count: u64,
    cx: &mut Context<'_>,
) -> io::Result<u64> {
    let mut sum: u64 = 0;
    for _ in 0..count {
        sum = sum.wrapping_add(all_turns(rt, number, cx)?);
    }
    Ok(sum)
}

fn all_turns<R: Wait + AllocGlobal>(
    rt: &R,
    number: usize,
    cx: &mut Context<'_>,
) -> io::Result<u64> {
    let cell = OnceCell::new();
    let mut futures = polled(rt, &cell, number.saturating_add(1), cx)?;
    Ok(poll_in_turn(futures.as_mut_slice(), cx))
}

// Polls the holder, which fails, and then each waiter in its turn.
fn poll_in_turn<R: Wait + AllocGlobal>(futures: &mut [Trying<'_, R>], cx: &mut Context<'_>) -> u64 {
    let Some((holder, waiters)) = futures.split_first_mut() else {
        return 0;
    };
    let sum = number_of(Future::poll(holder, cx));
    sum.wrapping_add(poll_twice(waiters, cx))
}

// Polls each twice: it gets the right, and fails.
fn poll_twice<R: Wait + AllocGlobal>(waiters: &mut [Trying<'_, R>], cx: &mut Context<'_>) -> u64 {
    let mut sum: u64 = 0;
    for waiter in waiters {
        sum = sum.wrapping_add(number_of(Future::poll(waiter, cx)));
        sum = sum.wrapping_add(number_of(Future::poll(waiter, cx)));
    }
    sum
}

/// The value or the error of a poll, and 0 if it is pending or refused.
fn number_of(polled: Poll<Result<&u64, InitError<u64>>>) -> u64 {
    match polled {
        Poll::Ready(Ok(value)) => *value,
        Poll::Ready(Err(InitError::Init(error))) => error,
        Poll::Ready(Err(InitError::Memory | InitError::Full)) | Poll::Pending => 0,
    }
}
