//! The loops: each makes one operation so many times, and gives the sum of the values.
//!
//! Each is a function of its own, and is passed its cell if that is set before the loop, so that
//! nothing of it is known to the compiler there.
use crate::failures::{failures, turns};
use crate::lost_wake::lost;
use crate::switch::Switched;
use crate::threads::{cells, fills_of_four, fills_of_two, looks_of_four, looks_of_two};
use crate::waits::{kept_parker, new_cells, set_cell};
use async_once_cell::once::InitFuture;
use async_once_cell::{Lazy, OnceCell};
use futures::Future;
use futures::future::{Ready, ready};
use futures::task::{Context, Poll};
use std::alloc::AllocGlobal;
use std::cell::Cell;
use std::io;
use std::random::RandomSource;
use std::sync::Wait;
use std::thread::Threads;

/// Makes the operation of this name so many times. A number at the end of a name is how many wait, or how many threads
/// there are.
///
/// - `get`: a look at a cell that is set
/// - `init`: a new cell, and a poll whose init gives the value at once
/// - `late`: a new future of a cell that is set, polled to its end
/// - `listed`: a poll of a future that waits and is listed already
/// - `waiters10`: a new cell: one future holds, 10 wait, the holder sets the cell, and each that waits is polled to its
///   end
/// - `drops10`: a new cell: one future holds, 10 wait, and all are dropped, those that wait first
/// - `failure10`: 10 wait: a new future gets the right, the one that the failure before woke is polled and waits
///   again, and the new future fails
/// - `turns10`: a new cell: one future holds, 10 wait; the holder fails, and then each of them, once it was woken and
///   its init was pending once
/// - `get_threads2` and `get_threads4`: so many threads look at a cell that is set
/// - `init_threads2` and `init_threads4`: a new cell, which so many threads ask for its value
/// - `lazy_first`: a new lazy cell, and a poll whose init gives the value at once
/// - `lazy_later`: a new future of a lazy cell that is set, polled to its end
/// - `wait_new`: a new cell, and a wait of this thread for its value, whose init gives it at once
/// - `wait_set`: a wait for the value of a cell that is set
/// - `wait_kept`: a new cell, and a wait by a parker that is kept
/// - `lost_wake`: a round of two threads in which a waiter could be lost. What is added up is how many were
pub fn perform<R>(rt: &R, name: &str, count: u64, cx: &mut Context<'_>) -> io::Result<u64>
where
    R: Wait + RandomSource + AllocGlobal + Threads + Sync,
{
    match name {
        "init" => Ok(init(rt, count, cx)),
        "listed" => listed(rt, count, cx),
        "lazy_first" => Ok(lazy_first(rt, count, cx)),
        "lazy_later" => Ok(perform_on_lazy(rt, count, cx)),
        "wait_new" => new_cells(rt, count),
        "wait_kept" => kept_parker(rt, count),
        "lost_wake" => lost(rt, count),
        "init_threads2" | "init_threads4" => perform_on_new(rt, name, count),
        "get" | "late" | "get_threads2" | "get_threads4" | "wait_set" => {
            perform_on_set(rt, name, count, cx)
        }
        _ => perform_with_waiters(rt, name, count, cx),
    }
}

// Makes an operation of threads that fill new cells.
fn perform_on_new<R>(rt: &R, name: &str, count: u64) -> io::Result<u64>
where
    R: Wait + RandomSource + AllocGlobal + Threads + Sync,
{
    let cells = cells(rt, count)?;
    match name {
        "init_threads2" => fills_of_two(rt, &cells),
        _ => fills_of_four(rt, &cells),
    }
}

// Makes an operation of a cell that is set.
fn perform_on_set<R>(rt: &R, name: &str, count: u64, cx: &mut Context<'_>) -> io::Result<u64>
where
    R: Wait + RandomSource + AllocGlobal + Threads + Sync,
{
    let cell = filled(rt, cx);
    match name {
        "get" => Ok(get(&cell, count)),
        "late" => Ok(late(rt, &cell, count, cx)),
        "get_threads2" => Ok(looks_of_two(rt, &cell, count)),
        "get_threads4" => Ok(looks_of_four(rt, &cell, count)),
        _ => set_cell(rt, &cell, count),
    }
}

// Makes the operation of a lazy cell that is set.
fn perform_on_lazy<R: Wait + AllocGlobal>(rt: &R, count: u64, cx: &mut Context<'_>) -> u64 {
    lazy_later(rt, &filled_lazy(rt, cx), count, cx)
}

// Makes an operation whose name ends with how many wait.
fn perform_with_waiters<R>(rt: &R, name: &str, count: u64, cx: &mut Context<'_>) -> io::Result<u64>
where
    R: Wait + AllocGlobal,
{
    let word = name.trim_end_matches(|c: char| c.is_ascii_digit());
    let digits = name.strip_prefix(word).unwrap_or("");
    match (word, digits.parse::<usize>()) {
        ("waiters", Ok(number)) => waiters(rt, number, count, cx),
        ("drops", Ok(number)) => drops(rt, number, count, cx),
        ("failure", Ok(number)) => failures(rt, number, count, cx),
        ("turns", Ok(number)) => turns(rt, number, count, cx),
        _ => Err(io::Error::other("there is no such operation")),
    }
}

// A cell whose value an init gave.
fn filled<R: Wait + AllocGlobal>(rt: &R, cx: &mut Context<'_>) -> OnceCell<u64> {
    let cell = OnceCell::new();
    one_init(rt, &cell, cx);
    cell
}

/// Looks at a set cell so many times.
#[inline(never)]
pub fn get(cell: &OnceCell<u64>, count: u64) -> u64 {
    let mut sum: u64 = 0;
    for _ in 0..count {
        sum = sum.wrapping_add(cell.get().copied().unwrap_or(0));
    }
    sum
}

#[inline(never)]
fn init<R: Wait + AllocGlobal>(rt: &R, count: u64, cx: &mut Context<'_>) -> u64 {
    let mut sum: u64 = 0;
    for _ in 0..count {
        sum = sum.wrapping_add(one_init(rt, &OnceCell::new(), cx));
    }
    sum
}

/// Asks a set cell for its value so many times, by a new future each.
#[inline(never)]
fn late<R: Wait + AllocGlobal>(
    rt: &R,
    cell: &OnceCell<u64>,
    count: u64,
    cx: &mut Context<'_>,
) -> u64 {
    let mut sum: u64 = 0;
    for _ in 0..count {
        sum = sum.wrapping_add(one_init(rt, cell, cx));
    }
    sum
}

fn one_init<R: Wait + AllocGlobal>(rt: &R, cell: &OnceCell<u64>, cx: &mut Context<'_>) -> u64 {
    let mut future = cell.get_or_init(rt, ready(1));
    value_of(Future::poll(&mut future, cx))
}

type Waiting<'a, R> = InitFuture<'a, u64, Switched<'a>, R>;

// So many futures of a cell, each with the same switch. The first that is polled holds.
fn futures_of<'a, R: Wait + AllocGlobal>(
    rt: &'a R,
    cell: &'a OnceCell<u64>,
    switch: &'a Cell<bool>,
    number: usize,
) -> io::Result<Vec<Waiting<'a, R>>> {
    let mut futures = Vec::with_capacity(rt.alloc(), number)?;
    for _ in 0..number {
        futures.push(cell.get_or_init(rt, Switched::new(switch)))?;
    }
    Ok(futures)
}

// Polls each once.
fn poll_each<R: Wait + AllocGlobal>(futures: &mut [Waiting<'_, R>], cx: &mut Context<'_>) -> u64 {
    let mut sum: u64 = 0;
    for future in futures {
        sum = sum.wrapping_add(value_of(Future::poll(future, cx)));
    }
    sum
}

#[inline(never)]
fn listed<R: Wait + AllocGlobal>(rt: &R, count: u64, cx: &mut Context<'_>) -> io::Result<u64> {
    round(rt, 1, count, cx)
}

// Polls each, the second so many times more, and each again once the switch is on.
fn poll_second<R: Wait + AllocGlobal>(
    futures: &mut [Waiting<'_, R>],
    switch: &Cell<bool>,
    count: u64,
    cx: &mut Context<'_>,
) -> u64 {
    let mut sum = poll_each(futures, cx);
    if let Some(waiter) = futures.get_mut(1) {
        sum = sum.wrapping_add(poll_often(waiter, count, cx));
    }
    switch.set(true);
    sum.wrapping_add(poll_each(futures, cx))
}

fn poll_often<R: Wait + AllocGlobal>(
    waiter: &mut Waiting<'_, R>,
    count: u64,
    cx: &mut Context<'_>,
) -> u64 {
    let mut sum: u64 = 0;
    for _ in 0..count {
        sum = sum.wrapping_add(value_of(Future::poll(waiter, cx)));
    }
    sum
}

#[inline(never)]
fn waiters<R: Wait + AllocGlobal>(
    rt: &R,
    waiting: usize,
    count: u64,
    cx: &mut Context<'_>,
) -> io::Result<u64> {
    let mut sum: u64 = 0;
    for _ in 0..count {
        sum = sum.wrapping_add(round(rt, waiting, 0, cx)?);
    }
    Ok(sum)
}

// One holds and so many wait, of which the first is polled so many times more.
fn round<R: Wait + AllocGlobal>(
    rt: &R,
    waiting: usize,
    more: u64,
    cx: &mut Context<'_>,
) -> io::Result<u64> {
    let (cell, switch) = (OnceCell::new(), Cell::new(false));
    let mut futures = futures_of(rt, &cell, &switch, waiting.saturating_add(1))?;
    Ok(poll_second(futures.as_mut_slice(), &switch, more, cx))
}

// Nobody gets a value, so the sum is 0.
#[inline(never)]
fn drops<R: Wait + AllocGlobal>(
    rt: &R,
    waiting: usize,
    count: u64,
    cx: &mut Context<'_>,
) -> io::Result<u64> {
    let mut sum: u64 = 0;
    for _ in 0..count {
        sum = sum.wrapping_add(all_dropped(rt, waiting, cx)?);
    }
    Ok(sum)
}

fn all_dropped<R: Wait + AllocGlobal>(
    rt: &R,
    waiting: usize,
    cx: &mut Context<'_>,
) -> io::Result<u64> {
    let (cell, switch) = (OnceCell::new(), Cell::new(false));
    let mut futures = futures_of(rt, &cell, &switch, waiting.saturating_add(1))?;
    Ok(poll_last_first(futures.as_mut_slice(), cx))
}

// Polls the last, which holds then, and each other. They are dropped in their order, so the holder is the last.
fn poll_last_first<R: Wait + AllocGlobal>(
    futures: &mut [Waiting<'_, R>],
    cx: &mut Context<'_>,
) -> u64 {
    let Some((holder, waiters)) = futures.split_last_mut() else {
        return 0;
    };
    let sum = value_of(Future::poll(holder, cx));
    sum.wrapping_add(poll_each(waiters, cx))
}

#[inline(never)]
fn lazy_first<R: Wait + AllocGlobal>(rt: &R, count: u64, cx: &mut Context<'_>) -> u64 {
    let mut sum: u64 = 0;
    for _ in 0..count {
        sum = sum.wrapping_add(one_lazy(rt, &Lazy::new(ready(1)), cx));
    }
    sum
}

#[inline(never)]
fn lazy_later<R: Wait + AllocGlobal>(
    rt: &R,
    lazy: &Lazy<u64, Ready<u64>>,
    count: u64,
    cx: &mut Context<'_>,
) -> u64 {
    let mut sum: u64 = 0;
    for _ in 0..count {
        sum = sum.wrapping_add(one_lazy(rt, lazy, cx));
    }
    sum
}

// A lazy cell whose future gave its value.
fn filled_lazy<R: Wait + AllocGlobal>(rt: &R, cx: &mut Context<'_>) -> Lazy<u64, Ready<u64>> {
    let lazy = Lazy::new(ready(1));
    one_lazy(rt, &lazy, cx);
    lazy
}

fn one_lazy<R: Wait + AllocGlobal>(
    rt: &R,
    lazy: &Lazy<u64, Ready<u64>>,
    cx: &mut Context<'_>,
) -> u64 {
    let mut future = lazy.get(rt);
    value_of(Future::poll(&mut future, cx))
}

/// The value of a poll, and 0 if it is pending or refused: a sum that is too small tells of it.
fn value_of<E: Drop>(polled: Poll<Result<&u64, E>>) -> u64 {
    match polled {
        Poll::Ready(Ok(value)) => *value,
        Poll::Ready(Err(_)) | Poll::Pending => 0,
    }
}
