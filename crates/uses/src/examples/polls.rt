//! Polls of futures by hand, and steps of a replay.
ghost use Rattle.std.specs.Prelude.{◌≡◌, false};

use crate::fault::Fault;
use crate::print;
use crate::slow::Slow;
use async_once_cell::once::{InitError, TryInitFuture};
use async_once_cell::{Lazy, OnceCell};
use futures::Future;
use futures::future::{ok, pending, ready};
use futures::task::{Context, Poll};
use futures::test::MockTask;
use once_script::world::{Input, Kind, World};
use std::alloc::{AllocError, AllocGlobal, Global};
use std::random::RandomSource;
use std::sync::Wait;

/// A holder is dropped, and the one that waited runs its own init.
fn dropped_holder<R>(rt: &R) -> Result<(bool, bool), Fault>
where
    R: Wait + RandomSource + AllocGlobal,
{
    let (cell, task) = (OnceCell::new(), MockTask::new(rt)?);
    let mut holder = cell.get_or_init(rt, pending());
    let mut waiter = cell.get_or_init(rt, ready(9));
    let is_held = task.poll(&mut holder).is_pending();
    let _ = task.poll(&mut waiter);
    drop(holder);
    let is_made = task.poll(&mut waiter).is_ready();
    Ok((is_held, is_made))
}

/// What one poll gives: the value, the error of the own init, or 0.
fn polled_once<F, R>(future: &mut TryInitFuture<'_, u64, u64, F, R>, cx: &mut Context<'_>) -> u64
where
    F: Future<Output = Result<u64, u64>>,
    R: Wait + AllocGlobal,
    requires { future.old.finished ≡ false }
{
    let polled = future.poll(cx);
    match polled {
        Poll::Ready(Ok(value)) => *value,
        Poll::Ready(Err(InitError::Init(error))) => error,
        Poll::Ready(Err(InitError::Memory | InitError::Full)) | Poll::Pending => 0,
    }
}

/// A future that is handed back goes on where it stood.
fn handed_back<R>(rt: &R) -> Result<bool, Fault>
where
    R: Wait + RandomSource + AllocGlobal,
{
    let (lazy, task) = (Lazy::new(Slow::new(1, 9)), MockTask::new(rt)?);
    let mut held = lazy.get(rt);
    let is_pending = task.poll(&mut held).is_pending();
    drop(held);
    let Err(Some(mut future)) = lazy.into_parts() else {
        return Err(Fault::Empty);
    };
    let last = task.poll(&mut future);
    Ok(is_pending && last.is_ready())
}

/// How many entries two inputs of a replay add.
fn replayed(alloc: Global) -> Result<usize, AllocError> {
    let mut world = World::new(alloc, Kind::Once, 8);
    world.take(&Input::Make(1))?;
    world.take(&Input::Poll(1, 5))?;
    let begun = world.entries();
    let next = world.step_of(1);
    Ok(if next.is_some() { begun.len() } else { 0 })
}

/// What the first poll of a future gives.
fn first_polled<R>(rt: &R) -> Result<u64, Fault>
where
    R: Wait + RandomSource + AllocGlobal,
{
    let (cell, task) = (OnceCell::new(), MockTask::new(rt)?);
    let mut future = cell.get_or_try_init(rt, ok::<u64, u64>(7));
    Ok(task.enter(|cx| polled_once(&mut future, cx)))
}

/// Prints what these give.
pub fn show<R>(rt: &R) -> Result<(), Fault>
where
    R: Print + Wait + RandomSource + AllocGlobal,
{
    print(rt, "a holder was dropped", dropped_holder(rt))?;
    print(rt, "polled once", first_polled(rt))?;
    print(rt, "handed back", handed_back(rt))?;
    print(rt, "entries of a replay", replayed(rt.alloc()))
}
