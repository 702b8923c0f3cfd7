//! A future that leaves its cell by a call. A drop can have no contract, and this call has one.
ghost use Rattle.std.specs.Prelude.{◌≡◌, IfSome, None, false, true};

use crate::fault::Fault;
use async_once_cell::{InitFuture, OnceCell};
use futures::future::{Pending, Ready, pending, ready};
use futures::task::{Context, Poll};
use futures::test::MockTask;
use std::alloc::AllocGlobal;
use std::random::RandomSource;
use std::sync::Wait;

/// What a future is told that waits for another, whose init stays Pending. The other leaves, and cannot be polled
/// again; then the future runs its own init.
fn told_once_it_left<'a, R>(
    holder: &mut InitFuture<'a, u64, Pending<u64>, R>,
    waiter: &mut InitFuture<'a, u64, Ready<u64>, R>,
    cx: &mut Context<'_>,
) -> Option<u64>
where
    R: Wait + AllocGlobal,
    requires unfinished { (holder.old.finished ≡ false) × (waiter.old.finished ≡ false) }
    ensures finished { IfSome result (λ _. holder.new.finished ≡ true) }
    ensures init { IfSome result (λ _. holder.new.init ≡ None) }
    ensures value { IfSome result (λ _. holder.new.value ≡ None) }
{
    let Poll::Pending = holder.poll(cx) else {
        return None;
    };
    let Poll::Pending = waiter.poll(cx) else {
        return None;
    };
    holder.leave();
    let Poll::Ready(Ok(value)) = waiter.poll(cx) else {
        return None;
    };
    Some(*value)
}

/// What the second of two futures of a new cell is told once the first has left.
fn told_to_the_second<R>(rt: &R, cx: &mut Context<'_>) -> Option<u64>
where
    R: Wait + AllocGlobal,
{
    let cell = OnceCell::new();
    let (mut holder, mut waiter) = (
        cell.get_or_init(rt, pending()),
        cell.get_or_init(rt, ready(2)),
    );
    told_once_it_left(&mut holder, &mut waiter, cx)
}

/// What a future is told once the one that it waited for has left.
pub fn ask<R>(rt: &R) -> Result<Option<u64>, Fault>
where
    R: Wait + RandomSource + AllocGlobal,
{
    Ok(MockTask::new(rt)?.enter(|cx| told_to_the_second(rt, cx)))
}
