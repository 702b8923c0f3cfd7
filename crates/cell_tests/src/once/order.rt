//! In which order a value wakes those that wait.

use crate::doubles::same;
use crate::doubles::stub::Stub;
use async_once_cell::OnceCell;
use async_once_cell::once::InitFuture;
use futures::Future;
use futures::future::{Ready, ready};
use futures::task::{Doorbell, Queue};
use futures::test::MockTask;
use std::alloc::AllocGlobal;
use std::sync::Wait;
use std::test::Fail;

// Polls a future by a new task of the queue. Whether it was polled, and waits.
fn is_listed_by<R: Wait + AllocGlobal>(
    rt: &R,
    queue: &Queue,
    future: &mut InitFuture<'_, u64, Ready<u64>, R>,
) -> bool {
    let Ok(task) = queue.add() else {
        return false;
    };
    task.schedule();
    let Some(mut cx) = queue.next(rt) else {
        return false;
    };
    let polled = Future::poll(future, &mut cx);
    cx.end(&polled);
    polled.is_pending()
}

// The number of the task that was woken first of those that were not looked for yet.
fn called<R: Wait>(rt: &R, queue: &Queue) -> Option<usize> {
    let cx = queue.next(rt)?;
    let task = cx.task();
    cx.cancel();
    Some(task)
}

/// They are woken in the order in which they were listed.
#[test]
fn called_as_they_were_listed(rt: HostRuntime) -> Result<(), Fail> {
    let (task, queue) = (MockTask::new(&rt)?, Queue::new(&rt, Doorbell::spinning())?);
    let (stub, cell) = (Stub::new(), OnceCell::new());
    let mut holder = cell.get_or_init(&rt, stub.init());
    let is_held = task.poll(&mut holder).is_pending();
    let mut one = cell.get_or_init(&rt, ready(1));
    let mut two = cell.get_or_init(&rt, ready(2));
    let are_listed = is_listed_by(&rt, &queue, &mut one) && is_listed_by(&rt, &queue, &mut two);
    stub.answer.set(Some(4));
    let is_filled = task.poll(&mut holder).is_ready();
    let order = [called(&rt, &queue), called(&rt, &queue)];
    let is_so = is_held && are_listed && is_filled;
    same(&rt, "order", (is_so, order), (true, [Some(0), Some(1)]));
    Ok(())
}
