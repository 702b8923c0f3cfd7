//! A token of a cell that owns its future, and its future's own `poll`.

use crate::doubles::poll::heard;
use crate::doubles::same;
use async_once_cell::Lazy;
use async_once_cell::once::Known;
use async_once_cell::record::Reply;
use futures::future::{Pending, pending, ready};
use futures::task::Context;
use futures::test::MockTask;
use std::alloc::AllocGlobal;
use std::sync::Wait;
use std::test::Fail;

// What a future answers to its own `poll`. The cell's future asks for nothing.
fn pending_by_its_own_poll<'a, R: Wait + AllocGlobal>(
    rt: &'a R,
    cx: &mut Context<'_>,
    lazy: &'a Lazy<u64, Pending<u64>>,
) -> Reply {
    let mut future = lazy.get(rt);
    heard(future.poll(cx))
}

/// Its own `poll` does not wake a task that drives a future which asks for nothing.
#[test]
fn pending_poll_wakes_nobody(rt: HostRuntime) -> Result<(), Fail> {
    let (task, lazy) = (MockTask::new(&rt)?, Lazy::new(pending()));
    let told = task.enter(|cx| pending_by_its_own_poll(&rt, cx, &lazy));
    same(
        &rt,
        "told",
        (told, task.is_woken()),
        (Reply::Pending, false),
    );
    Ok(())
}

/// A wait with a token has the cell's future polled, and the token learns the value.
#[test]
fn learned_by_a_wait(rt: HostRuntime) -> Result<(), Fail> {
    let lazy = Lazy::new(ready(4u64));
    let mut token = lazy.token();
    let told = lazy.get(&rt).wait_as(&mut token)?;
    let is_known = Known::compare(&token, &token);
    same(&rt, "told", (told.ok().copied(), is_known), (Some(4), true));
    Ok(())
}
