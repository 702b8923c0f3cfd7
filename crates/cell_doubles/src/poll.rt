//! What a poll of a cell's future answered, without the borrow of the value; and the tasks that poll.

use async_once_cell::once::{InitError, Refused};
use async_once_cell::record::Reply;
use futures::Future;
use futures::future::TryOutput;
use futures::task::Poll;
use futures::test::MockTask;
use std::alloc::AllocGlobal;
use std::io;
use std::random::RandomSource;

/// Why a poll ended without a value.
pub trait Refusal: Drop {
    fn reply(self) -> Reply;
}

impl Refusal for Refused {
    fn reply(self) -> Reply {
        match self {
            Refused::Memory => Reply::Memory,
            Refused::Full => Reply::Full,
        }
    }
}

impl Refusal for InitError<u64> {
    fn reply(self) -> Reply {
        match self {
            InitError::Init(error) => Reply::Error(error),
            InitError::Memory => Reply::Memory,
            InitError::Full => Reply::Full,
        }
    }
}

/// What a poll answered.
pub fn heard<E: Refusal>(polled: Poll<Result<&u64, E>>) -> Reply {
    match polled {
        Poll::Pending => Reply::Pending,
        Poll::Ready(Ok(value)) => Reply::Value(*value),
        Poll::Ready(Err(refusal)) => refusal.reply(),
    }
}

/// Polls a future of a cell by this task.
pub fn polled<'a, E: Refusal, F>(task: &MockTask, future: &mut F) -> Reply
where
    F: Future<Output: TryOutput<Ok = &'a u64, Error = E>>,
    requires { F.can_poll future.old }
{
    match task.poll(future) {
        Poll::Pending => Reply::Pending,
        Poll::Ready(output) => match output.into_result() {
            Ok(value) => Reply::Value(*value),
            Err(refusal) => refusal.reply(),
        },
    }
}

/// Polls a future of a cell once, by this task, and drops it: what it answered, and whether the task was woken before
/// the drop.
pub fn polled_once<'a, E: Refusal, F>(task: &MockTask, mut future: F) -> (Reply, bool)
where
    F: Future<Output: TryOutput<Ok = &'a u64, Error = E>>,
    requires { F.can_poll future }
{
    let reply = polled(task, &mut future);
    (reply, task.is_woken())
}

/// So many tasks.
pub fn tasks<R: AllocGlobal + RandomSource>(rt: &R, count: usize) -> io::Result<Vec<MockTask>> {
    let mut tasks = Vec::new(rt.alloc());
    for _ in 0..count {
        tasks.push(MockTask::new(rt)?)?;
    }
    Ok(tasks)
}

/// Forgets that the task was woken.
pub fn calm(task: &MockTask) {
    task.enter(|_| ());
}

/// Has the task woken.
pub fn wake(task: &MockTask) {
    let _ = task.enter(|cx| cx.yield_now::<()>());
}
