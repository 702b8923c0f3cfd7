//! Two threads, of which one asks while the other is inside the init: both are told one value.
ghost use Rattle.std.specs.Prelude.{◌≡◌, IfSome};

use crate::doubles::counted::Tried;
use crate::doubles::work::{Gate, Host, Hosts, Meeting, same};
use async_once_cell::once::{InitError, Known, TryInitFuture};
use async_once_cell::record::Reply;
use async_once_cell::{Lazy, LazyFuturePin, OnceCell};
use futures::Future;
use futures::executor::block_on;
use futures::future::ready;
use futures::task::{Context, Poll};
use futures::test::MockTask;
use std::test::Fail;
use std::time::Duration;
use std::{mem, thread};
use test_doubles::left::is_filled;

const TIMES: u64 = 20;

type Gated<'m> = Lazy<Tried, Gate<'m>>;

fn gate(meeting: &Meeting) -> Gate<'_> {
    let answer = Ok(5);
    Gate { meeting, answer }
}

// A future of a cell, polled with a token, which comes with the answer. Once it waits, it lets the
// init of the other go on.
#[derive(Drop)]
struct Telling<'a, R: Host> {
    cell: &'a OnceCell<u64>,
    meeting: &'a Meeting,
    future: TryInitFuture<'a, u64, u64, Gate<'a>, R>,
    token: Known<'a, u64>,
    ghost one_cell: { token.cell ≡ cell.now },
    ghost own_cell: { future.cell ≡ cell.now },
}

impl<'a, R: Host> Future for Telling<'a, R> {
    type Output = (Result<&'a u64, InitError<u64>>, Known<'a, u64>);

    ghost gives = { λ f told. told.1.cell ≡ f.cell.now };

    fn poll(
        &mut self,
        cx: &mut Context<'_>,
    ) -> Poll<(Result<&'a u64, InitError<u64>>, Known<'a, u64>)> {
        if self.future.is_finished() {
            return cx.yield_now();
        }
        match self.future.poll_as(cx, &mut self.token) {
            Poll::Ready(answer) => {
                let token = mem::replace(&mut self.token, self.cell.token());
                Poll::Ready((answer, token))
            }
            Poll::Pending => {
                self.meeting.come();
                Poll::Pending
            }
        }
    }
}

// The token of a thread that is told 5 by the cell: by an executor, or by a wait after which the token looks. A thread
// that is not the first comes while the other is inside the init of the cell. A wait cannot tell when it begins, so
// before it the init of the other is let go on.
fn told<'a, R: Host>(
    rt: &'a R,
    cell: &'a OnceCell<u64>,
    at: &'a Meeting,
    waits: bool,
    is_first: bool,
) -> Option<Known<'a, u64>>
    ensures { IfSome result (λ token. token.cell ≡ cell.now) }
{
    if !is_first && !at.has(1) {
        return None;
    }
    if !is_first && waits {
        at.come();
    }
    let (future, mut token) = (cell.get_or_try_init(rt, gate(at)), cell.token());
    if waits {
        let value = future.wait().ok()?;
        let is_told = value == Ok(&5) && cell.get_as(&mut token) == Some(&5);
        return if is_told { Some(token) } else { None };
    }
    let telling = Telling {
        cell,
        meeting: at,
        future,
        token,
    };
    let (answer, token) = block_on(rt, telling).ok()?;
    if answer == Ok(&5) { Some(token) } else { None }
}

// What a poll of a lazy cell's future answered. Full stands for all but 5.
fn once<R: Host>(task: &MockTask, future: &mut LazyFuturePin<'_, Tried, Gate<'_>, R>) -> Reply {
    task.enter(|cx| match Future::poll(future, cx) {
        Poll::Pending => Reply::Pending,
        Poll::Ready(Ok(Ok(5))) => Reply::Value(5),
        Poll::Ready(_) => Reply::Full,
    })
}

// Whether the task is woken within ten seconds.
fn is_woken<R: Host>(rt: &R, task: &MockTask) -> bool {
    for _ in 0..10_000 {
        if task.is_woken() {
            return true;
        }
        thread::sleep(rt, Duration::from_millis(1));
    }
    false
}

// The token of a thread that asks the lazy cell. The first is told 5 by its first poll. The other comes while the first
// holds. Once its task is Pending, it lets the init of the first go on, and is told 5 when its task is woken.
fn told_lazily<'a, R: Host>(
    rt: &'a R,
    task: &MockTask,
    lazy: &'a Gated<'_>,
    at: &Meeting,
    is_first: bool,
) -> Option<Known<'a, Tried>>
    ensures { IfSome result (λ token. token.cell ≡ lazy.now) }
{
    let mut future = if is_first {
        lazy.get(rt)
    } else {
        lazy.get_unpin(rt)
    };
    let mut token = lazy.token();
    if !is_first {
        let waits = at.has(1) && once(task, &mut future) == Reply::Pending && !task.is_woken();
        at.come();
        if !waits || !is_woken(rt, task) {
            return None;
        }
    }
    let is_told = once(task, &mut future) == Reply::Value(5);
    if is_told && lazy.try_get_as(&mut token) == Some(&Ok(5)) {
        Some(token)
    } else {
        None
    }
}

// Whether two threads were told one value by a cell.
fn both_told<'a, R: Hosts>(
    rt: &'a R,
    cell: &'a OnceCell<u64>,
    at: &'a Meeting,
    waits: bool,
) -> bool {
    let one = move || -> Option<Known<'_, u64>>
        ensures { IfSome result (λ token. token.cell ≡ cell.entry.now) }
    { told(rt, cell, at, waits, true) };
    let two = move || -> Option<Known<'_, u64>>
        ensures { IfSome result (λ token. token.cell ≡ cell.entry.now) }
    { told(rt, cell, at, waits, false) };
    let (a, b) = thread::join(rt, one, two);
    let Some(a) = a else {
        return false;
    };
    let Some(b) = b else {
        return false;
    };
    Known::compare(&a, &b)
}

// The same by a lazy cell.
fn both_told_lazily<'a, R: Hosts>(
    rt: &'a R,
    (first, second): (&MockTask, &MockTask),
    lazy: &'a Gated<'_>,
    at: &Meeting,
) -> bool {
    let one = move || -> Option<Known<'_, Tried>>
        ensures { IfSome result (λ token. token.cell ≡ lazy.entry.now) }
    { told_lazily(rt, first, lazy, at, true) };
    let two = move || -> Option<Known<'_, Tried>>
        ensures { IfSome result (λ token. token.cell ≡ lazy.entry.now) }
    { told_lazily(rt, second, lazy, at, false) };
    let (a, b) = thread::join(rt, one, two);
    let Some(a) = a else {
        return false;
    };
    let Some(b) = b else {
        return false;
    };
    Known::compare(&a, &b)
}

// Whether two threads were told one value by new cells, which are filled then.
fn are_told<R: Hosts>(rt: &R, tasks: (&MockTask, &MockTask), waits: bool) -> [bool; 4] {
    let (at, at_lazy) = (Meeting::new(), Meeting::new());
    let (cell, lazy) = (OnceCell::new(), Lazy::new(gate(&at_lazy)));
    [
        both_told(rt, &cell, &at, waits),
        both_told_lazily(rt, tasks, &lazy, &at_lazy),
        is_filled(rt, &cell),
        is_filled(rt, &lazy),
    ]
}

/// The second future waits while the first thread is inside the init of their cell, and its task is woken when the init
/// ends. The tokens of both threads agree.
#[test]
fn tokens_of_two_threads(rt: HostRuntime) -> Result<(), Fail> {
    let tasks = (MockTask::new(&rt)?, MockTask::new(&rt)?);
    for _ in 0..TIMES {
        for (name, waits) in [("executor", false), ("wait", true)] {
            let are_told = are_told(&rt, (&tasks.0, &tasks.1), waits);
            same(&rt, name, are_told, [true; 4]);
        }
    }
    Ok(())
}

/// Cells are sent to another thread, which takes them apart.
#[test]
fn sent_to_another_thread(rt: HostRuntime) {
    let (cell, lazy) = (OnceCell::new_with(5u64), Lazy::new(ready(7u64)));
    let (taken, ()) = thread::join(&rt, move || (cell.into_inner(), lazy.into_inner()), || ());
    same(&rt, "taken", taken, (Some(5), None));
}
