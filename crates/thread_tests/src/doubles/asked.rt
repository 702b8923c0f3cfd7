//! Cells of counted values, and what a thread does with a future of one.
ghost use Rattle.std.specs.Prelude.{◌≡◌, false};

use crate::doubles::counted::{Given, Init, Tally, Tried, Value};
use crate::doubles::work::Host;
use async_once_cell::once::{InitFuture, TryInitFuture};
use async_once_cell::record::Reply;
use async_once_cell::{
    self as cells, Failure, Initializing, Lazy, LazyFuturePin, OnceCell, Parker,
};
use cell_doubles::poll::Refusal;
use futures::Future;
use futures::executor::block_on;
use futures::task::{Context, Poll};
use futures::test::MockTask;
use std::fmt::Debug;
use std::time::Duration;
use std::{io, thread};
use test_doubles::left::{is_filled, is_free};

/// What a thread does with a future.
#[derive(Clone, Copy)]
pub enum Way {
    /// Has an executor poll it.
    Block,
    /// Waits for it.
    Wait,
    /// Waits for it by the parker that the thread keeps.
    WaitOn,
    /// The same two with a token.
    WaitAs,
    WaitAsOn,
    /// Polls it whenever its task was woken, until it answers. Pending says that it waits in vain.
    Drive,
    /// Polls it once, looks so often whether its task was woken, and drops it: while it holds, waits, or was woken.
    Leave(u64),
}

/// What a cell has.
pub trait Number {
    fn number(&self) -> Tried;
}

impl Number for u64 {
    fn number(&self) -> Tried {
        Ok(*self)
    }
}

impl Number for Value<'_> {
    fn number(&self) -> Tried {
        Ok(self.number)
    }
}

impl Number for Given<'_> {
    fn number(&self) -> Tried {
        match self {
            Ok(value) => value.number(),
            Err(error) => Err(*error),
        }
    }
}

// What an answer says.
fn heard<T: Number, E: Refusal>(answer: Result<&T, E>) -> Reply {
    match answer {
        Ok(value) => match value.number() {
            Ok(number) => Reply::Value(number),
            Err(error) => Reply::Error(error),
        },
        Err(why) => why.reply(),
    }
}

/// What a wait answered. None says that the thread could not wait.
pub fn told<T: Number, E: Refusal>(waited: io::Result<Result<&T, E>>) -> Option<Reply> {
    match waited {
        Ok(answer) => Some(heard(answer)),
        Err(_) => None,
    }
}

// A future of a cell, which answers what that says.
#[derive(Drop)]
enum Asking<'a, 'c, R: Host> {
    Once(InitFuture<'a, Given<'c>, Init<'c>, R>),
    Try(TryInitFuture<'a, Value<'c>, u64, Init<'c>, R>),
    Lazy(LazyFuturePin<'a, Given<'c>, Init<'c>, R>),
}

impl<R: Host> Future for Asking<'_, '_, R> {
    type Output = Reply;

    fn poll(&mut self, cx: &mut Context<'_>) -> Poll<Reply> {
        match self {
            Asking::Once(future) => Future::poll(future, cx).map(heard),
            Asking::Try(future) => Future::poll(future, cx).map(heard),
            Asking::Lazy(future) => Future::poll(future, cx).map(heard),
        }
    }
}

fn polled<R: Host>(task: &MockTask, future: &mut Asking<'_, '_, R>) -> Reply {
    match task.poll(future) {
        Poll::Ready(reply) => reply,
        Poll::Pending => Reply::Pending,
    }
}

// Polls a future at first, and looks so often whether its task was woken. Then it polls again, or leaves.
fn driven<R: Host>(
    rt: &R,
    task: &MockTask,
    mut future: Asking<'_, '_, R>,
    (looks, leaves): (u64, bool),
) -> Reply {
    let mut reply = polled(task, &mut future);
    for _ in 0..looks {
        let is_woken = task.is_woken();
        if reply != Reply::Pending || is_woken && leaves {
            break;
        }
        if is_woken {
            reply = polled(task, &mut future);
        } else {
            thread::sleep(rt, Duration::from_micros(50));
        }
    }
    reply
}

// Uses a future in a way that is no wait.
fn used<R: Host>(rt: &R, task: &MockTask, future: Asking<'_, '_, R>, way: Way) -> Option<Reply> {
    match way {
        Way::Drive => Some(driven(rt, task, future, (100_000, false))),
        Way::Leave(looks) => Some(driven(rt, task, future, (looks, true))),
        _ => block_on(rt, future).ok(),
    }
}

// Waits for a future of this cell in a way that is a wait.
fn waited<'a, T, X, I, R>(
    future: Initializing<'a, T, X, I, R>,
    cell: &'a OnceCell<T>,
    parker: &mut Parker,
    way: Way,
) -> Option<Reply>
where
    T: Number + Drop,
    X: Failure + Refusal,
    I: cells::Init<T, X>,
    R: Host,
    requires unfinished { future.finished ≡ false }
    requires of_this_cell { future.cell ≡ cell.now }
{
    let mut token = cell.token();
    told(match way {
        Way::WaitOn => future.wait_on(parker),
        Way::WaitAs => future.wait_as(&mut token),
        Way::WaitAsOn => future.wait_as_on(&mut token, parker),
        _ => future.wait(),
    })
}

// The same of a lazy cell.
fn waited_lazily<'c, R: Host>(
    rt: &R,
    lazy: &Lazy<Given<'c>, Init<'c>>,
    parker: &mut Parker,
    way: Way,
) -> Option<Reply> {
    let (mut token, future) = (lazy.token(), lazy.get(rt));
    told(match way {
        Way::WaitOn => future.wait_on(parker),
        Way::WaitAs => future.wait_as(&mut token),
        Way::WaitAsOn => future.wait_as_on(&mut token, parker),
        _ => future.wait(),
    })
}

/// A cell that threads ask: by inits that may not fail, by inits that may, or for what its own init gives.
#[derive(Drop)]
pub enum Cell<'c> {
    Once(OnceCell<Given<'c>>),
    Try(OnceCell<Value<'c>>),
    Lazy(Lazy<Given<'c>, Init<'c>>),
}

/// A cell, and what went through it.
#[derive(Drop)]
pub struct Asked<'c> {
    pub cell: Cell<'c>,
    pub tally: &'c Tally,
}

impl<'c> Asked<'c> {
    /// Makes a future of the cell and uses it: what it answered last. A lazy cell drops this init.
    pub fn asked<R: Host>(
        &self,
        rt: &R,
        task: &MockTask,
        parker: &mut Parker,
        init: Init<'c>,
        way: Way,
    ) -> Option<Reply> {
        let waits = !matches!(way, Way::Block | Way::Drive | Way::Leave(_));
        match &self.cell {
            Cell::Once(cell) if waits => waited(cell.get_or_init(rt, init), cell, parker, way),
            Cell::Once(cell) => used(rt, task, Asking::Once(cell.get_or_init(rt, init)), way),
            Cell::Try(cell) if waits => waited(cell.get_or_try_init(rt, init), cell, parker, way),
            Cell::Try(cell) => used(rt, task, Asking::Try(cell.get_or_try_init(rt, init)), way),
            Cell::Lazy(lazy) if waits => waited_lazily(rt, lazy, parker, way),
            Cell::Lazy(lazy) => used(rt, task, Asking::Lazy(lazy.get(rt)), way),
        }
    }

    /// The value that it has.
    pub fn has(&self) -> Option<u64> {
        match &self.cell {
            Cell::Once(cell) => cell.get()?.number().ok(),
            Cell::Try(cell) => Some(cell.get()?.number),
            Cell::Lazy(lazy) => lazy.try_get()?.number().ok(),
        }
    }

    /// Whether it shows that nobody uses it any more, and that it has a value or has none.
    pub fn is_left<R: Host>(&self, rt: &R, with_value: bool) -> bool {
        match &self.cell {
            Cell::Once(cell) => is_unused(rt, cell, with_value),
            Cell::Try(cell) => is_unused(rt, cell, with_value),
            Cell::Lazy(lazy) => is_unused(rt, lazy, with_value),
        }
    }
}

fn is_unused<R: Host>(rt: &R, cell: &impl Debug, with_value: bool) -> bool {
    if with_value {
        is_filled(rt, cell)
    } else {
        is_free(rt, cell)
    }
}
