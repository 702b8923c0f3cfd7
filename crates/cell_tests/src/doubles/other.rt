//! Another future of a cell, which an init polls or drops when it is polled or dropped itself.

use crate::doubles::expected::cell_shows;
use crate::doubles::poll::polled;
use crate::doubles::stub::{Stub, count};
use async_once_cell::OnceCell;
use async_once_cell::once::InitFuture;
use async_once_cell::record::Reply;
use futures::Future;
use futures::task::{Context, Poll, Waker};
use futures::test::MockTask;
use std::alloc::AllocGlobal;
use std::cell::Cell;
use std::mem::replace;
use std::sync::{Mutex, Wait};

/// An init that is Pending once, and then gives 4.
#[derive(Drop)]
pub struct Later {
    was_polled: bool,
}

impl Future for Later {
    type Output = u64;

    fn poll(&mut self, cx: &mut Context<'_>) -> Poll<u64> {
        if replace(&mut self.was_polled, true) {
            return Poll::Ready(4);
        }
        cx.yield_now()
    }
}

pub const LATER: Later = Later { was_polled: false };

/// Another future of a cell, with a task of its own.
#[derive(Drop)]
pub struct Other<'a, R: Wait + AllocGlobal> {
    rt: &'a R,
    cell: &'a OnceCell<u64>,
    // None polls as if there were no future.
    task: Option<&'a MockTask>,
    future: Mutex<Option<InitFuture<'a, u64, Later, R>>>,
    /// What its last poll answered.
    pub heard: Cell<Option<Reply>>,
    /// Whether the cell showed what an init wanted that looked at it.
    pub found: Cell<Option<bool>>,
}

impl<'a, R: Wait + AllocGlobal> Other<'a, R> {
    pub fn new(cell: &'a OnceCell<u64>, rt: &'a R, task: Option<&'a MockTask>) -> Self {
        Other {
            rt,
            cell,
            task,
            future: Mutex::new(Some(cell.get_or_init(rt, LATER))),
            heard: Cell::new(None),
            found: Cell::new(None),
        }
    }

    // Takes the future out, so that the lock is free while it is polled or dropped.
    fn take_out(&self) -> Option<InitFuture<'a, u64, Later, R>> {
        self.future.lock(self.rt).take()
    }

    /// Polls it, and answers what it did.
    pub fn poll(&self) -> Option<Reply> {
        let (task, mut future) = (self.task?, self.take_out()?);
        let reply = polled(task, &mut future);
        *self.future.lock(self.rt) = Some(future);
        self.heard.set(Some(reply));
        Some(reply)
    }

    // Polls it and drops it. That nothing was heard stands for a cell that was set between.
    fn visit(&self) {
        self.poll();
        if self.cell.get().is_some() {
            self.heard.set(None);
        }
        drop(self.take_out());
    }

    fn obey(&self, act: &str) {
        match act {
            "poll" => {
                self.poll();
            }
            "drop" => drop(self.take_out()),
            "visit" => self.visit(),
            "" => {}
            words => self.found.set(Some(cell_shows(self.cell, words))),
        }
    }
}

/// An init that does as its stub says, and may `poll` the other future of its cell, `drop` it, or `visit` it, which is
/// both. All other words are what the cell is to show then. It looks without memory.
pub struct Meddling<'o, 'a, O: Copy, R: Wait + AllocGlobal> {
    other: &'o Other<'a, R>,
    stub: &'o Stub<O>,
    // What it does in each poll, a word for each.
    acts: &'o str,
    // What it does when it is dropped.
    last: &'o str,
    waker: Option<Waker>,
}

impl<'o, 'a, O: Copy, R: Wait + AllocGlobal> Meddling<'o, 'a, O, R> {
    pub fn new(
        other: &'o Other<'a, R>,
        stub: &'o Stub<O>,
        (acts, last): (&'o str, &'o str),
    ) -> Self {
        count(&stub.made);
        Meddling {
            other,
            stub,
            acts,
            last,
            waker: None,
        }
    }
}

impl<O: Copy, R: Wait + AllocGlobal> Future for Meddling<'_, '_, O, R> {
    type Output = O;

    fn poll(&mut self, cx: &mut Context<'_>) -> Poll<O> {
        let (act, rest) = self.acts.split_once(' ').unwrap_or((self.acts, ""));
        self.acts = rest;
        self.other.obey(act);
        match self.stub.asked() {
            Some(answer) => Poll::Ready(answer),
            None => self.stub.pending(cx, &mut self.waker),
        }
    }
}

impl<O: Copy, R: Wait + AllocGlobal> Drop for Meddling<'_, '_, O, R> {
    fn drop(self) {
        let Meddling {
            other,
            stub,
            acts: _,
            last,
            waker: _,
        } = self;
        count(&stub.drops);
        other.obey(last);
    }
}
