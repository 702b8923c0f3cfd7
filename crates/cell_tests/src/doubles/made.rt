//! Futures of cells that a schedule makes.

use crate::doubles::other::Meddling;
use crate::doubles::poll::heard;
use crate::doubles::stub::{Init, Tried};
use async_once_cell::LazyFuturePin;
use async_once_cell::once::{InitFuture, TryInitFuture};
use async_once_cell::record::Reply;
use futures::Future;
use futures::task::Context;
use futures::test::MockTask;
use std::alloc::{AllocError, AllocGlobal, Global};
use std::sync::Wait;
use test_doubles::text::text_of;

// The kit knows that an init outlives the loan of its lazy cell if the init is a type parameter, as it is
// here, and not if it is a type that borrows.
fn lazy_text<F: Future, R: Wait + AllocGlobal>(
    alloc: Global,
    future: &LazyFuturePin<'_, u64, F, R>,
) -> Result<String, AllocError> {
    text_of(alloc, future)
}

/// A future of a cell, by the kind of its init.
#[derive(Drop)]
pub enum Made<'o, 'a, 'i, R: Wait + AllocGlobal> {
    Sure(InitFuture<'o, u64, Meddling<'o, 'a, u64, R>, R>),
    Trying(TryInitFuture<'o, u64, u64, Meddling<'o, 'a, Tried, R>, R>),
    Lazily(LazyFuturePin<'o, u64, Init<'i, u64>, R>),
}

impl<R: Wait + AllocGlobal> Made<'_, '_, '_, R> {
    fn poll(&mut self, cx: &mut Context<'_>) -> Reply {
        match self {
            Made::Sure(future) => heard(Future::poll(future, cx)),
            Made::Trying(future) => heard(Future::poll(future, cx)),
            Made::Lazily(future) => heard(Future::poll(future, cx)),
        }
    }

    /// What a poll by this task answers, and whether the future is done then.
    pub fn polled(&mut self, task: &MockTask) -> (Reply, bool) {
        let reply = task.enter(|cx| self.poll(cx));
        (reply, self.is_finished())
    }

    /// Polls it, if its task was woken and it is not done. Whether it is done then.
    pub fn is_settled(&mut self, task: &MockTask) -> bool {
        if task.is_woken() && !self.is_finished() {
            self.polled(task);
        }
        self.is_finished()
    }

    /// Whether the future is done.
    pub fn is_finished(&self) -> bool {
        match self {
            Made::Sure(future) => future.is_finished(),
            Made::Trying(future) => future.is_finished(),
            Made::Lazily(future) => future.is_finished(),
        }
    }

    /// Calls `leave` of a future that is not done and can't fail.
    pub fn leave(&mut self) {
        match self {
            Made::Sure(future) if !future.is_finished() => future.leave(),
            Made::Lazily(future) if !future.is_finished() => future.leave(),
            _ => {}
        }
    }

    /// The Debug text of the future.
    pub fn shown(&self, alloc: Global) -> Result<String, AllocError> {
        match self {
            Made::Sure(future) => text_of(alloc, future),
            Made::Trying(future) => text_of(alloc, future),
            Made::Lazily(future) => lazy_text(alloc, future),
        }
    }
}
