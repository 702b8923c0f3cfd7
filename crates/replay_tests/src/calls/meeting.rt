//! A call of a `OnceCell` in whose middle others are made: when its init is polled, or when it asks for memory.

use super::cell::{Cell as AnyCell, Stage, seen};
use super::inits::{Answer, Told};
use super::machine::Seen;
use super::wakers::Wakers;
use super::whole::Whole;
use async_once_cell::TryInitFuture;
use cell_doubles::poll::heard;
use futures::Future;
use futures::task::{Context, Poll};
use once_script::world::{Input, Ran};
use std::alloc::{Alloc, AllocError, AllocGlobal, Global};
use std::cell::Cell;
use std::mem::replace;
use std::sync::{Mutex, Wait};
use test_doubles::text::text_of;

/// The futures that are used in the middle of a call of another.
#[derive(Drop)]
pub struct Meeting<'a, R: Wait + AllocGlobal> {
    rt: &'a R,
    wakers: &'a Wakers,
    cell: &'a AnyCell,
    stage: Mutex<Stage<'a, R>>,
    // The other calls, until they are made.
    others: Cell<Option<Vec<Whole>>>,
    // What the init of that call answers.
    answer: Answer,
    // What was seen of the others.
    noted: Mutex<Vec<Seen>>,
}

impl<'a, R: Wait + AllocGlobal> Meeting<'a, R> {
    pub fn new(stage: Stage<'a, R>) -> Self {
        let (rt, wakers, cell) = (stage.rt, stage.wakers, stage.cell);
        Meeting {
            rt,
            wakers,
            cell,
            stage: Mutex::new(stage),
            others: Cell::new(None),
            answer: Cell::new(Ran::Pending),
            noted: Mutex::new(Vec::new(rt.alloc())),
        }
    }

    /// The init of the future that makes the call.
    pub fn init(&self) -> Answering<'_, 'a, R> {
        Answering {
            meeting: self,
            told: Told::new(&self.answer),
        }
    }

    /// What is seen of a call of another future.
    pub fn seen(&self, whole: &Whole) -> Result<Seen, AllocError> {
        self.stage.lock(self.rt).seen(whole)
    }

    // Makes the other calls, if that was not done. One that can't be noted for want of memory is missed later.
    fn meet(&self) {
        let Some(others) = self.others.take() else {
            return;
        };
        for whole in &others {
            if let Ok(seen) = self.seen(whole) {
                let _ = self.noted.lock(self.rt).push(seen);
            }
        }
    }

    /// What is seen of a call of this future, after those in its middle.
    pub fn seen_over(
        &self,
        outer: &mut TryInitFuture<'_, u64, u64, Answering<'_, '_, R>, Meets<'_, '_, R>>,
        whole: &Whole,
        others: Vec<Whole>,
    ) -> Result<Vec<Seen>, AllocError> {
        let (rt, alloc) = (self.rt, self.rt.alloc());
        let mut told = String::new(alloc);
        if let Input::Poll(_, waker) = &whole.input {
            self.others.set(Some(others));
            self.answer.set(whole.answer);
            let reply = self
                .wakers
                .enter(rt, *waker, |cx| heard(Future::poll(outer, cx)));
            if let Some(reply) = reply {
                told = text_of(alloc, &reply)?;
            }
        }
        let mut all = replace(&mut *self.noted.lock(rt), Vec::new(alloc));
        all.push(seen(rt, self.wakers, self.cell, told)?)?;
        Ok(all)
    }
}

/// The handle of the future that makes the call.
#[derive(Drop)]
pub struct Meets<'o, 'a, R: Wait + AllocGlobal> {
    pub alloc: Global,
    pub meeting: &'o Meeting<'a, R>,
}

impl<R: Wait + AllocGlobal> Wait for Meets<'_, '_, R> {}

impl<R: Wait + AllocGlobal> Alloc for Meets<'_, '_, R> {
    type A = Global;

    fn alloc(&self) -> Global {
        self.meeting.meet();
        self.alloc
    }
}

/// Its init.
#[derive(Drop)]
pub struct Answering<'o, 'a, R: Wait + AllocGlobal> {
    meeting: &'o Meeting<'a, R>,
    told: Told<'o>,
}

impl<R: Wait + AllocGlobal> Future for Answering<'_, '_, R> {
    type Output = Result<u64, u64>;

    fn poll(&mut self, cx: &mut Context<'_>) -> Poll<Result<u64, u64>> {
        self.meeting.meet();
        self.told.poll(cx)
    }
}
