//! The cells that make the calls, their inits and their futures.

use super::inits::{Answer, Told};
use super::machine::Seen;
use super::wakers::Wakers;
use super::whole::Whole;
use async_once_cell::record::Reply;
use async_once_cell::{LazyFuturePin, OnceCell, TryInitFuture};
use cell_doubles::poll::heard;
use futures::Future;
use futures::task::{Context, Poll};
use once_script::world::{Call, Got, Input, Kind, Ran};
use std::alloc::{AllocError, AllocGlobal, Global};
use std::collections::BTreeMap;
use std::mem::replace;
use std::sync::Wait;
use test_doubles::memory::hoard;
use test_doubles::text::text_of;

/// A future of a lazy cell, which has these answers, the last one first. If it has none left it is Pending.
#[derive(Drop)]
pub struct Answers {
    left: Vec<Option<u64>>,
}

impl Answers {
    fn new(alloc: Global, answers: &[Option<u64>]) -> Result<Self, AllocError> {
        let mut left = Vec::from_slice(alloc, answers)?;
        left.reverse();
        Ok(Answers { left })
    }

    // What it has left, the first one first.
    fn into_left(self) -> Vec<Option<u64>> {
        let Answers { mut left } = self;
        left.reverse();
        left
    }
}

impl Future for Answers {
    type Output = u64;

    fn poll(&mut self, cx: &mut Context<'_>) -> Poll<u64> {
        match self.left.pop() {
            Some(Some(value)) => Poll::Ready(value),
            _ => cx.yield_now(),
        }
    }
}

type Lazy = async_once_cell::Lazy<u64, Answers>;

/// A cell of either kind.
#[derive(Drop)]
pub enum Cell {
    Once(OnceCell<u64>),
    Lazy(Lazy),
}

impl Cell {
    pub fn new(alloc: Global, kind: &Kind) -> Result<Self, AllocError> {
        Ok(match kind {
            Kind::Once => Cell::Once(OnceCell::new()),
            Kind::OnceWith(value) => Cell::Once(OnceCell::new_with(*value)),
            Kind::Lazy(answers) => Cell::Lazy(Lazy::new(Answers::new(alloc, answers)?)),
            Kind::LazyWith(value) => Cell::Lazy(Lazy::with_value(*value)),
        })
    }

    fn value(&self) -> Option<u64> {
        match self {
            Cell::Once(cell) => cell.get().copied(),
            Cell::Lazy(cell) => cell.try_get().copied(),
        }
    }

    /// Its Debug text.
    pub fn shown(&self, alloc: Global) -> Result<String, AllocError> {
        match self {
            Cell::Once(cell) => text_of(alloc, cell),
            Cell::Lazy(cell) => text_of(alloc, cell),
        }
    }

    /// What a call of the owner answers, as text.
    pub fn owned(&mut self, alloc: Global, whole: &Whole) -> Result<String, AllocError> {
        match &whole.input {
            Input::Own(call) => text_of(alloc, &self.own(alloc, call)?),
            _ => Ok(String::new(alloc)),
        }
    }

    fn own(&mut self, alloc: Global, call: &Call) -> Result<Got, AllocError> {
        let found = match (self, call) {
            (Cell::Once(cell), Call::Take) => cell.take(),
            (Cell::Once(cell), Call::Write(value)) => written(cell.get_mut(), *value),
            (Cell::Lazy(cell), Call::Write(value)) => written(cell.try_get_mut(), *value),
            (Cell::Lazy(cell), Call::ReplaceValue(value)) => {
                cell.replace_and_take(Lazy::with_value(*value))
            }
            (Cell::Lazy(cell), Call::ReplaceAnswers(answers)) => {
                cell.replace_and_take(Lazy::new(Answers::new(alloc, answers)?))
            }
            (Cell::Lazy(cell), Call::Parts) => {
                let rest = Lazy::new(Answers::new(alloc, &[])?);
                return Ok(parts(replace(cell, rest)));
            }
            _ => None,
        };
        Ok(found.map_or(Got::None, Got::Value))
    }
}

// Writes a value in the place of another: that one.
fn written(place: Option<&mut u64>, value: u64) -> Option<u64> {
    Some(replace(place?, value))
}

fn parts(cell: Lazy) -> Got {
    match cell.into_parts() {
        Ok(value) => Got::Value(value),
        Err(Some(answers)) => Got::Answers(answers.into_left()),
        Err(None) => Got::None,
    }
}

// A future of a cell.
#[derive(Drop)]
enum Made<'a, R: Wait + AllocGlobal> {
    Trying(TryInitFuture<'a, u64, u64, Told<'a>, R>),
    Lazily(LazyFuturePin<'a, u64, Answers, R>),
}

impl<R: Wait + AllocGlobal> Made<'_, R> {
    fn is_finished(&self) -> bool {
        match self {
            Made::Trying(future) => future.is_finished(),
            Made::Lazily(future) => future.is_finished(),
        }
    }

    // What a poll answers of a future that is not finished.
    fn poll(&mut self, cx: &mut Context<'_>) -> Option<Reply> {
        if self.is_finished() {
            return None;
        }
        Some(match self {
            Made::Trying(future) => heard(Future::poll(future, cx)),
            Made::Lazily(future) => heard(Future::poll(future, cx)),
        })
    }

    // The same without memory, unless it is granted.
    fn poll_granted(
        &mut self,
        cx: &mut Context<'_>,
        alloc: Global,
        is_granted: bool,
    ) -> Result<Option<Reply>, AllocError> {
        if is_granted {
            return Ok(self.poll(cx));
        }
        let held = hoard(alloc)?;
        let reply = self.poll(cx);
        drop(held);
        Ok(reply)
    }
}

/// A cell with its futures, between two calls of the owner.
#[derive(Drop)]
pub struct Stage<'a, R: Wait + AllocGlobal> {
    pub rt: &'a R,
    pub cell: &'a Cell,
    pub wakers: &'a Wakers,
    answer: &'a Answer,
    futures: BTreeMap<u64, Made<'a, R>>,
}

impl<'a, R: Wait + AllocGlobal> Stage<'a, R> {
    pub fn new(rt: &'a R, cell: &'a Cell, wakers: &'a Wakers, answer: &'a Answer) -> Self {
        Stage {
            rt,
            cell,
            wakers,
            answer,
            futures: BTreeMap::new(rt.alloc()),
        }
    }

    /// What is seen of a call.
    pub fn seen(&mut self, whole: &Whole) -> Result<Seen, AllocError> {
        let told = self.told(whole)?;
        seen(self.rt, self.wakers, self.cell, told)
    }

    fn told(&mut self, whole: &Whole) -> Result<String, AllocError> {
        let alloc = self.rt.alloc();
        match &whole.input {
            Input::Make(task) => {
                let made = self.made();
                self.futures.insert(*task, made)?;
            }
            Input::Poll(task, waker) => {
                if let Some(reply) = self.polled(whole, *task, *waker)? {
                    return text_of(alloc, &reply);
                }
            }
            Input::Drop(task) => {
                if self.is_dropped(*task) {
                    return text_of(alloc, &"dropped");
                }
            }
            Input::Look => return text_of(alloc, &self.cell.value()),
            _ => {}
        }
        Ok(String::new(alloc))
    }

    fn made(&self) -> Made<'a, R> {
        match self.cell {
            Cell::Once(cell) => Made::Trying(cell.get_or_try_init(self.rt, Told::new(self.answer))),
            Cell::Lazy(cell) => Made::Lazily(cell.get(self.rt)),
        }
    }

    fn polled(
        &mut self,
        whole: &Whole,
        task: u64,
        waker: u64,
    ) -> Result<Option<Reply>, AllocError> {
        let (rt, wakers) = (self.rt, self.wakers);
        self.answer.set(whole.answer);
        let Some(future) = self.futures.get_mut(&task) else {
            return Ok(None);
        };
        let (alloc, is_granted) = (rt.alloc(), whole.is_granted);
        match wakers.enter(rt, waker, |cx| future.poll_granted(cx, alloc, is_granted)) {
            Some(reply) => reply,
            None => Ok(None),
        }
    }

    // Drops a future. Whether it was not finished.
    fn is_dropped(&mut self, task: u64) -> bool {
        match self.futures.remove(&task) {
            Some(future) => !future.is_finished(),
            None => false,
        }
    }
}

/// What is seen after a call that answered this.
pub fn seen<R: Wait + AllocGlobal>(
    rt: &R,
    wakers: &Wakers,
    cell: &Cell,
    told: String,
) -> Result<Seen, AllocError> {
    Ok(Seen {
        told,
        woken: wakers.woken(rt)?,
        shown: cell.shown(rt.alloc())?,
    })
}
