//! Tasks that poll, whose wakers wake them in an order that a test sees.

use futures::task::{Context, Doorbell, Poll, Queue, Source, Waker};
use std::alloc::{AllocError, AllocGlobal};
use std::cell::Cell;
use std::io;
use std::random::RandomSource;
use std::sync::Wait;

/// How many tasks there are, which are numbered from 0.
pub const TASKS: u64 = 12;

// The number of one task more, whose turn tells that all were found that were woken before it.
const LAST: usize = 12;

/// Tasks of one queue, which has them in the order in which they were woken.
#[derive(Drop)]
pub struct Wakers {
    queue: Queue,
    source: Source,
    // A waker of each task, which is let go to have its turn come.
    own: Vec<Cell<Option<Waker>>>,
}

impl Wakers {
    pub fn new<R: Wait + AllocGlobal + RandomSource>(rt: &R) -> io::Result<Wakers> {
        let queue = Queue::new(rt, Doorbell::spinning())?;
        let mut own = Vec::new(rt.alloc());
        for _ in 0..=LAST {
            queue.add()?.schedule();
            own.push(Cell::new(None))?;
        }
        let wakers = Wakers {
            queue,
            source: Source::new(),
            own,
        };
        wakers.find(rt)?;
        Ok(wakers)
    }

    // The waker of a task, if it has one here.
    fn take(&self, task: usize) -> Option<Waker> {
        self.own.get(task)?.take()
    }

    // Ends a poll of a task, whose waker is kept here.
    fn rest(&self, mut cx: Context<'_>) {
        let task = cx.task();
        let mut waker = self.take(task);
        let _: Poll<()> = cx.register(&self.source, &mut waker);
        cx.park();
        if let Some(place) = self.own.get(task) {
            place.set(waker);
        }
    }

    /// Runs `f` as one poll of this task, if there is one.
    pub fn enter<T, R: Wait, F>(&self, rt: &R, task: u64, f: F) -> Option<T>
    where
        F: FnOnce(&mut Context<'_>) -> T + Drop,
        requires { F.IsAlwaysCallable f }
    {
        drop(self.take(task as usize)?);
        let mut cx = self.queue.next(rt)?;
        let value = f(&mut cx);
        self.rest(cx);
        Some(value)
    }

    // The tasks that were queued before the last one, in their order.
    fn find<R: Wait + AllocGlobal>(&self, rt: &R) -> Result<Vec<u64>, AllocError> {
        let mut found = Vec::with_capacity(rt.alloc(), LAST)?;
        for _ in 0..=LAST {
            let Some(cx) = self.queue.next(rt) else {
                break;
            };
            let task = cx.task();
            self.rest(cx);
            if task == LAST {
                break;
            }
            found.push(task as u64)?;
        }
        Ok(found)
    }

    /// The tasks that were woken since this was last asked, in their order.
    pub fn woken<R: Wait + AllocGlobal>(&self, rt: &R) -> Result<Vec<u64>, AllocError> {
        drop(self.take(LAST));
        self.find(rt)
    }
}
