//! Inits that do as a test tells them.
ghost use Rattle.std.specs.Prelude.{◌≡◌};
ghost use Rattle.futures.specs.Task.{IsArmed, Keeps};

use futures::Future;
use futures::task::{Context, Poll, Source, Waker};
use std::cell::Cell;

/// The answer of an init that may fail.
pub type Tried = Result<u64, u64>;

/// What a test tells its inits, and what they went through.
#[derive(Drop)]
pub struct Stub<O: Copy> {
    /// What the inits answer. None has them be Pending.
    pub answer: Cell<Option<O>>,
    /// Whether an init that is Pending asks for nothing, and not for another poll of its task.
    pub is_silent: Cell<bool>,
    // What such an init waits for, which never comes.
    source: Source,
    /// How many were made.
    pub made: Cell<u64>,
    /// How often they were polled.
    pub polls: Cell<u64>,
    /// How many were dropped.
    pub drops: Cell<u64>,
}

impl<O: Copy> Stub<O> {
    /// For inits that are Pending until the test tells them an answer.
    pub fn new() -> Self {
        Stub {
            answer: Cell::new(None),
            is_silent: Cell::new(false),
            source: Source::new(),
            made: Cell::new(0),
            polls: Cell::new(0),
            drops: Cell::new(0),
        }
    }

    /// An init that does as the stub says.
    pub fn init(&self) -> Init<'_, O> {
        count(&self.made);
        Init {
            stub: self,
            waker: None,
        }
    }

    /// What an init of it answers to a poll, which it counts. None says that it is Pending.
    pub fn asked(&self) -> Option<O> {
        count(&self.polls);
        self.answer.get()
    }

    /// What an init does that is Pending: it asks for another poll, or only leaves its task's waker here.
    pub fn pending(&self, cx: &mut Context<'_>, waker: &mut Option<Waker>) -> Poll<O>
        ensures pending { result ≡ Poll.Pending }
        ensures armed { IsArmed cx.new }
        ensures kept { Keeps cx.old cx.new }
    {
        if self.is_silent.get() {
            return cx.register(&self.source, waker);
        }
        cx.yield_now()
    }

    /// How often its inits were polled, and how many were dropped.
    pub fn counts(&self) -> (u64, u64) {
        (self.polls.get(), self.drops.get())
    }
}

/// An init that does as a stub says.
pub struct Init<'a, O: Copy> {
    stub: &'a Stub<O>,
    waker: Option<Waker>,
}

impl<O: Copy> Drop for Init<'_, O> {
    fn drop(self) {
        let Init { stub, waker: _ } = self;
        count(&stub.drops);
    }
}

impl<O: Copy> Future for Init<'_, O> {
    type Output = O;

    fn poll(&mut self, cx: &mut Context<'_>) -> Poll<O> {
        match self.stub.asked() {
            Some(answer) => Poll::Ready(answer),
            None => self.stub.pending(cx, &mut self.waker),
        }
    }
}

/// Counts one more.
pub fn count(times: &Cell<u64>) {
    times.set(times.get().wrapping_add(1));
}
