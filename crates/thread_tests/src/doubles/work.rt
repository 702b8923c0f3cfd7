//! What several threads do at a time, where they meet, and what came of it.

use crate::doubles::counted::Tried;
use async_once_cell::Parker;
use cell_doubles::poll::tasks;
use futures::Future;
use futures::task::{Context, Poll};
use futures::test::MockTask;
use std::alloc::AllocGlobal;
use std::fmt::Debug;
use std::io;
use std::process::Abort;
use std::random::RandomSource;
use std::sync::Wait;
use std::sync::atomic::{AtomicU64, Ordering};
use std::thread::{self, Threads};
use std::time::Clock;

/// A handle for all that a thread does.
pub trait Host: Wait + AllocGlobal + Clock + RandomSource {}

impl<R: Wait + AllocGlobal + Clock + RandomSource> Host for R {}

/// A handle for threads that have one.
pub trait Hosts: Host + Threads + Sync {}

impl<R: Host + Threads + Sync> Hosts for R {}

/// What each of several threads does.
pub trait Work {
    /// What the thread of this number does, with a task that polls and a parker that waits: how often all went as it
    /// may.
    fn goes<R: Host>(&self, rt: &R, task: &MockTask, parker: &mut Parker, thread: u64) -> u64;
}

/// Has so many threads do it: how often all went as it may.
pub fn by_threads<W: Work + Sync, R: Hosts>(rt: &R, threads: u64, work: &W) -> io::Result<u64> {
    let tasks = tasks(rt, threads as usize)?;
    let go = |thread: usize| match (tasks.get(thread), Parker::new(rt)) {
        (Some(task), Ok(mut parker)) => work.goes(rt, task, &mut parker, thread as u64),
        _ => 0,
    };
    let went = thread::map_indices(rt, rt.alloc(), tasks.len(), &go)?;
    let mut sum = 0u64;
    for times in &went {
        sum = sum.wrapping_add(*times);
    }
    Ok(sum)
}

/// Fails by this name if something else came than is wanted. No other assert is in these tests.
pub fn same<T: PartialEq + Debug + Drop>(rt: &impl Abort, name: &str, found: T, wanted: T) {
    assert_eq!(rt; found, wanted, "{name}");
}

/// Where threads meet: each says that it came, and may wait for the others.
#[derive(Drop)]
pub struct Meeting {
    came: AtomicU64,
}

impl Meeting {
    pub fn new() -> Self {
        let came = AtomicU64::new(0);
        Meeting { came }
    }

    /// Says that one more came.
    pub fn come(&self) {
        self.came.fetch_add(1, Ordering::SeqCst);
    }

    /// How many came.
    pub fn came(&self) -> u64 {
        self.came.load(Ordering::SeqCst)
    }

    /// Waits until so many came, but not for ever: whether they did.
    pub fn has(&self, number: u64) -> bool {
        for _ in 0..100_000_000 {
            if self.came() >= number {
                return true;
            }
            thread::yield_now();
        }
        false
    }
}

/// An init that keeps its thread until another thread came too. Then it answers so; it fails with 1 if none came.
#[derive(Drop)]
pub struct Gate<'m> {
    pub meeting: &'m Meeting,
    pub answer: Tried,
}

impl Future for Gate<'_> {
    type Output = Tried;

    fn poll(&mut self, _cx: &mut Context<'_>) -> Poll<Tried> {
        self.meeting.come();
        let is_met = self.meeting.has(2);
        Poll::Ready(if is_met { self.answer } else { Err(1) })
    }
}
