//! A program that writes down what it sees of a cell, and has that judged at its end: whether a run of the cell has it.

use async_once_cell::record::{Entry, Kind, Ran, Reply};
use async_once_cell::{InitFuture, OnceCell, Refused};
use futures::Future;
use futures::executor::block_on;
use futures::task::{Context, Poll};
use once_judge::{Calls, Verdict, judge};
use once_view::observed::{Answer, BadEvents, Event, Observed, linearize};
use std::alloc::AllocGlobal;
use std::random::RandomSource;
use std::sync::{Mutex, Wait};
use std::thread::{self, Threads};

/// How many tasks may be counted in at a cell.
const MOST: u64 = (1 << 62) - 2;

/// What was written down so far, by all threads; or `None`, if memory for that was refused.
#[derive(Drop)]
struct Log {
    events: Mutex<Option<Vec<Event>>>,
}

impl Log {
    fn write<R: Wait>(&self, rt: &R, entry: Entry) {
        let mut events = self.events.lock(rt);
        let is_written = match &mut *events {
            Some(list) => list.push(Event::Entry(entry)).is_ok(),
            None => true,
        };
        if !is_written {
            *events = None;
        }
    }
}

/// An init that lets others run once, and then gives the number of its task. Each poll of it is written down.
#[derive(Drop)]
struct Slow<'a, R> {
    task: u64,
    is_polled: bool,
    log: &'a Log,
    rt: &'a R,
}

impl<R: Wait> Future for Slow<'_, R> {
    type Output = u64;

    fn poll(&mut self, cx: &mut Context<'_>) -> Poll<u64> {
        if self.is_polled {
            let answer = Ran::Value(self.task);
            self.log.write(self.rt, Entry::Ran(self.task, answer));
            return Poll::Ready(self.task);
        }
        self.is_polled = true;
        self.log.write(self.rt, Entry::Ran(self.task, Ran::Pending));
        cx.yield_now()
    }
}

/// A task that asks the cell. Each poll of it is written down.
#[derive(Drop)]
struct Task<'a, R: Wait + AllocGlobal> {
    number: u64,
    future: InitFuture<'a, u64, Slow<'a, R>, R>,
    log: &'a Log,
    rt: &'a R,
}

impl<R: Wait + AllocGlobal> Future for Task<'_, R> {
    type Output = ();

    fn poll(&mut self, cx: &mut Context<'_>) -> Poll<()> {
        self.log
            .write(self.rt, Entry::Begin(self.number, self.number));
        let polled = Future::poll(&mut self.future, cx);
        let is_pending = polled.is_pending();
        let reply = heard(polled);
        self.log.write(self.rt, Entry::End(self.number, reply));
        if is_pending {
            return Poll::Pending;
        }
        Poll::Ready(())
    }
}

// What a poll answered, in the words of a record.
fn heard(polled: Poll<Result<&u64, Refused>>) -> Reply {
    match polled {
        Poll::Pending => Reply::Pending,
        Poll::Ready(Ok(value)) => Reply::Value(*value),
        Poll::Ready(Err(Refused::Memory)) => Reply::Memory,
        Poll::Ready(Err(Refused::Full)) => Reply::Full,
    }
}

/// Has this thread ask a cell by a task.
fn ask<R>(rt: &R, cell: &OnceCell<u64>, log: &Log, task: u64) -> bool
where
    R: Wait + RandomSource + AllocGlobal,
{
    log.write(rt, Entry::Made(task));
    let init = Slow {
        task,
        is_polled: false,
        log,
        rt,
    };
    let task = Task {
        number: task,
        future: cell.get_or_init(rt, init),
        log,
        rt,
    };
    block_on(rt, task).is_ok()
}

/// Whether a run of a cell has what was written down, and nobody is forgotten in it.
fn is_run<R: AllocGlobal>(rt: &R, events: Vec<Event>) -> Result<bool, BadEvents> {
    let observed = Observed {
        kind: Kind::Once,
        limit: MOST,
        are_wakes_seen: false,
        events,
    };
    let Answer::Run(entries) = linearize(rt.alloc(), &observed, Calls::One, 100_000)? else {
        return Ok(false);
    };
    let verdict = judge(rt.alloc(), &Kind::Once, MOST, Calls::One, &entries)?;
    Ok(matches!(
        verdict,
        Verdict {
            fault: None,
            forgotten: None
        }
    ))
}

/// Has three threads ask a cell. Whether what they saw is of a run.
pub fn ask_thrice<R>(rt: &R) -> Result<bool, BadEvents>
where
    R: Threads + Wait + RandomSource + AllocGlobal + Sync,
{
    let log = Log {
        events: Mutex::new(Some(Vec::new(rt.alloc()))),
    };
    let cell = OnceCell::new();
    let ask = |thread: usize| ask(rt, &cell, &log, thread as u64);
    thread::map_indices(rt, rt.alloc(), 3, &ask)?;
    let events = log.events.lock(rt).take();
    match events {
        Some(events) => is_run(rt, events),
        None => Ok(false),
    }
}
