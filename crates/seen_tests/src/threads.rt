//! Three threads use one cell, and write down all that they do and see: a run of the cell has that.
//!
//! In half of the rounds the calls of the threads overlap, and a task sees no more of a wake than that it was woken. In
//! the other half one call is made at a time, so that each wake is seen with the call that made it.

use crate::seen::run_of;
use async_once_cell::record::{Entry, Kind, Ran, Reply};
use async_once_cell::{OnceCell, TryInitFuture};
use cell_doubles::poll::{heard, tasks};
use futures::Future;
use futures::task::{Context, Poll};
use futures::test::MockTask;
use once_view::observed::{Event, Observed};
use rand_core::{Rng, SeedableRng};
use rand_xoshiro::Xoshiro256PlusPlus;
use std::alloc::AllocGlobal;
use std::io;
use std::random::RandomSource;
use std::sync::{Mutex, MutexGuard, Wait};
use std::test::Fail;
use std::thread::{self, Threads};
use std::time::{Clock, Duration};

type Tried = Result<u64, u64>;

const ROUNDS: u64 = 100;

const THREADS: usize = 3;

// How many futures a thread makes in a round, one after another. Each has a task of its own.
const TURNS: usize = 3;

const TASKS: usize = 9;

// How many tasks may be counted in at a cell.
const MOST: u64 = (1 << 62) - 2;

// What the threads of a round have written down, in the order in which they did so.
#[derive(Drop)]
struct Log<'a, R> {
    rt: &'a R,
    tasks: &'a [MockTask],
    // None if memory for that was refused.
    events: Mutex<Option<Vec<Event>>>,
    // Whether one call is made at a time, for which a thread keeps this lock.
    is_by_turns: bool,
    turn: Mutex<()>,
}

impl<'a, R: Wait + AllocGlobal> Log<'a, R> {
    fn new(rt: &'a R, tasks: &'a [MockTask], is_by_turns: bool) -> Self {
        Log {
            rt,
            tasks,
            events: Mutex::new(Some(Vec::new(rt.alloc()))),
            is_by_turns,
            turn: Mutex::new(()),
        }
    }

    fn write(&self, event: Event) {
        let mut events = self.events.lock(self.rt);
        let is_written = match &mut *events {
            Some(list) => list.push(event).is_ok(),
            None => true,
        };
        if !is_written {
            *events = None;
        }
    }

    fn write_entry(&self, entry: Entry) {
        self.write(Event::Entry(entry));
    }

    // The turn of a call, if one is made at a time.
    fn turn(&self) -> Option<MutexGuard<'_, ()>> {
        if self.is_by_turns {
            Some(self.turn.lock(self.rt))
        } else {
            None
        }
    }

    // Whether this task polled its init in its last call.
    fn has_run(&self, number: usize) -> bool {
        let events = self.events.lock(self.rt);
        let Some(list) = &*events else {
            return false;
        };
        for event in list.iter().rev() {
            match event {
                Event::Entry(Entry::Ran(task, _)) if *task == number as u64 => return true,
                Event::Entry(Entry::Begin(task, _)) if *task == number as u64 => return false,
                _ => {}
            }
        }
        false
    }

    // Which tasks are woken.
    fn woken(&self) -> [bool; TASKS] {
        let mut woken = [false; TASKS];
        for (task, is_woken) in self.tasks.iter().zip(&mut woken) {
            *is_woken = task.is_woken();
        }
        woken
    }

    // Writes down which others this task's call woke, if one call is made at a time.
    fn write_woken(&self, number: usize, before: &[bool; TASKS]) {
        if !self.is_by_turns {
            return;
        }
        let after = self.woken();
        for (other, (was, is)) in before.iter().zip(&after).enumerate() {
            if other != number && !*was && *is {
                self.write(Event::Woke(number as u64, other as u64));
            }
        }
    }
}

// An init that is Pending so often, and then answers so. Each poll of it is written down.
#[derive(Drop)]
struct Init<'a, R> {
    log: &'a Log<'a, R>,
    number: usize,
    pending: u64,
    answer: Tried,
}

impl<'a, R> Init<'a, R> {
    // Two of three inits fail.
    fn new(log: &'a Log<'a, R>, number: usize, chance: u64) -> Self {
        let told = number as u64;
        Init {
            log,
            number,
            pending: chance % 4,
            answer: if chance / 4 % 3 == 0 {
                Ok(told)
            } else {
                Err(told)
            },
        }
    }
}

impl<R: Wait + AllocGlobal> Future for Init<'_, R> {
    type Output = Tried;

    fn poll(&mut self, cx: &mut Context<'_>) -> Poll<Tried> {
        let (task, answer) = (self.number as u64, self.answer);
        let Some(left) = self.pending.checked_sub(1) else {
            self.log.write_entry(match answer {
                Ok(value) => Entry::Ran(task, Ran::Value(value)),
                Err(error) => Entry::Ran(task, Ran::Error(error)),
            });
            return Poll::Ready(answer);
        };
        self.pending = left;
        self.log.write_entry(Entry::Ran(task, Ran::Pending));
        thread::yield_now();
        cx.yield_now()
    }
}

type Asked<'a, R> = TryInitFuture<'a, u64, u64, Init<'a, R>, R>;

// Polls a future by its task.
fn polled<'a, R>(log: &'a Log<'a, R>, number: usize, future: &mut Asked<'a, R>) -> Reply
where
    R: Wait + AllocGlobal,
{
    let Some(task) = log.tasks.get(number) else {
        return Reply::Full;
    };
    let (_turn, before) = (log.turn(), log.woken());
    log.write_entry(Entry::Begin(number as u64, number as u64));
    let reply = task.enter(|cx| heard(Future::poll(future, cx)));
    log.write_woken(number, &before);
    log.write_entry(Entry::End(number as u64, reply));
    reply
}

// Drops a future.
fn dropped<'a, R: Wait + AllocGlobal>(log: &'a Log<'a, R>, number: usize, future: Asked<'a, R>) {
    let (_turn, before) = (log.turn(), log.woken());
    log.write_entry(Entry::DropBegin(number as u64));
    drop(future);
    log.write_woken(number, &before);
    log.write_entry(Entry::DropEnd(number as u64));
}

// Waits a little until the task is woken that waits.
fn waited<R: Wait + AllocGlobal + Clock>(log: &Log<'_, R>, number: usize) {
    let Some(task) = log.tasks.get(number) else {
        return;
    };
    for _ in 0..20 {
        if task.is_woken() {
            log.write(Event::Woken(number as u64));
            return;
        }
        thread::sleep(log.rt, Duration::from_micros(20));
    }
}

// Polls a future so often, and then drops it, unless it answers before. If it waits, it is polled again when its task
// is woken, or else after a little while.
fn used<'a, R>(log: &'a Log<'a, R>, number: usize, mut future: Asked<'a, R>, polls: u64)
where
    R: Wait + AllocGlobal + Clock,
{
    for _ in 0..polls {
        if polled(log, number, &mut future) != Reply::Pending {
            return;
        }
        if !log.has_run(number) {
            waited(log, number);
        }
    }
    dropped(log, number, future);
}

// What a thread does in a round.
fn used_by_one<'a, R>(log: &'a Log<'a, R>, cell: &'a OnceCell<u64>, thread: usize, seed: u64)
where
    R: Wait + AllocGlobal + Clock,
{
    let mut random = Xoshiro256PlusPlus::seed_from_u64(seed.wrapping_mul(8) | thread as u64);
    for turn in 0..TURNS {
        let number = (thread % THREADS) * TURNS + turn;
        log.write_entry(Entry::Made(number as u64));
        let init = Init::new(log, number, random.next_u64());
        let future = cell.get_or_try_init(log.rt, init);
        used(log, number, future, random.next_u64() % 6);
    }
}

fn used_by_all<'a, R>(log: &'a Log<'a, R>, cell: &'a OnceCell<u64>, seed: u64) -> io::Result<()>
where
    R: Wait + AllocGlobal + Clock + Threads + Sync,
{
    let work = |thread: usize| used_by_one(log, cell, thread, seed);
    thread::map_indices(log.rt, log.rt.alloc(), THREADS, &work)?;
    Ok(())
}

// What three threads saw of a new cell, and what a look found after them. No events if memory for them was refused.
fn seen_of_a_round<R>(rt: &R, is_by_turns: bool, seed: u64) -> io::Result<Observed>
where
    R: Wait + AllocGlobal + Clock + RandomSource + Threads + Sync,
{
    let tasks = tasks(rt, TASKS)?;
    let (cell, log) = (OnceCell::new(), Log::new(rt, &tasks, is_by_turns));
    used_by_all(&log, &cell, seed)?;
    log.write_entry(Entry::Look(cell.get().copied()));
    let events = log.events.lock(rt).take();
    Ok(Observed {
        kind: Kind::Once,
        limit: MOST,
        are_wakes_seen: is_by_turns,
        events: events.unwrap_or(Vec::new(rt.alloc())),
    })
}

// Each round is of a run.
fn are_runs<R>(rt: &R, is_by_turns: bool) -> Result<(), Fail>
where
    R: Wait + AllocGlobal + Clock + RandomSource + Threads + Sync,
{
    for seed in 0..ROUNDS {
        let observed = seen_of_a_round(rt, is_by_turns, seed)?;
        if observed.events.is_empty() {
            return Err(Fail::new("nothing was seen"));
        }
        run_of(rt.alloc(), &observed, seed)?;
    }
    Ok(())
}

/// What three threads see of a cell, whose calls overlap, is of a run.
#[test]
fn calls_that_overlap_are_of_a_run(rt: HostRuntime) -> Result<(), Fail> {
    are_runs(&rt, false)
}

/// So is what they see if one call is made at a time: all wakes with the calls that made them.
#[test]
fn calls_by_turns_are_of_a_run(rt: HostRuntime) -> Result<(), Fail> {
    are_runs(&rt, true)
}
