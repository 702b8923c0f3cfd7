//! What the contracts do not say of the table and of an answer. Whole runs are in `runs`.
ghost use Rattle.std.specs.Prelude.{◌*◌, ◌^◌, ◌<◌};

mod errors;
mod examples;
mod promised;
mod runs;
mod watched;

use crate::callers::Host;
use async_once_cell::once::{InitFuture, Refused};
use futures::future::{Pending, pending};
use futures::test::MockTask;
use memo_table::ask::{KEYS, ask};
use memo_table::fault::Fault;
use memo_table::table::Memo;
use pagebook::Fits;
use std::alloc::{AllocError, Global};
use std::fmt::Debug;
use std::process::Abort;
use std::sync::atomic::{AtomicU64, Ordering};
use std::test::Fail;
use std::thread::Threads;
use test_doubles::memory::hoard;
use watched::Watched;

// A handle for threads that have one.
trait Hosts: Host + Threads + Sync {}

impl<R: Host + Threads + Sync> Hosts for R {}

// The one comparison, which names the row or what is compared: an `assert_eq!` is dear to prove.
fn same<T: PartialEq + Debug + Drop>(rt: &impl Abort, name: &str, found: T, wanted: T) {
    assert_eq!(rt; found, wanted, "{name}");
}

// The same of two texts, which may live for different times.
fn same_text(rt: &impl Abort, name: &str, found: &str, wanted: &str) {
    assert_eq!(rt; found, wanted, "{name}");
}

fn table<V: Fits<u64>>(alloc: Global, keys: &[u64]) -> Result<Memo<u64, V>, AllocError> {
    let mut given = Vec::new(alloc);
    given.extend_from_slice(keys)?;
    Memo::promised(alloc, given)
}

// The value at a key, 0 if its cell is empty; None if there is no cell.
fn value_at(memo: &Memo<u64>, key: u64) -> Option<u64> {
    let cell = memo.cell(key)?;
    Some(cell.get().copied().unwrap_or(0))
}

// What is told of a key: its value, or the key that is missing.
fn told<R: Host>(
    rt: &R,
    memo: &Memo<u64>,
    fetches: &AtomicU64,
    key: u64,
) -> Result<u64, Option<u64>>
    requires { key * 10 < 2 ^ 64 }
{
    match ask(rt, memo, fetches, key, 1) {
        Ok(answer) => Ok(answer.value),
        Err(Fault::NoKey(key)) => Err(Some(key)),
        Err(_) => Err(None),
    }
}

/// A key has one cell, however often it was given, and another key another.
#[test]
fn cells_of_keys(rt: HostRuntime) -> Result<(), Fail> {
    let fetches = AtomicU64::new(0);
    let memo = table(rt.alloc(), &[7, 5, 7, u64::MAX])?;
    let (once, twice) = (told(&rt, &memo, &fetches, 7), told(&rt, &memo, &fetches, 7));
    let kept = [7, 5, u64::MAX].map(|key| value_at(&memo, key));
    same(&rt, "told twice", [once, twice], [Ok(70); 2]);
    same(&rt, "at each key", kept, [Some(70), Some(0), Some(0)]);
    same(&rt, "fetches", fetches.load(Ordering::SeqCst), 1);
    Ok(())
}

// Tables that lack 0, 5 and 7.
const OTHERS: [&[u64]; 2] = [&[4, 6], &[]];

/// A key that was not given has nothing, and a table of no keys has nothing at all.
#[test]
fn keys_without_a_cell(rt: HostRuntime) -> Result<(), Fail> {
    let fetches = AtomicU64::new(0);
    for keys in OTHERS {
        let memo = table(rt.alloc(), keys)?;
        let told = [
            told(&rt, &memo, &fetches, 0),
            told(&rt, &memo, &fetches, 5),
            told(&rt, &memo, &fetches, 7),
        ];
        let wanted = [Err(Some(0)), Err(Some(5)), Err(Some(7))];
        same(&rt, "three keys", told, wanted);
    }
    same(&rt, "fetches", fetches.load(Ordering::SeqCst), 0);
    Ok(())
}

/// If all memory is refused, no table is made.
#[test]
fn a_table_is_refused(rt: HostRuntime) -> Result<(), Fail> {
    let keys = vec![in rt.alloc(); 1, 2, 3]?;
    let held = hoard(rt.alloc())?;
    let is_made = Memo::<u64>::new(rt.alloc(), keys).is_ok();
    drop(held);
    same(&rt, "whether a table is made", is_made, false);
    Ok(())
}

// A future by which a task holds the cell of a key for good; None if the cell is not free.
fn holder<'a, R: Host, V: Fits<u64>>(
    rt: &'a R,
    memo: &'a Memo<u64, V>,
    key: u64,
    task: &MockTask,
) -> Option<InitFuture<'a, u64, Pending<u64>, R, V>> {
    let mut holder = memo.cell(key)?.get_or_init(rt, pending());
    if task.poll(&mut holder).is_ready() {
        return None;
    }
    Some(holder)
}

// How a caller ends that asks by this handle for a key within so many turns, while another task holds its cell.
fn end_beside<R: Host>(
    rt: &R,
    by: &Watched<'_, R>,
    memo: &Memo<u64>,
    turns: u64,
) -> Result<&'static str, Fault> {
    let (task, fetches) = (MockTask::new(rt)?, AtomicU64::new(0));
    let holder = holder(rt, memo, 1, &task).ok_or(Fault::NoKey(1))?;
    let answer = ask(by, memo, &fetches, 1, turns);
    drop(holder);
    Ok(match answer {
        Err(Fault::Refused(Refused::Memory)) => "refused",
        Err(Fault::Io(_)) => "no task",
        Err(Fault::Turns) => "all turns",
        _ => "otherwise",
    })
}

// How it ends with memory, and how many pauses it makes.
fn paused<R: Host>(rt: &R, memo: &Memo<u64>, turns: u64) -> Result<(&'static str, u64), Fault> {
    let by = Watched::new(rt);
    let end = end_beside(rt, &by, memo, turns)?;
    Ok((end, by.pauses()))
}

// How it ends at its only turn if memory is refused from some request on, and whether there was such a request.
fn starved<R: Host>(rt: &R, before: u64) -> Result<(&'static str, bool), Fault> {
    let memo = table(rt.alloc(), &KEYS)?;
    let by = Watched::starving(rt, before);
    let end = end_beside(rt, &by, &memo, 1)?;
    Ok((end, by.has_starved()))
}

/// A future that is Pending at each of its turns makes a pause after each, and then gives up. It has just the turns
/// that its caller gives it, and leaves the cell to the next.
#[test]
fn turns_are_used_up(rt: HostRuntime) -> Result<(), Fail> {
    let (memo, fetches) = (table(rt.alloc(), &KEYS)?, AtomicU64::new(0));
    for turns in [0, 1, 3, 40] {
        let seen = paused(&rt, &memo, turns)?;
        same(&rt, "the end, and the pauses", seen, ("all turns", turns));
    }
    let next = told(&rt, &memo, &fetches, 1);
    let found = (next, fetches.load(Ordering::SeqCst));
    same(&rt, "the next, and the fetches", found, (Ok(10), 1));
    Ok(())
}

/// A poll that is refused memory is told as refused, and not as one that had too few turns.
#[test]
fn a_refused_poll_is_told(rt: HostRuntime) -> Result<(), Fail> {
    let mut was_refused = false;
    for before in 0..10 {
        let (end, has_starved) = starved(&rt, before)?;
        let is_told = has_starved == (end == "refused" || end == "no task");
        let seen = (before, is_told, end == "otherwise");
        same(&rt, "requests, told so", seen, (before, true, false));
        was_refused |= end == "refused";
    }
    same(&rt, "whether a poll was refused", was_refused, true);
    Ok(())
}
