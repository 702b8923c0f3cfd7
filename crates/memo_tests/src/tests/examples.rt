//! The examples of the table's doc comments, as code that is proved and run.
ghost use Rattle.std.specs.Prelude.{IsSome};
ghost use Rattle.memo_table.specs.Memo.{cell_of};

use super::same;
use crate::callers::Host;
use async_once_cell::Refused;
use futures::executor::block_on;
use futures::future::ready;
use futures::task::Poll;
use futures::test::MockTask;
use memo_table::fault::Fault;
use memo_table::fetch::Fetch;
use memo_table::table::Memo;
use std::alloc::Global;
use std::sync::atomic::{AtomicU64, Ordering};
use std::test::Fail;

/// Two fetches of one key, of which the second is not polled.
fn fetched<R: Host>(rt: &R) -> Result<(u64, u64), Fault> {
    let alloc = rt.alloc();
    let memo = Memo::new(alloc, vec![in alloc; 1, 2]?)?;
    let cell = memo.cell(1).unwrap();
    let first = block_on(rt, cell.get_or_init(rt, ready(10)))?;
    let second = block_on(rt, cell.get_or_init(rt, ready(11)))?;
    both(first, second)
}

/// Both values that were told.
fn both(first: Result<&u64, Refused>, second: Result<&u64, Refused>) -> Result<(u64, u64), Fault> {
    Ok((*first?, *second?))
}

/// The tokens of two keys, one of which the table has.
fn tokens(alloc: Global) -> Result<(bool, bool), Fault> {
    let memo = Memo::<u64>::new(alloc, vec![in alloc; 7, 5, 7]?)?;
    let token = memo.token(7);
    let missing = memo.token(6);
    Ok((token.is_some(), missing.is_some()))
}

/// What a token gets before a fetch, and after.
fn learned<R: Host>(rt: &R, memo: &Memo<u64>) -> Result<(Option<u64>, Option<u64>), Fault>
    requires { IsSome (cell_of memo.now 7) }
{
    let mut token = memo.token(7).unwrap();
    let early = memo.get_as(7, &mut token);
    let _ = block_on(rt, memo.cell(7).unwrap().get_or_init(rt, ready(70)))?;
    let value = memo.get_as(7, &mut token);
    Ok((early.copied(), value.copied()))
}

/// The value of a key, looked at without a token.
fn looked(memo: &Memo<u64>) -> Option<u64> {
    let value = memo.cell(7).and_then(|cell| cell.get());
    value.copied()
}

/// What a fetch that is polled by hand gives, and how many were counted.
fn polled<R: Host>(rt: &R) -> Result<(Poll<u64>, u64), Fault> {
    let task = MockTask::new(rt)?;
    let fetches = AtomicU64::new(0);
    let mut fetch = Fetch::new(3, &fetches);
    let polled = task.poll(&mut fetch);
    Ok((polled, fetches.load(Ordering::SeqCst)))
}

/// What a table tells of a key, before and after a fetch, and what it has then.
fn learned_and_looked<R: Host>(rt: &R) -> Result<[Option<u64>; 3], Fault> {
    let alloc = rt.alloc();
    let memo = Memo::new(alloc, vec![in alloc; 7]?)?;
    let (early, value) = learned(rt, &memo)?;
    Ok([early, value, looked(&memo)])
}

/// Of two fetches of a key the first gives the value, and the table has a token of each of its keys alone.
#[test]
fn fetches_and_tokens(rt: HostRuntime) -> Result<(), Fail> {
    same(&rt, "two fetches", fetched(&rt)?, (10, 10));
    same(&rt, "two tokens", tokens(rt.alloc())?, (true, false));
    Ok(())
}

/// A token and a look find the value once it was fetched.
#[test]
fn looks_before_and_after(rt: HostRuntime) -> Result<(), Fail> {
    let found = learned_and_looked(&rt)?;
    same(&rt, "before, after", found, [None, Some(70), Some(70)]);
    Ok(())
}

/// A fetch gives ten times its key at its first poll, and counts itself.
#[test]
fn a_fetch_by_hand(rt: HostRuntime) -> Result<(), Fail> {
    same(&rt, "poll, fetches", polled(&rt)?, (Poll::Ready(30), 1));
    Ok(())
}
