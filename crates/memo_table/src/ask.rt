//! Threads that ask a table for the values of its keys.
ghost use Rattle.std.specs.Prelude.{◌≡◌, ◌≢◌, ◌*◌, ◌^◌, ◌<◌, false, true, [], ◌∷◌, All, IfOk, IfErr, map};
ghost use Rattle.async_once_cell.specs.Views.{about_of, is_shared};
ghost use Rattle.memo_table.specs.declared.ask.TheConstants.{KEYS};

use crate::fault::Fault;
use crate::fetch::{Fetch, TenTimes};
use crate::table::Memo;
use async_once_cell::once::InitFuture;
use futures::task::{Doorbell, Poll, Solo};
use pagebook::Fits;
use std::alloc::AllocGlobal;
use std::random::RandomSource;
use std::sync::Wait;
use std::sync::atomic::AtomicU64;
use std::thread::{self, Threads};
use std::time::{Clock, Duration};

/// The keys that each thread asks for, in this order.
pub const KEYS: [u64; 3] = [1, 2, 3];

/// How often the future of a key is polled before its thread gives up.
pub const TURNS: u64 = 10_000;

/// A key, and the value that a thread was told.
#[derive(Clone, Copy, Debug, PartialEq, Eq)]
pub struct Answer {
    pub key: u64,
    pub value: u64,
}

/// What a future answers within so many turns. After each turn at which it is Pending the thread
/// pauses for a millisecond. A turn may wait for the lock of the cell, which no init is run under.
pub fn answer_within<R, V: Fits<u64>>(
    rt: &R,
    mut future: InitFuture<'_, u64, Fetch<'_>, R, V>,
    turns: u64,
) -> Result<u64, Fault>
where
    R: Wait + RandomSource + AllocGlobal + Clock,
    requires { future.finished ≡ false }
    ensures { is_shared future.entry.cell ≡ true → IfOk result (V.fits (about_of future.entry.cell)) }
{
    let task = Solo::new(rt, Doorbell::parking())?;
    for _ in 0..turns {
        let mut cx = task.begin();
        let polled = future.poll(&mut cx);
        cx.end(&polled);
        match polled {
            Poll::Ready(answer) => return Ok(*answer?),
            Poll::Pending => thread::sleep(rt, Duration::from_millis(1)),
        }
    }
    Err(Fault::Turns)
}

/// Asks for the value of a key within so many turns, with a fetch that is polled if no other was.
/// It may wait as [`answer_within`] does.
///
/// Asked for: what is fetched is as the table promises. So a table whose promise is
/// [`TenTimes`](crate::fetch::TenTimes) answers ten times the key.
pub fn ask<R, V: Fits<u64>>(
    rt: &R,
    memo: &Memo<u64, V>,
    fetches: &AtomicU64,
    key: u64,
    turns: u64,
) -> Result<Answer, Fault>
where
    R: Wait + RandomSource + AllocGlobal + Clock,
    requires small { key * 10 < 2 ^ 64 }
    requires fits { V.fits (key ∷ []) (key * 10) }
    ensures key { IfOk result (λ answer. answer.key ≡ key) }
    ensures promise { IfOk result (λ answer. V.fits (key ∷ []) answer.value) }
{
    let cell = memo.cell(key).ok_or(Fault::NoKey(key))?;
    let future = cell.get_or_init(rt, Fetch::new(key, fetches));
    let value = answer_within(rt, future, turns)?;
    Ok(Answer { key, value })
}

/// The answers for the keys [`KEYS`], in their order, by a table that promises ten times the key. So each value is
/// that.
#[derive(Drop)]
pub struct Answers {
    /// One answer for each key.
    pub told: Vec<Answer>,
    pub ghost keys: { map (λ answer. answer.key) told.items ≡ KEYS },
    pub ghost tenfold: { All (λ answer. answer.value ≡ answer.key * 10) told.items },
}

/// Asks for the value of each key in turn.
fn ask_all<R>(
    rt: &R,
    memo: &Memo<u64, TenTimes>,
    fetches: &AtomicU64,
    turns: u64,
) -> Result<Answers, Fault>
where
    R: Wait + RandomSource + AllocGlobal + Clock,
{
    let mut told = Vec::new(rt.alloc());
    for key in KEYS {
        told.push(ask(rt, memo, fetches, key, turns)?)?;
    }
    Ok(Answers { told })
}

/// What two threads are told that ask for each key at once. It waits for both to end, also if it
/// gives up.
pub fn ask_twice<R>(
    rt: &R,
    memo: &Memo<u64, TenTimes>,
    fetches: &AtomicU64,
    turns: u64,
) -> Result<Answers, Fault>
where
    R: Threads + Wait + RandomSource + AllocGlobal + Clock + Sync,
{
    thread::scope(thread::scope_env(), rt, |scope| {
        let first = scope.spawn(move || ask_all(rt, memo, fetches, turns));
        let second = scope.spawn(move || ask_all(rt, memo, fetches, turns));
        match (first, second) {
            (Ok(first), Ok(second)) => agreed_by(first.join(rt), second.join(rt)),
            _ => Err(Fault::Thread),
        }
    })
}

// The answers of two threads, if neither gave up and they are the same.
fn agreed_by(
    first: Result<Answers, Fault>,
    second: Result<Answers, Fault>,
) -> Result<Answers, Fault> {
    let told = agreed(first?.told, second?.told)?;
    Ok(Answers { told })
}

/// The answers of two threads, if they are the same.
pub fn agreed(first: Vec<Answer>, second: Vec<Answer>) -> Result<Vec<Answer>, Fault>
    ensures same { IfOk result (λ told. (told.items ≡ first.items) × (told.items ≡ second.items)) }
    ensures other { IfErr result (λ _. first.items ≢ second.items) }
    ensures fault { IfErr result (λ fault. fault ≡ Fault.Differ) }
{
    if first != second {
        return Err(Fault::Differ);
    }
    Ok(first)
}
