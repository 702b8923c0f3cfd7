//! Threads that wait for values by `wait` and its kin: what their contracts do not say.

use crate::doubles::asked::{Number, told};
use crate::doubles::counted::{Given, Init, Tally};
use crate::doubles::work::{Host, Meeting, same};
use async_once_cell::record::Reply;
use async_once_cell::{Lazy, LazyFuturePin, OnceCell, Parker};
use futures::Future;
use futures::channel::oneshot::{Canceled, Receiver, Sender, channel};
use futures::future::ready;
use futures::task::{Context, Poll};
use std::alloc::AllocError;
use std::test::Fail;
use std::thread;
use std::time::Duration;
use test_doubles::memory::hoard;

// What a token is told by two waits, of which the second keeps its parker, and another token by a third.
fn told_by_tokens<R: Host>(rt: &R, tally: &Tally, parker: &mut Parker) -> [Option<Reply>; 3] {
    let (cell, init) = (OnceCell::new(), |number| tally.init(40, 0, Ok(number)));
    let (mut token, mut other) = (cell.token(), cell.token());
    let first = cell.get_or_init(rt, init(23)).wait_as(&mut token);
    let second = cell.get_or_init(rt, init(24));
    let third = cell.get_or_init(rt, init(25));
    [
        told(first),
        told(second.wait_as_on(&mut token, parker)),
        told(third.wait_as_on(&mut other, parker)),
    ]
}

/// A token learns the value by a wait. Another init is not polled then.
#[test]
fn value_that_a_token_knows(rt: HostRuntime) -> Result<(), Fail> {
    let (tally, mut parker) = (Tally::new(0), Parker::new(&rt)?);
    let replies = told_by_tokens(&rt, &tally, &mut parker);
    let wanted = ([Some(Reply::Value(23)); 3], true);
    same(&rt, "token", (replies, tally.has(1, 0)), wanted);
    Ok(())
}

// The init of a lazy cell that asks another: twice its value, or 0 if there is none.
#[derive(Drop)]
struct Double<'a, 'c, R: Host>(LazyFuturePin<'a, Given<'c>, Init<'c>, R>);

impl<R: Host> Future for Double<'_, '_, R> {
    type Output = u64;

    fn poll(&mut self, cx: &mut Context<'_>) -> Poll<u64> {
        match Future::poll(&mut self.0, cx) {
            Poll::Ready(Ok(given)) => Poll::Ready(given.number().unwrap_or(0).wrapping_mul(2)),
            Poll::Ready(Err(_)) => Poll::Ready(0),
            Poll::Pending => Poll::Pending,
        }
    }
}

// What a new lazy cell over this one tells a thread that waits for it.
fn doubled<'c, R: Host>(rt: &R, base: &Lazy<Given<'c>, Init<'c>>) -> Option<Reply> {
    let double = Lazy::new(Double(base.get(rt)));
    told(double.get(rt).wait())
}

// What two new lazy cells over another tell.
fn both_doubled<R: Host>(rt: &R, tally: &Tally) -> [Option<Reply>; 2] {
    let base = Lazy::new(tally.init(40, 0, Ok(26)));
    [doubled(rt, &base), doubled(rt, &base)]
}

/// The init of a lazy cell asks another lazy cell, whose init is done once.
#[test]
fn value_of_a_cell_over_another(rt: HostRuntime) {
    let tally = Tally::new(0);
    let replies = both_doubled(&rt, &tally);
    let wanted = ([Some(Reply::Value(52)); 2], true);
    same(&rt, "double", (replies, tally.has(1, 0)), wanted);
}

// An init that waits for what another thread sends, and says each time that it is polled.
#[derive(Drop)]
struct Listening<'p> {
    polls: &'p Meeting,
    sent: Receiver<u64>,
}

impl Future for Listening<'_> {
    type Output = Result<u64, Canceled>;

    fn poll(&mut self, cx: &mut Context<'_>) -> Poll<Result<u64, Canceled>> {
        self.polls.come();
        Future::poll(&mut self.sent, cx)
    }
}

// What a thread is told that waits for what the other sends.
fn told_what_is_sent<R: Host>(rt: &R, polls: &Meeting, sent: Receiver<u64>) -> Option<u64> {
    let cell = OnceCell::new();
    match cell.get_or_try_init(rt, Listening { polls, sent }).wait() {
        Ok(Ok(value)) => Some(*value),
        _ => None,
    }
}

// Sends the value twenty milliseconds after the init was polled first, and says how often it was polled before that.
fn sent_later<R: Host>(rt: &R, polls: &Meeting, sender: Sender<u64>) -> u64 {
    polls.has(1);
    thread::sleep(rt, Duration::from_millis(20));
    let before = polls.came();
    let _ = sender.send(5);
    before
}

/// A thread that waits does not try again and again: its init is not polled a second time while nobody wakes it.
#[test]
fn no_poll_that_nobody_called_for(rt: HostRuntime) -> Result<(), Fail> {
    let (polls, (sender, sent)) = (Meeting::new(), channel(rt.alloc())?);
    let both = thread::join(
        &rt,
        || told_what_is_sent(&rt, &polls, sent),
        || sent_later(&rt, &polls, sender),
    );
    same(&rt, "polls", both, (Some(5), 1));
    Ok(())
}

// What a cell tells a thread that waits for it, with a ready init.
fn waited<R: Host>(rt: &R, cell: &OnceCell<u64>, number: u64) -> Option<Reply> {
    told(cell.get_or_init(rt, ready(number)).wait())
}

// What an empty and a set cell tell while all memory is taken, and the set one also by a parker that was made before.
fn told_without_memory<R: Host>(
    rt: &R,
    empty: &OnceCell<u64>,
    set: &OnceCell<u64>,
    parker: &mut Parker,
) -> Result<[Option<Reply>; 3], AllocError> {
    let held = hoard(rt.alloc())?;
    let told = [
        waited(rt, empty, 1),
        waited(rt, set, 2),
        told(set.get_or_init(rt, ready(2)).wait_on(parker)),
    ];
    drop(held);
    Ok(told)
}

/// Without memory a thread can't wait for an empty cell, which is as it was then. A set one answers, also to a parker
/// that is kept.
#[test]
fn no_memory_to_wait(rt: HostRuntime) -> Result<(), Fail> {
    let (empty, set, mut parker) = (OnceCell::new(), OnceCell::new_with(7), Parker::new(&rt)?);
    let told = told_without_memory(&rt, &empty, &set, &mut parker)?;
    let seven = Some(Reply::Value(7));
    let wanted = ([None, seven, seven], Some(Reply::Value(3)));
    same(&rt, "no memory", (told, waited(&rt, &empty, 3)), wanted);
    Ok(())
}
