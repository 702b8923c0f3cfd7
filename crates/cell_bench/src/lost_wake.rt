//! Rounds of two threads, in which a holder fails while another caller begins to wait.
use crate::switch::Failing;
use async_once_cell::OnceCell;
use futures::future::ok;
use futures::test::MockTask;
use std::alloc::AllocGlobal;
use std::io;
use std::random::RandomSource;
use std::sync::Wait;
use std::sync::atomic::{AtomicU64, Ordering};
use std::thread::{self, Threads};

/// In how many of so many rounds a waiter is lost: it is pending and was not woken, though nobody
/// holds.
pub fn lost<R>(rt: &R, rounds: u64) -> io::Result<u64>
where
    R: Wait + AllocGlobal + RandomSource + Threads + Sync,
{
    let mut lost: u64 = 0;
    for round in 0..rounds {
        lost = lost.wrapping_add(u64::from(is_lost(rt, round % 64)?));
    }
    Ok(lost)
}

// A round over a new cell, by three tasks.
fn is_lost<R>(rt: &R, delay: u64) -> io::Result<bool>
where
    R: Wait + AllocGlobal + RandomSource + Threads + Sync,
{
    let tasks = [MockTask::new(rt)?, MockTask::new(rt)?, MockTask::new(rt)?];
    Ok(is_lost_by(rt, &tasks, &OnceCell::new(), delay))
}

// A round: a future holds quickly and is pending, and one that waited is dropped. Then one thread polls
// a new future, while the other polls the holder, a little later, whose init fails.
fn is_lost_by<R>(
    rt: &R,
    [one, two, three]: &[MockTask; 3],
    cell: &OnceCell<u64>,
    delay: u64,
) -> bool
where
    R: Wait + AllocGlobal + Threads + Sync,
{
    let arrived = AtomicU64::new(0);
    let mut holder = cell.get_or_try_init(rt, Failing::new());
    let holds = one.poll(&mut holder).is_pending();
    let left = two
        .poll(&mut cell.get_or_try_init(rt, ok::<u64, u64>(2)))
        .is_pending();
    let mut waiter = cell.get_or_try_init(rt, ok::<u64, u64>(3));
    let (ended, waits) = thread::join(
        rt,
        || {
            meet(rt, &arrived, delay);
            one.poll(&mut holder).is_ready()
        },
        || {
            meet(rt, &arrived, 0);
            three.poll(&mut waiter).is_pending()
        },
    );
    holds && left && ended && waits && !three.is_woken()
}

// Waits until two threads are here, and so many looks longer.
fn meet<R: Wait>(rt: &R, arrived: &AtomicU64, delay: u64) {
    arrived.fetch_add(1, Ordering::SeqCst);
    for _ in rt.forever() {
        if arrived.load(Ordering::SeqCst) >= 2 {
            break;
        }
    }
    for _ in 0..delay {
        arrived.load(Ordering::SeqCst);
    }
}
