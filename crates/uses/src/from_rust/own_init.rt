//! An init of one's own: the future that `async { .. }` would be.

use super::own_error::Fault;
use async_once_cell::OnceCell;
use futures::Future;
use futures::task::{Context, Poll};
use std::alloc::AllocGlobal;
use std::random::RandomSource;
use std::sync::Wait;
use std::sync::atomic::{AtomicU64, Ordering};

/// It lets others run once, and then counts itself and gives 21.
#[derive(Drop)]
struct Fetch<'a> {
    has_waited: bool,
    fetches: &'a AtomicU64,
}

impl Future for Fetch<'_> {
    type Output = u64;

    fn poll(&mut self, cx: &mut Context<'_>) -> Poll<u64> {
        if !self.has_waited {
            self.has_waited = true;
            return cx.yield_now(); // Pending, and this task is polled again
        }
        self.fetches.fetch_add(1, Ordering::SeqCst);
        Poll::Ready(21)
    }
}

/// The value of the cell, which the first fetch makes.
fn value<R>(rt: &R, cell: &OnceCell<u64>, fetches: &AtomicU64) -> Result<u64, Fault>
where
    R: Wait + RandomSource + AllocGlobal,
{
    let init = Fetch {
        has_waited: false,
        fetches,
    };
    Ok(*cell.get_or_init(rt, init).wait()??)
}

/// What two calls are told, and how often was fetched.
pub fn ask_twice<R>(rt: &R) -> Result<(u64, u64, u64), Fault>
where
    R: Wait + RandomSource + AllocGlobal,
{
    let (cell, fetches) = (OnceCell::new(), AtomicU64::new(0));
    let first = value(rt, &cell, &fetches)?;
    let second = value(rt, &cell, &fetches)?;
    Ok((first, second, fetches.load(Ordering::SeqCst)))
}
