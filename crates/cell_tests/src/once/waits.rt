//! Waits of one thread.

use crate::doubles::same;
use async_once_cell::OnceCell;
use futures::Future;
use futures::task::{Context, Poll};
use std::test::Fail;

// How often the init asks for another poll.
const POLLS: u64 = 100_000;

// An init that asks for another poll so often, and then gives 4.
#[derive(Drop)]
struct Slow {
    left: u64,
}

impl Future for Slow {
    type Output = u64;

    fn poll(&mut self, cx: &mut Context<'_>) -> Poll<u64> {
        match self.left.checked_sub(1) {
            Some(left) => {
                self.left = left;
                cx.yield_now()
            }
            None => Poll::Ready(4),
        }
    }
}

/// However often the init asks for another poll, a wait goes on until it gives the value.
#[test]
fn wait_of_many_polls(rt: HostRuntime) -> Result<(), Fail> {
    let cell = OnceCell::new();
    let told = cell.get_or_init(&rt, Slow { left: POLLS }).wait()?;
    same(&rt, "told", told.map(|value| *value), Ok(4));
    Ok(())
}
