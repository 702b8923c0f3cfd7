//! A handle that counts pauses, and may have no memory from some request on.

use std::alloc::{Alloc, AllocGlobal, Global};
use std::io;
use std::random::RandomSource;
use std::sync::atomic::{AtomicU64, Ordering};
use std::sync::{OnceLock, Wait};
use std::thread::Threads;
use std::time::{Clock, Duration};
use test_doubles::memory::hoard;

/// A handle that passes all on to another. It counts the pauses of a millisecond that are made by it. From one
/// request for its allocator on, it holds all memory there is until it is dropped.
#[derive(Drop)]
pub struct Watched<'r, R> {
    rt: &'r R,
    pauses: AtomicU64,
    requests: AtomicU64,
    // How many requests come before that one.
    before: u64,
    held: OnceLock<Vec<Vec<u8>>>,
}

impl<'r, R> Watched<'r, R> {
    /// A handle that leaves memory as it is.
    pub fn new(rt: &'r R) -> Self {
        Watched::starving(rt, u64::MAX)
    }

    /// A handle that holds all memory from the request on that comes after so many.
    pub fn starving(rt: &'r R, before: u64) -> Self {
        Watched {
            rt,
            pauses: AtomicU64::new(0),
            requests: AtomicU64::new(0),
            before,
            held: OnceLock::new(),
        }
    }

    /// How many pauses of a millisecond were made.
    pub fn pauses(&self) -> u64 {
        self.pauses.load(Ordering::SeqCst)
    }

    /// Whether it came to hold all memory.
    pub fn has_starved(&self) -> bool {
        self.held.get().is_some()
    }
}

impl<R: Wait> Wait for Watched<'_, R> {}

impl<R: Threads> Threads for Watched<'_, R> {}

impl<R: RandomSource> RandomSource for Watched<'_, R> {
    fn fill_bytes(&self, buf: &mut [u8]) -> io::Result<()> {
        self.rt.fill_bytes(buf)
    }
}

impl<R: Clock> Clock for Watched<'_, R> {
    fn monotonic(&self) -> io::Result<Duration> {
        self.rt.monotonic()
    }

    fn since_1970(&self) -> io::Result<Duration> {
        self.rt.since_1970()
    }

    fn sleep(&self, duration: Duration) {
        if duration == Duration::from_millis(1) {
            self.pauses.fetch_add(1, Ordering::SeqCst);
        }
        self.rt.sleep(duration)
    }
}

impl<R: AllocGlobal> Alloc for Watched<'_, R> {
    type A = Global;

    fn alloc(&self) -> Global {
        let alloc = self.rt.alloc();
        if self.requests.fetch_add(1, Ordering::SeqCst) == self.before
            && let Ok(held) = hoard(alloc)
        {
            let _ = self.held.try_set(held);
        }
        alloc
    }
}
