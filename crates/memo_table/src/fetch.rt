//! The init of a cell.
ghost use Rattle.std.specs.Prelude.{◌≡◌, ◌*◌, ◌^◌, ◌<◌};

use futures::Future;
use futures::task::{Context, Poll};
use pagebook::Fits;
use std::sync::atomic::{AtomicU64, Ordering};

/// A fetch of a key: it counts itself, and gives ten times the key at its first poll. It waits for
/// nobody.
///
/// ```
/// let fetches = AtomicU64::new(0);
/// let mut fetch = Fetch::new(3, &fetches);
/// let polled = task.poll(&mut fetch); // Ready(30), and one fetch is counted
/// ```
#[derive(Drop)]
pub struct Fetch<'a> {
    key: u64,
    fetches: &'a AtomicU64,
    ghost fits: { key * 10 < 2 ^ 64 },
}

impl<'a> Fetch<'a> {
    /// A fetch of this key, which is counted at `fetches` when it is polled.
    pub fn new(key: u64, fetches: &'a AtomicU64) -> Self
        requires { key * 10 < 2 ^ 64 }
        ensures { result.key ≡ key }
    {
        Fetch { key, fetches }
    }
}

/// The promise of a table whose values are fetched so: a value is ten times its key.
pub struct TenTimes;

impl Fits<u64> for TenTimes {
    ghost use Rattle.memo_table.specs.Memo.{IsTenTimes};

    ghost fits = { IsTenTimes };
}

impl Future for Fetch<'_> {
    type Output = u64;

    ghost gives = { λ fetch value. value ≡ fetch.key * 10 };

    fn poll(&mut self, _cx: &mut Context<'_>) -> Poll<u64> {
        self.fetches.fetch_add(1, Ordering::SeqCst);
        Poll::Ready(self.key * 10)
    }
}
