//! Values and inits that are counted.

use futures::Future;
use futures::task::{Context, Poll};
use std::alloc::{AllocError, Global};
use std::sync::atomic::{AtomicU64, Ordering};
use std::{fmt, thread};

/// The answer of an init that may fail.
pub type Tried = Result<u64, u64>;

/// What an init gives that is counted.
pub type Given<'c> = Result<Value<'c>, u64>;

/// What went through a cell.
#[derive(Drop)]
pub struct Tally {
    // How many inits that would give a value are still to fail.
    failures: AtomicU64,
    // How many inits there are, how many of them are being polled, and how many polls were beside another.
    inits: AtomicU64,
    inside: AtomicU64,
    beside: AtomicU64,
    // How many inits failed, and how many gave a value.
    failed: AtomicU64,
    made: AtomicU64,
    // How many values there are.
    kept: AtomicU64,
}

fn add(times: &AtomicU64) -> u64 {
    times.fetch_add(1, Ordering::SeqCst)
}

fn subtract(times: &AtomicU64) {
    times.fetch_sub(1, Ordering::SeqCst);
}

fn read(times: &AtomicU64) -> u64 {
    times.load(Ordering::SeqCst)
}

impl Tally {
    /// Of a cell of which so many inits fail that would give a value.
    pub fn new(failures: u64) -> Self {
        Tally {
            failures: AtomicU64::new(failures),
            inits: AtomicU64::new(0),
            inside: AtomicU64::new(0),
            beside: AtomicU64::new(0),
            failed: AtomicU64::new(0),
            made: AtomicU64::new(0),
            kept: AtomicU64::new(0),
        }
    }

    /// An init that is Pending so many times, and looks in each poll so often whether another is polled beside it.
    pub fn init(&self, pending: u64, looks: u64, answer: Tried) -> Init<'_> {
        add(&self.inits);
        Init {
            pending,
            looks,
            answer,
            tally: self,
        }
    }

    /// A value that no init gave.
    pub fn value(&self, number: u64) -> Value<'_> {
        add(&self.kept);
        let tally = self;
        Value { number, tally }
    }

    /// How many inits failed.
    pub fn failed(&self) -> u64 {
        read(&self.failed)
    }

    /// Whether so many inits gave a value, and so many values are left. No init is left then, no two were polled at a
    /// time, and none is still to fail.
    pub fn has(&self, made: u64, kept: u64) -> bool {
        let gone = [
            read(&self.failures),
            read(&self.inits),
            read(&self.inside),
            read(&self.beside),
        ];
        gone == [0; 4] && [read(&self.made), read(&self.kept)] == [made, kept]
    }

    // What an init gives in the end that would answer so. One is polled at a time.
    fn given(&self, answer: Tried) -> Given<'_> {
        let left = read(&self.failures);
        match answer {
            Ok(number) if left == 0 => {
                add(&self.made);
                return Ok(self.value(number));
            }
            Ok(_) => subtract(&self.failures),
            Err(_) => {}
        }
        add(&self.failed);
        Err(answer.err().unwrap_or(left))
    }

    // Looks whether another init is polled meanwhile.
    fn look(&self, looks: u64) {
        let mut is_alone = add(&self.inside) == 0;
        for _ in 0..looks {
            is_alone = is_alone && read(&self.inside) == 1;
        }
        subtract(&self.inside);
        if !is_alone {
            add(&self.beside);
        }
    }
}

/// A value that counts when it is dropped.
pub struct Value<'c> {
    pub number: u64,
    tally: &'c Tally,
}

impl fmt::Debug for Value<'_> {
    fn fmt<W: fmt::Write>(&self, f: &mut fmt::Formatter<W>) -> fmt::Result {
        f.write_str("Value")
    }
}

impl Drop for Value<'_> {
    fn drop(self) {
        let Value { number: _, tally } = self;
        subtract(&tally.kept);
    }
}

/// An init that counts what becomes of it.
pub struct Init<'c> {
    pending: u64,
    looks: u64,
    answer: Tried,
    tally: &'c Tally,
}

impl Drop for Init<'_> {
    fn drop(self) {
        let Init {
            pending: _,
            looks: _,
            answer: _,
            tally,
        } = self;
        subtract(&tally.inits);
    }
}

impl<'c> Future for Init<'c> {
    type Output = Given<'c>;

    fn poll(&mut self, cx: &mut Context<'_>) -> Poll<Given<'c>> {
        let tally: &'c Tally = self.tally;
        tally.look(self.looks);
        if let Some(left) = self.pending.checked_sub(1) {
            self.pending = left;
            thread::yield_now();
            return cx.yield_now();
        }
        Poll::Ready(tally.given(self.answer))
    }
}

/// The tallies of so many cells. Of some cells inits fail that would give a value: of the last so many, and one less of
/// each before.
pub fn tallies(alloc: Global, number: u64, failures: u64) -> Result<Vec<Tally>, AllocError> {
    let mut tallies = Vec::new(alloc);
    for number in 0..number {
        tallies.push(Tally::new(number.checked_rem(failures).unwrap_or(0)))?;
    }
    Ok(tallies)
}

/// How many of them have no value left.
pub fn empty(tallies: &[Tally]) -> u64 {
    let mut empty = 0u64;
    for tally in tallies {
        empty = empty.wrapping_add(u64::from(read(&tally.kept) == 0));
    }
    empty
}
