//! An init that may fail, and `?` with an error of one's own.

use async_once_cell::{InitError, OnceCell, Refused};
use futures::Future;
use futures::task::{Context, Poll};
use std::alloc::AllocGlobal;
use std::io;
use std::random::RandomSource;
use std::sync::Wait;
use std::sync::atomic::{AtomicU64, Ordering};
use thiserror::Error;

/// Why the program gives up.
#[derive(Debug, Drop, Error)]
pub enum Fault {
    #[error("no answer at try {0}")]
    Down(u64),
    #[error("a poll was refused: {0}")]
    Refused(#[from] Refused),
    #[error("{0}")]
    Io(#[from] io::Error),
}

/// What `?` makes of the error of an init, or of a refusal.
impl From<InitError<Down>> for Fault {
    fn from(error: InitError<Down>) -> Self {
        match error.own() {
            Ok(Down(number)) => Fault::Down(number),
            Err(refused) => Fault::Refused(refused),
        }
    }
}

/// There was no answer at this try.
#[derive(Clone, Copy, Debug)]
pub struct Down(u64);

/// One try. The first of all fails.
#[derive(Drop)]
struct Dial<'a> {
    tries: &'a AtomicU64,
}

impl Future for Dial<'_> {
    type Output = Result<u64, Down>;

    fn poll(&mut self, _cx: &mut Context<'_>) -> Poll<Result<u64, Down>> {
        match self.tries.fetch_add(1, Ordering::SeqCst) {
            0 => Poll::Ready(Err(Down(0))),
            number => Poll::Ready(Ok(number)),
        }
    }
}

/// The number of the try that had an answer.
fn connect<'a, R>(
    rt: &'a R,
    cell: &'a OnceCell<u64>,
    tries: &'a AtomicU64,
) -> Result<&'a u64, Fault>
where
    R: Wait + RandomSource + AllocGlobal,
{
    let connection = cell.get_or_try_init(rt, Dial { tries }).wait()??;
    Ok(connection)
}

/// What three calls are told. The error goes to the first alone.
pub fn ask_thrice<R>(rt: &R) -> [Result<u64, Fault>; 3]
where
    R: Wait + RandomSource + AllocGlobal,
{
    let (cell, tries) = (OnceCell::new(), AtomicU64::new(0));
    let first = connect(rt, &cell, &tries).copied();
    let second = connect(rt, &cell, &tries).copied();
    let third = connect(rt, &cell, &tries).copied();
    [first, second, third]
}
