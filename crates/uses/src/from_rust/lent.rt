//! A cell that threads share. It is a field of a value that is lent to them.

use super::own_error::Fault;
use async_once_cell::OnceCell;
use futures::future::ready;
use std::alloc::AllocGlobal;
use std::random::RandomSource;
use std::sync::Wait;
use std::thread::{self, Threads};

/// What the threads share.
#[derive(Drop)]
struct Shared {
    limit: OnceCell<u64>,
}

impl Shared {
    fn new() -> Self {
        Shared {
            limit: OnceCell::new(),
        }
    }

    /// The limit, which the first call makes.
    fn limit<R>(&self, rt: &R) -> Result<u64, Fault>
    where
        R: Wait + RandomSource + AllocGlobal,
    {
        Ok(*self.limit.get_or_init(rt, ready(7)).wait()??)
    }
}

/// What two threads are told.
pub fn ask_twice<R>(rt: &R) -> Result<(u64, u64), Fault>
where
    R: Threads + Wait + RandomSource + AllocGlobal + Sync,
{
    let shared = Shared::new();
    let (here, there) = thread::join(rt, || shared.limit(rt), || shared.limit(rt));
    Ok((here?, there?))
}
