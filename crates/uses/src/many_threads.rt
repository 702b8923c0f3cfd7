//! Many threads that ask one cell at once.

use crate::fault::Fault;
use crate::reload::{Load, loaded};
use async_once_cell::OnceCell;
use std::alloc::AllocGlobal;
use std::random::RandomSource;
use std::sync::Wait;
use std::sync::atomic::{AtomicU64, Ordering};
use std::thread::{self, Threads};

/// The value of the cell, which the first load finds.
fn value<R>(rt: &R, cell: &OnceCell<u64>, loads: &AtomicU64) -> Result<u64, Fault>
where
    R: Wait + RandomSource + AllocGlobal,
{
    let found = Ok(70);
    loaded(rt, cell, Load { found, loads }, &mut cell.token())
}

/// What each of eight threads is told, and how many loads there were.
pub fn ask<R>(rt: &R) -> Result<(Vec<Result<u64, Fault>>, u64), Fault>
where
    R: Threads + Wait + RandomSource + AllocGlobal + Sync,
{
    let (cell, loads) = (OnceCell::new(), AtomicU64::new(0));
    let ask = |_thread: usize| value(rt, &cell, &loads);
    let told = thread::map_indices(rt, rt.alloc(), 8, &ask)?;
    Ok((told, loads.load(Ordering::SeqCst)))
}
