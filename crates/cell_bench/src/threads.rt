//! The loops of threads: each thread makes what the others make, on the same cells.
use crate::rounds::get;
use async_once_cell::OnceCell;
use futures::executor::block_on;
use futures::future::ready;
use std::alloc::AllocGlobal;
use std::random::RandomSource;
use std::sync::Wait;
use std::thread::Threads;
use std::{io, thread};

/// Two threads look at a set cell, each so many times.
#[inline(never)]
pub fn looks_of_two<R: Threads>(rt: &R, cell: &OnceCell<u64>, count: u64) -> u64 {
    let (here, there) = thread::join(rt, || get(cell, count), || get(cell, count));
    here.wrapping_add(there)
}

/// The same of four threads.
#[inline(never)]
pub fn looks_of_four<R: Threads + Sync>(rt: &R, cell: &OnceCell<u64>, count: u64) -> u64 {
    let two = || looks_of_two(rt, cell, count);
    let (here, there) = thread::join(rt, two, || looks_of_two(rt, cell, count));
    here.wrapping_add(there)
}

/// So many new cells.
pub fn cells<R: AllocGlobal>(rt: &R, count: u64) -> io::Result<Vec<OnceCell<u64>>> {
    let mut cells = Vec::new(rt.alloc());
    for _ in 0..count {
        cells.push(OnceCell::new())?;
    }
    Ok(cells)
}

// Asks each cell for its value, with an init of its own.
fn asked<R>(rt: &R, cells: &[OnceCell<u64>]) -> io::Result<u64>
where
    R: Wait + RandomSource + AllocGlobal,
{
    let mut sum: u64 = 0;
    for cell in cells {
        let value = block_on(rt, cell.get_or_init(rt, ready(1)))?.ok();
        sum = sum.wrapping_add(value.copied().unwrap_or(0));
    }
    Ok(sum)
}

/// Two threads ask each cell for its value.
#[inline(never)]
pub fn fills_of_two<R>(rt: &R, cells: &[OnceCell<u64>]) -> io::Result<u64>
where
    R: Wait + RandomSource + AllocGlobal + Threads + Sync,
{
    let (here, there) = thread::join(rt, || asked(rt, cells), || asked(rt, cells));
    Ok(here?.wrapping_add(there?))
}

/// The same of four threads.
#[inline(never)]
pub fn fills_of_four<R>(rt: &R, cells: &[OnceCell<u64>]) -> io::Result<u64>
where
    R: Wait + RandomSource + AllocGlobal + Threads + Sync,
{
    let two = || fills_of_two(rt, cells);
    let (here, there) = thread::join(rt, two, || fills_of_two(rt, cells));
    Ok(here?.wrapping_add(there?))
}
