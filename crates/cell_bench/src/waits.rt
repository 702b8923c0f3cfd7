//! The loops of waits: each has this thread wait for a value, whose init gives it at once.
use async_once_cell::once::Refused;
use async_once_cell::{OnceCell, Parker};
use futures::future::ready;
use std::alloc::AllocGlobal;
use std::io;
use std::random::RandomSource;
use std::sync::Wait;

/// A new cell, and a wait for its value.
#[inline(never)]
pub fn new_cells<R: Wait + RandomSource + AllocGlobal>(rt: &R, count: u64) -> io::Result<u64> {
    let mut sum: u64 = 0;
    for _ in 0..count {
        sum = sum.wrapping_add(one_wait(rt, &OnceCell::new())?);
    }
    Ok(sum)
}

/// A wait for the value of a cell that is set.
#[inline(never)]
pub fn set_cell<R>(rt: &R, cell: &OnceCell<u64>, count: u64) -> io::Result<u64>
where
    R: Wait + RandomSource + AllocGlobal,
{
    let mut sum: u64 = 0;
    for _ in 0..count {
        sum = sum.wrapping_add(one_wait(rt, cell)?);
    }
    Ok(sum)
}

/// A new cell, and a wait for its value by a parker that is kept.
#[inline(never)]
pub fn kept_parker<R: Wait + RandomSource + AllocGlobal>(rt: &R, count: u64) -> io::Result<u64> {
    let mut parker = Parker::new(rt)?;
    let mut sum: u64 = 0;
    for _ in 0..count {
        sum = sum.wrapping_add(one_kept_wait(rt, &OnceCell::new(), &mut parker)?);
    }
    Ok(sum)
}

fn one_kept_wait<R>(rt: &R, cell: &OnceCell<u64>, parker: &mut Parker) -> io::Result<u64>
where
    R: Wait + AllocGlobal,
{
    Ok(value_of(cell.get_or_init(rt, ready(1)).wait_on(parker)?))
}

fn one_wait<R>(rt: &R, cell: &OnceCell<u64>) -> io::Result<u64>
where
    R: Wait + RandomSource + AllocGlobal,
{
    Ok(value_of(cell.get_or_init(rt, ready(1)).wait()?))
}

/// The value of an answer, and 0 if there is none.
fn value_of(answer: Result<&u64, Refused>) -> u64 {
    answer.copied().unwrap_or(0)
}
