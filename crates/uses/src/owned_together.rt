//! A cell that two threads own together.

use crate::fault::Fault;
use async_once_cell::OnceCell;
use futures::future::ready;
use std::alloc::{AllocError, AllocGlobal};
use std::random::RandomSource;
use std::sync::{Arc, Wait};
use std::thread::{self, Threads};

/// The value of the cell, which the first call makes.
fn value<R>(rt: &R, cell: &OnceCell<u64>) -> Result<u64, Fault>
where
    R: Wait + RandomSource + AllocGlobal,
{
    Ok(*cell.get_or_init(rt, ready(7)).wait()??)
}

/// What this thread and a new one are told of a cell that both own.
pub fn ask_twice<R>(rt: R) -> Result<(Result<u64, Fault>, Result<u64, Fault>), AllocError>
where
    R: Threads + Wait + RandomSource + AllocGlobal + Copy + Send + 'static,
{
    let cell = Arc::new(rt.alloc(), OnceCell::new())?;
    let theirs = Arc::try_clone(&cell)?;
    let there = thread::spawn(&rt, move || value(&rt, &theirs))?;
    let here = value(&rt, &cell);
    Ok((here, there.join(&rt)))
}
