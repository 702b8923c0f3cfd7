//! Schedules that run again and again in little memory.

use super::{most, run_one};
use crate::doubles::same;
use std::alloc::{AllocError, AllocGlobal};
use std::process::Abort;
use std::random::RandomSource;
use std::sync::Wait;
use test_doubles::memory::{hoard_most, hoard_rest};

// How many bytes there are for all runs of a schedule. One run needs less.
const BYTES: usize = 131_072;

// How often a schedule is run: a block that each run kept would come to more than there is.
const RUNS: u64 = 4_100;

// Whether every future is dropped in the end, memory is not short anyway, and few futures are made.
fn needs_little(lines: &str) -> bool {
    !lines.contains("starve") && !lines.contains("forget ") && most(lines) <= 12
}

// Runs a schedule so often.
fn run_often<R>(rt: &R, text: &str) -> Result<(), AllocError>
where
    R: Wait + AllocGlobal + RandomSource + Abort,
{
    let held = hoard_rest(rt.alloc(), BYTES)?;
    for _ in 0..RUNS {
        run_one(rt, text);
    }
    drop(held);
    Ok(())
}

/// Runs each schedule four thousand times in memory that would not last if a run kept any. So many have to be run at
/// least: one is passed over in which a future is forgotten, memory is short anyway, or more than a dozen futures wait.
pub fn run_in_little<R>(rt: &R, schedules: &str, least: usize) -> Result<(), AllocError>
where
    R: Wait + AllocGlobal + RandomSource + Abort,
{
    let held = hoard_most(rt.alloc())?;
    let mut ran = 0usize;
    for text in schedules.split("\n\n") {
        let (_, lines) = text.split_once('\n').unwrap_or((text, ""));
        if needs_little(lines) {
            run_often(rt, text)?;
            ran = ran.saturating_add(1);
        }
    }
    drop(held);
    same(rt, "schedules run in little memory", ran, ran.max(least));
    Ok(())
}
