//! The examples that stand in doc comments, as code that is proved and run.

mod polls;

use crate::fault::Fault;
use crate::print;
use async_once_cell::{InitError, Lazy, OnceCell, Parker, Refused};
use futures::Future;
use futures::future::{Ready, ok, ready};
use std::alloc::AllocGlobal;
use std::io;
use std::random::RandomSource;
use std::sync::Wait;

/// A cell and a lazy cell, each filled by the first that asks.
fn filled<R>(rt: &R) -> Result<[u64; 3], Fault>
where
    R: Wait + RandomSource + AllocGlobal,
{
    let cell = OnceCell::new();
    let first = cell.get_or_init(rt, ready(4)).wait()?;
    let second = cell.get_or_init(rt, ready(5)).wait()?;

    let lazy = Lazy::new(ready(3));
    let third = lazy.get(rt).wait()?;
    values(first, second, third)
}

/// The values that were told.
fn values(
    first: Result<&u64, Refused>,
    second: Result<&u64, Refused>,
    third: Result<&u64, Refused>,
) -> Result<[u64; 3], Fault> {
    Ok([*first?, *second?, *third?])
}

/// A lazy cell, and what it shows then.
fn lazily<R>(rt: &R) -> Result<(Result<u64, Refused>, Option<u64>), Fault>
where
    R: Wait + RandomSource + AllocGlobal,
{
    let lazy = Lazy::new(ready(3));
    let value = lazy.get(rt).wait()?;
    let set = lazy.try_get().copied();
    Ok((value.copied(), set))
}

/// A value that its owner lends for writing, and takes.
fn owned() -> [Option<u64>; 2] {
    let mut cell = OnceCell::new_with(5u64);
    let lent = cell.get().copied();
    if let Some(value) = cell.get_mut() {
        *value = 6;
    }
    let taken = cell.take();
    [lent, taken]
}

/// A lazy cell with a value of its owner, which is lent and replaced.
fn replaced() -> [Option<u64>; 4] {
    let mut lazy: Lazy<u64, Ready<u64>> = Lazy::with_value(7);
    let lent = lazy.try_get_mut().copied();
    let (one, set) = (
        lazy.replace_and_take(Lazy::with_value(8)),
        lazy.try_get().copied(),
    );
    let three = lazy.replace_and_take(Lazy::new(ready(9)));
    [lent, one, set, three]
}

/// An init that may fail, and does not.
fn tried<R>(rt: &R) -> io::Result<Result<u64, InitError<u64>>>
where
    R: Wait + RandomSource + AllocGlobal,
{
    let cell = OnceCell::new();
    let value = cell.get_or_try_init(rt, ok::<u64, u64>(7)).wait()?;
    Ok(value.copied())
}

/// Waits for the values of three cells by one parker.
fn parked<R>(rt: &R) -> Result<u64, Fault>
where
    R: Wait + RandomSource + AllocGlobal,
{
    let cells = [OnceCell::new(), OnceCell::new(), OnceCell::new()];
    let mut sum: u64 = 0;
    let mut parker = Parker::new(rt)?;
    for cell in &cells {
        let value = cell.get_or_init(rt, ready(1)).wait_on(&mut parker)??;
        sum = sum.wrapping_add(*value);
    }
    Ok(sum)
}

/// What a lazy cell shows before its future was driven on, and after.
fn before_and_after<F, R>(
    rt: &R,
    lazy: &Lazy<u64, F>,
) -> Result<(Option<u64>, u64, Option<u64>), Fault>
where
    F: Future<Output = u64>,
    R: Wait + RandomSource + AllocGlobal,
{
    let before = lazy.try_get().copied();
    let first = *lazy.get(rt).wait()??;
    let still = lazy.try_get().copied();
    Ok((before, first, still))
}

/// Prints what each of the examples gives.
pub fn show<R>(rt: &R) -> Result<(), Fault>
where
    R: Print + Wait + RandomSource + AllocGlobal,
{
    print(rt, "filled", filled(rt))?;
    print(rt, "a lazy cell that is filled", lazily(rt))?;
    print(rt, "of an owner", Ok::<_, Fault>((owned(), replaced())))?;
    print(rt, "an init that may fail", tried(rt))?;
    print(rt, "waited for by one parker", parked(rt))?;
    print(
        rt,
        "a lazy cell, before and after",
        before_and_after(rt, &Lazy::new(ready(10))),
    )?;
    polls::show(rt)
}
