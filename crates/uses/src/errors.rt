//! Whose error a caller is told: one with which its own init may fail.
ghost use Rattle.std.specs.Prelude.{◌≡◌, Err, IfErr, IfOk};
ghost use Rattle.async_once_cell.specs.Inits.{IfInit};

use async_once_cell::{InitError, OnceCell};
use futures::Future;
use futures::executor::block_on;
use futures::future::err;
use std::alloc::AllocGlobal;
use std::io;
use std::random::RandomSource;
use std::sync::Wait;

/// Tries once more if there is no value. If this tells the error of an init, it is one that the second init may give.
fn own_error_by_second_try<'a, F, G, R>(
    rt: &'a R,
    cell: &'a OnceCell<u64>,
    first: F,
    second: G,
) -> io::Result<Result<&'a u64, InitError<u64>>>
where
    F: Future<Output = Result<u64, u64>>,
    G: Future<Output = Result<u64, u64>>,
    R: Wait + RandomSource + AllocGlobal,
    requires first { F.can_poll first }
    requires second { G.can_poll second }
    ensures { IfOk result (λ told. IfErr told (λ error. IfInit error (λ e. G.gives second (Err e)))) }
{
    if let Ok(value) = cell.get_or_try_init(rt, first).wait()? {
        return Ok(Ok(value));
    }
    cell.get_or_try_init(rt, second).wait()
}

/// If this tells the error of an init, it is 7, since this init gives no other. The kit's `block_on` knows nothing of
/// cells.
fn own_error_by_block_on<'a, R>(
    rt: &'a R,
    cell: &'a OnceCell<u64>,
) -> io::Result<Result<&'a u64, InitError<u64>>>
where
    R: Wait + RandomSource + AllocGlobal,
    ensures { IfOk result (λ told. IfErr told (λ error. IfInit error (λ e. e ≡ 7))) }
{
    block_on(rt, cell.get_or_try_init(rt, err::<u64, u64>(7)))
}

/// What a caller is told, whose init fails.
fn fail<R>(rt: &R, cell: &OnceCell<u64>) -> io::Result<Result<u64, InitError<u64>>>
where
    R: Wait + RandomSource + AllocGlobal,
{
    Ok(own_error_by_block_on(rt, cell)?.copied())
}

/// What a caller is told that tries twice.
fn fail_again<R>(rt: &R, cell: &OnceCell<u64>) -> io::Result<Result<u64, InitError<u64>>>
where
    R: Wait + RandomSource + AllocGlobal,
{
    let (first, second) = (err::<u64, u64>(8), err::<u64, u64>(9));
    Ok(own_error_by_second_try(rt, cell, first, second)?.copied())
}

/// What two callers of a new cell are told, whose inits fail.
pub fn fail_twice<R>(rt: &R) -> io::Result<[Result<u64, InitError<u64>>; 2]>
where
    R: Wait + RandomSource + AllocGlobal,
{
    let cell = OnceCell::new();
    Ok([fail(rt, &cell)?, fail_again(rt, &cell)?])
}
