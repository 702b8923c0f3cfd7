//! Futures of cells that go through an executor, which tells of their answers what the futures promise.
ghost use Rattle.std.specs.Prelude.{◌≡◌, ◌*◌, ◌^◌, ◌<◌, List, [], ◌∷◌, IfOk, true};
ghost use Rattle.async_once_cell.specs.Prelude.{IfFailure, IsSetIn, about_of, is_shared};

use crate::promise::TenTimes;
use async_once_cell::{Known, Lazy, OnceCell, Refused};
use futures::Future;
use futures::executor::block_on;
use futures::future::ready;
use pagebook::Fits;
use std::alloc::AllocGlobal;
use std::io;
use std::random::RandomSource;
use std::sync::Wait;

/// The value by `block_on`: it is what the cell promises.
pub fn blocked<R>(
    rt: &R,
    cell: &OnceCell<u64, TenTimes>,
    key: u64,
) -> io::Result<Result<u64, Refused>>
where
    R: Wait + RandomSource + AllocGlobal,
    requires small { key * 10 < 2 ^ 64 }
    requires shared { is_shared cell.now ≡ true }
    requires about { about_of cell.now ≡ key ∷ [] }
    ensures { IfOk result (λ answer. IfOk answer (λ value. value ≡ key * 10)) }
{
    match block_on(rt, cell.get_or_init(rt, ready(key * 10)))? {
        Ok(value) => Ok(Ok(*value)),
        Err(refused) => Ok(Err(refused)),
    }
}

/// The same of a lazy cell, whatever its promise is.
pub fn blocked_on_lazy<F, R, V>(rt: &R, lazy: &Lazy<u64, F, V>) -> io::Result<Result<u64, Refused>>
where
    F: Future<Output = u64>,
    R: Wait + RandomSource + AllocGlobal,
    V: Fits<u64>,
    requires { is_shared lazy.now ≡ true }
    ensures { IfOk result (λ answer. IfOk answer (V.fits (about_of lazy.now))) }
{
    match block_on(rt, lazy.get(rt))? {
        Ok(value) => Ok(Ok(*value)),
        Err(refused) => Ok(Err(refused)),
    }
}

/// The same by a future that takes over what a token has seen: the cell is set, so there is no refusal.
pub fn blocked_after<'a, R>(
    rt: &'a R,
    cell: &'a OnceCell<u64>,
    token: &Known<'a, u64>,
) -> io::Result<Result<&'a u64, Refused>>
where
    R: Wait + RandomSource + AllocGlobal,
    requires token_of_this_cell { token.now.cell ≡ cell.now }
    requires set { IsSetIn token.now.cell token.now.log }
    ensures { IfFailure result (λ _. ⊥) }
{
    let mut future = cell.get_or_init(rt, ready(5));
    future.learn(token);
    block_on(rt, future)
}
