//! What the owner of a cell gets after a token knew the value: that value.
ghost use Rattle.std.specs.Prelude.{◌≡◌, IfOk, Some};

use crate::fault::Fault;
use async_once_cell::{OnceCell, Told};
use futures::future::ready;
use std::alloc::AllocGlobal;
use std::random::RandomSource;
use std::sync::Wait;

/// What a wait was told, and what tells the owner so when the token is gone.
fn waited<R>(rt: &R, cell: &OnceCell<u64>) -> Result<(u64, Told<u64>), Fault>
where
    R: Wait + RandomSource + AllocGlobal,
    ensures { IfOk result (λ waited. (waited.1.cell ≡ cell.now) × (waited.1.value ≡ waited.0)) }
{
    let mut token = cell.token();
    let value = *cell.get_or_init(rt, ready(5)).wait_as(&mut token)??;
    let told = token.told().unwrap();
    Ok((value, told))
}

/// What is taken is what the wait was told.
fn takes_what_it_waited_for<R>(rt: &R, cell: &mut OnceCell<u64>) -> Result<(u64, u64), Fault>
where
    R: Wait + RandomSource + AllocGlobal,
    ensures { IfOk result (λ values. values.0 ≡ values.1) }
{
    let (waited, told) = waited(rt, cell)?;
    let took = cell.take_as(&told);
    Ok((waited, took))
}

/// Once the owner owns the value that the wait was told, the clauses of each call say which value it is: for example
/// those of `get`.
fn gets_what_it_waited_for<R>(rt: &R, cell: &mut OnceCell<u64>) -> Result<(u64, Option<u64>), Fault>
where
    R: Wait + RandomSource + AllocGlobal,
    ensures { IfOk result (λ values. values.1 ≡ Some values.0) }
{
    let (waited, told) = waited(rt, cell)?;
    cell.own_as(&told);
    Ok((waited, cell.get().copied()))
}

/// What the owner of a cell was told and finds there, and what it was told then and takes.
pub fn ask_twice<R>(rt: &R) -> Result<((u64, Option<u64>), (u64, u64)), Fault>
where
    R: Wait + RandomSource + AllocGlobal,
{
    let got = gets_what_it_waited_for(rt, &mut OnceCell::new())?;
    let took = takes_what_it_waited_for(rt, &mut OnceCell::new())?;
    Ok((got, took))
}
