//! A token, by which it is proved that two answers are the same.
ghost use Rattle.std.specs.Prelude.{◌≡◌, Some, IfOk};
ghost use Rattle.async_once_cell.specs.Tokens.{Agrees};

use super::own_error::Fault;
use async_once_cell::{Known, OnceCell};
use futures::future::ready;
use std::alloc::AllocGlobal;
use std::random::RandomSource;
use std::sync::Wait;

/// The value of the cell. The token knows it from then on.
fn value<'a, R>(
    rt: &'a R,
    cell: &'a OnceCell<u64>,
    token: &mut Known<'a, u64>,
) -> Result<&'a u64, Fault>
where
    R: Wait + RandomSource + AllocGlobal,
    requires token_of_this_cell { token.old.cell ≡ cell.now }
    ensures cell { token.new.cell ≡ token.old.cell }
    ensures value { IfOk result (λ value. token.new.value ≡ Some value.now) }
    ensures same { IfOk result (λ value. Agrees token.old.value value.now) }
{
    Ok(cell.get_or_init(rt, ready(6)).wait_as(token)??)
}

/// Two answers of one cell.
pub fn ask_twice<R>(rt: &R) -> Result<(u64, u64), Fault>
where
    R: Wait + RandomSource + AllocGlobal,
    ensures { IfOk result (λ told. told.0 ≡ told.1) }
{
    let cell = OnceCell::new();
    let mut token = cell.token();
    let first = *value(rt, &cell, &mut token)?;
    let second = *value(rt, &cell, &mut token)?;
    Ok((first, second))
}
